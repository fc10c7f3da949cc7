// What an operation's line has after its name.
#![tactic(auto)]

ghost use Rattle.std.specs.Prelude.{◌≡◌};
ghost use Rattle.program_forms.specs.Forms.{of_registers, form_of, form};
ghost use Rattle.program_forms.specs.Takes.{takes_of};

use calculator_rules::shape::Shape;

// Registers of consecutive places of the step from `first` on, lane numbers, bytes: how many of each.
#[derive(Clone, Copy)]
pub struct Takes {
    pub first: usize,
    pub registers: usize,
    pub lanes: usize,
    pub bytes: usize,
}

fn registers(first: usize, registers: usize) -> Takes
    ensures { takes_of result ≡ of_registers first registers }
{
    Takes {
        first,
        registers,
        lanes: 0,
        bytes: 0,
    }
}

fn of_shape(shape: Shape) -> Takes
    ensures { takes_of result ≡ form_of shape }
{
    match shape {
        Shape::None => registers(2, 0),
        Shape::Constant => Takes {
            first: 2,
            registers: 1,
            lanes: 0,
            bytes: 16,
        },
        Shape::Shuffle => Takes {
            first: 2,
            registers: 3,
            lanes: 0,
            bytes: 16,
        },
        Shape::Unary => registers(2, 2),
        Shape::Binary => registers(2, 3),
        Shape::Ternary => registers(2, 4),
        Shape::Shift => registers(2, 2),
        Shape::Test => registers(3, 1),
        Shape::Splat(_) => registers(2, 1),
        Shape::Extract(_) => Takes {
            first: 3,
            registers: 1,
            lanes: 1,
            bytes: 0,
        },
        Shape::Replace(_, _) => Takes {
            first: 2,
            registers: 2,
            lanes: 1,
            bytes: 0,
        },
    }
}

// What the operation of a number takes; nothing where it has no vector operand or no name.
pub fn of(operation: u16) -> Takes
    ensures { takes_of result ≡ form operation }
{
    if (operation == 227) | ((operation == 239) | ((257 <= operation) & (operation <= 260))) {
        return registers(2, 2);
    }
    if (261 <= operation) & (operation <= 264) {
        return registers(2, 4);
    }
    of_shape(calculator_shape::decide(operation))
}
