// What a step may be: the kinds of a scalar and the shapes of an operation.
ghost use Rattle.std.specs.Prelude.{◌≡◌};
ghost use Rattle.standard.specs.Instruction.{kind_number};
ghost use Rattle.calculator_rules.specs.Shape.{the_kind};

// The kinds of the scalar, each with the number that a recording has.
#[derive(Clone, Copy, PartialEq, Eq, Debug)]
pub enum Kind {
    I32 = 0,
    I64 = 1,
    F32 = 2,
    F64 = 3,
}

impl Kind {
    // Which a recording has.
    pub fn number(self) -> u8
        ensures { result ≡ kind_number (the_kind self) }
    {
        self as u8
    }
}

// What an operation takes and gives, with the lane count and the kind of the scalar that it reads.
#[derive(Clone, Copy, PartialEq, Eq, Debug)]
pub enum Shape {
    // no calculator step
    None,
    Constant,
    Shuffle,
    Unary,
    Binary,
    Ternary,
    Shift,
    Test,
    Splat(Kind),
    Extract(u8),
    Replace(u8, Kind),
}
