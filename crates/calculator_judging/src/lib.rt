// Judging a step: refusals 2 to 6 (document 01: "Checked in the order 1 to 7"). The tests stand in that order, and the first that fails is the answer.
#![tactic(auto)]

ghost use Rattle.std.specs.Prelude.{◌≡◌, ltb, leb, eqb};
ghost use Rattle.standard.specs.Instruction.{kind_number};
ghost use Rattle.standard.specs.Refusal.{legal};
ghost use Rattle.standard_refusal.specs.Number.{code_of};
ghost use Rattle.calculator_rules.specs.Definition.{unless, refusal, indices};
ghost use Rattle.calculator_rules.specs.Shape.{the_kind, profile_of};

use calculator_rules::fields::{byte, indices};
use calculator_rules::shape::{Kind, Shape};
use standard_refusal::Refusal;

fn register(number: u8) -> Result<(), Refusal>
    ensures { code_of result ≡ unless (leb number 15) 3 0 }
{
    if number <= 15 {
        Ok(())
    } else {
        Err(Refusal::Register)
    }
}

fn lane(number: u8, lanes: u8) -> Result<(), Refusal>
    ensures { code_of result ≡ unless (ltb number lanes) 4 0 }
{
    if number < lanes {
        Ok(())
    } else {
        Err(Refusal::Lane)
    }
}

fn legal(indices: &[u8]) -> bool
    ensures { result ≡ legal indices.now }
{
    indices.iter().all(|&index| index <= 31)
}

fn indices_fit(s: &[u8]) -> Result<(), Refusal>
    ensures { code_of result ≡ unless (legal (indices s.now)) 5 0 }
{
    if legal(&indices(s)) {
        Ok(())
    } else {
        Err(Refusal::Index)
    }
}

fn kind(held: Kind, read: Kind) -> Result<(), Refusal>
    ensures { code_of result ≡ unless (eqb (kind_number (the_kind held)) (kind_number (the_kind read))) 6 0 }
{
    if held == read {
        Ok(())
    } else {
        Err(Refusal::Kind)
    }
}

// The first refusal that a step of the shape meets where the scalar held is of the kind.
pub fn judge(shape: Shape, held: Kind, s: &[u8]) -> Result<(), Refusal>
    ensures { code_of result ≡ refusal (profile_of shape) (the_kind held) s.now }
{
    let to = byte(s, 2);
    let a = byte(s, 3);
    let b = byte(s, 4);
    let c = byte(s, 5);
    let number = byte(s, 6);
    match shape {
        Shape::None => Err(Refusal::Operation),
        Shape::Constant => register(to),
        Shape::Shuffle => {
            register(a)?;
            register(b)?;
            register(to)?;
            indices_fit(s)
        }
        Shape::Unary => {
            register(a)?;
            register(to)
        }
        Shape::Binary => {
            register(a)?;
            register(b)?;
            register(to)
        }
        Shape::Ternary => {
            register(a)?;
            register(b)?;
            register(c)?;
            register(to)
        }
        Shape::Shift => {
            register(a)?;
            register(to)?;
            kind(held, Kind::I32)
        }
        Shape::Test => register(a),
        Shape::Splat(read) => {
            register(to)?;
            kind(held, read)
        }
        Shape::Extract(lanes) => {
            register(a)?;
            lane(number, lanes)
        }
        Shape::Replace(lanes, read) => {
            register(a)?;
            register(to)?;
            lane(number, lanes)?;
            kind(held, read)
        }
    }
}
