// The calculator's state: by value, and as a run holds it (registers).
#![tactic(auto)]

pub mod registers;

ghost use Rattle.std.specs.Prelude.{◌≡◌};
ghost use Rattle.calculator_rules.specs.Definition.{start};
ghost use Rattle.calculator_state.specs.State.{machine};

use calculator_scalar::Scalar;
use simd::V128;

#[derive(Clone, Copy)]
pub struct State {
    pub registers: [V128; 16],
    // Beside each register the number of the step that wrote it.
    pub writers: [u16; 16],
    pub scalar: Scalar,
}

impl State {
    // "starts from zero registers and scalar i32 0"
    pub fn zero() -> State
        ensures { machine result ≡ start }
    {
        State {
            registers: [V128 { lo: 0, hi: 0 }; 16],
            writers: [0u16; 16],
            scalar: Scalar::I32(0),
        }
    }
}
