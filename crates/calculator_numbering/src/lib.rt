// The numbers beside the registers: each is "the number of the step that last wrote it in this run, 1 to 256, or 0 if none" (document 02, order 1).
#![tactic(auto)]

ghost use Rattle.std.specs.Prelude.{◌≡◌, cond, suc, ◌%◌, eqb, is_ok, replicate, set};
ghost use Rattle.calculator_rules.specs.Definition.{destination};
ghost use Rattle.calculator_rules.specs.Shape.{profile_of};

use calculator_rules::fields::byte;
use calculator_rules::shape::Shape;

// Whether a step of the shape writes a vector.
pub fn gives_vector(shape: Shape) -> bool
    ensures { result ≡ (profile_of shape).gives_vector }
{
    !matches!(shape, Shape::None | Shape::Test | Shape::Extract(_))
}

// The step at a place, counted from 0, of a shape, as it was judged, whatever the error: it numbers the register that it wrote, and where it wrote none nothing.
// The low four bits of the destination name it: a judged number has no other.
pub fn number<E: Copy>(
    writers: &mut [u16; 16],
    shape: Shape,
    judged: Result<(), E>,
    place: u8,
    s: &[u8],
)
    ensures { writers.new ≡ cond (is_ok judged) (cond (profile_of shape).gives_vector (set writers.old (destination s.now % 16) (suc place)) writers.old) writers.old }
{
    if judged.is_ok() && gives_vector(shape) {
        writers[(byte(s, 2) % 16) as usize] = place as u16 + 1;
    }
}

// A run from a place on, as its list was judged: "A run resets all of them to 0 as it starts" (document 02, order 1); "taking up above place 0 does not reset
// them" (order 12); a refused list changes none.
pub fn take_up<E: Copy>(writers: &mut [u16; 16], judged: Result<(), E>, place: usize)
    ensures { writers.new ≡ cond (is_ok judged) (cond (eqb place 0) (replicate 16 0) writers.old) writers.old }
{
    if judged.is_ok() && place == 0 {
        *writers = [0u16; 16];
    }
}
