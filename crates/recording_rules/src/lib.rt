// Field recordings (document 02, order 8): the definition, and why the recorder writes nothing.
#![tactic(auto)]

ghost use Rattle.std.specs.Prelude.{◌≡◌};
ghost use Rattle.recording_rules.specs.declared.RecordError.TheVariants.{Refused};

use standard_refusal::Refusal;

/// Why the recorder wrote no byte.
#[derive(Clone, Copy, PartialEq, Eq, Debug)]
pub enum RecordError {
    /// the list has no step, so there is nothing to record
    Empty,
    /// the buffer is shorter than the recording
    Short,
    /// the list is refused
    Refused(Refusal),
}

impl From<Refusal> for RecordError {
    ghost from_gives = { λ refusal error. error ≡ Refused refusal };

    fn from(refusal: Refusal) -> RecordError {
        RecordError::Refused(refusal)
    }
}
