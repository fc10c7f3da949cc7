// What comes back of the recorder and of a replay.
ghost use Rattle.std.specs.Prelude.{◌≡◌};
ghost use Rattle.recording_rules.specs.Recorded.{recorded_of};
ghost use Rattle.recording_compare.specs.Verdict.{answer_of};
ghost use Rattle.link_station.specs.Recording.{recorder_numbers, record_numbers, replayed, replay_numbers};

use recording_compare::Verdict;
use recording_rules::RecordError;
use standard_refusal::Refusal;

// How many bytes were written. None where the list has no step, the recording would overflow the buffer, or the list is refused: the number, 1; else 0.
#[repr(C)]
#[derive(Clone, Copy)]
pub struct RecordAnswer {
    pub bytes: usize,
    pub empty: bool,
    pub overflow: bool,
    pub refused: u8,
}

// The first record that is not what the definition gives, counted from 1; 0 where all are. Or the number of a refusal; else 0.
#[repr(C)]
#[derive(Clone, Copy)]
pub struct ReplayAnswer {
    pub differs: u16,
    pub refused: u8,
}

#[tactic(auto, unfolding(crate::specs::Recording::recorder_numbers))]
pub fn record_answer(answer: Result<usize, RecordError>) -> RecordAnswer
    ensures { record_numbers result ≡ recorder_numbers (recorded_of answer) }
{
    match answer {
        Ok(bytes) => RecordAnswer {
            bytes,
            empty: false,
            overflow: false,
            refused: 0,
        },
        Err(RecordError::Empty) => RecordAnswer {
            bytes: 0,
            empty: true,
            overflow: false,
            refused: 0,
        },
        Err(RecordError::Short) => RecordAnswer {
            bytes: 0,
            empty: false,
            overflow: true,
            refused: 0,
        },
        Err(RecordError::Refused(refusal)) => RecordAnswer {
            bytes: 0,
            empty: false,
            overflow: false,
            refused: u8::from(refusal),
        },
    }
}

#[tactic(auto, unfolding(crate::specs::Recording::replayed))]
pub fn replay_answer(answer: Result<Verdict, Refusal>) -> ReplayAnswer
    ensures { replay_numbers result ≡ replayed (answer_of answer) }
{
    match answer {
        Ok(Verdict::Agrees) => ReplayAnswer {
            differs: 0,
            refused: 0,
        },
        Ok(Verdict::Differs(differs)) => ReplayAnswer {
            differs,
            refused: 0,
        },
        Err(refusal) => ReplayAnswer {
            differs: 0,
            refused: u8::from(refusal),
        },
    }
}
