// What `replay`, `record` and `mend` write beside files: all lines of an answer at the start of a lent buffer, and how many bytes they are. The line of a
// replay can be put from any place on.
#![tactic(auto)]

ghost use Rattle.std.specs.Prelude.{◌≤◌, Err, length, map};
ghost use Rattle.recording_compare.specs.Verdict as trace;
ghost use Rattle.recording_rules.specs.Recorded as records;
ghost use Rattle.recording_mending_place.specs.Mended.{number_of};
ghost use Rattle.recording_mending.specs.Mended.{mending_of};
ghost use Rattle.program_digits.specs.Put.{Wrote, Filled};
ghost use Rattle.program_recordings.specs.Lines.{replay, record_said, bit_line, bit_lines, stop_line, mend_said};

use program_digits::{put, put_count, put_number};
use recording_compare::Verdict;
use recording_mending::Mending;
use recording_mending_place::Bit;
use recording_rules::RecordError;
use standard_refusal::Refusal;

// The line of what a replay answers, from a place on: `show` ends with it.
#[tactic(auto, unfolding(crate::specs::Lines::replay, program_digits::specs::Codes::codes))]
pub fn put_answer(out: &mut [u8], at: usize, answer: Result<Verdict, Refusal>) -> usize
    ensures { Wrote out.old at (replay (trace.answer_of answer)) out.new result }
{
    match answer {
        Ok(Verdict::Agrees) => put(out, at, b"agrees\n"),
        Ok(Verdict::Differs(record)) => put_count(out, at, b"record ", record as u64),
        Err(refusal) => put_count(out, at, b"refused ", u8::from(refusal) as u64),
    }
}

pub fn replay(answer: Result<Verdict, Refusal>, out: &mut [u8; 32]) -> usize
    ensures { Filled out.old (replay (trace.answer_of answer)) out.new result }
{
    put_answer(out, 0, answer)
}

#[tactic(auto, unfolding(crate::specs::Lines::record_said, program_digits::specs::Codes::codes))]
fn put_error(out: &mut [u8], error: RecordError) -> usize
    ensures { Wrote out.old 0 (record_said (records.recorded_of (Err error))) out.new result }
{
    match error {
        RecordError::Empty => put(out, 0, b"the list is empty\n"),
        RecordError::Short => put(out, 0, b"record: no room\n"),
        RecordError::Refused(refusal) => put_count(out, 0, b"refused ", u8::from(refusal) as u64),
    }
}

// What `record` says on standard error.
pub fn record_said(recorded: Result<usize, RecordError>, out: &mut [u8; 32]) -> usize
    ensures { Filled out.old (record_said (records.recorded_of recorded)) out.new result }
{
    match recorded {
        Ok(_) => 0,
        Err(error) => put_error(out, error),
    }
}

fn put_bit(out: &mut [u8], at: usize, block: usize, bit: Option<Bit>) -> usize
    ensures { Wrote out.old at (bit_line block (number_of bit)) out.new result }
{
    match bit {
        Some(bit) => {
            let next = put_number(out, at, b"block ", block as u64);
            put_count(out, next, b" bit ", bit.number as u64)
        }
        None => at,
    }
}

fn put_bits(out: &mut [u8], bits: &[Option<Bit>]) -> usize
    requires { length bits.now ≤ 37 }
    ensures { Wrote out.old 0 (bit_lines 0 (map number_of bits.now)) out.new result }
{
    let mut next = 0;
    for (block, bit) in bits.iter().enumerate() {
        next = put_bit(out, next, block, *bit);
    }
    next
}

fn put_stop(out: &mut [u8], at: usize, stopped: bool, block: usize) -> usize
    ensures { Wrote out.old at (stop_line stopped block) out.new result }
{
    if stopped {
        let next = put_number(out, at, b"block ", block as u64);
        return put(out, next, b" not mended\n");
    }
    at
}

// What `mend` says on standard error.
pub fn mend_said(mending: Result<Mending, Refusal>, out: &mut [u8; 2048]) -> usize
    ensures { Filled out.old (mend_said (mending_of mending)) out.new result }
{
    match mending {
        Ok(mending) => {
            let next = put_bits(out, &mending.bits);
            put_stop(out, next, mending.stopped, mending.written)
        }
        Err(refusal) => put_count(out, 0, b"refused ", u8::from(refusal) as u64),
    }
}
