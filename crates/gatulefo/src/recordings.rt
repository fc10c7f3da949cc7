// Field recordings (document 02, orders 8 and 10): a list's run recorded, a recording replayed, and a damaged one mended.
ghost use Rattle.std.specs.Prelude.{◌≡◌};
ghost use Rattle.recording_rules.specs.Definition.{recorded, replay};
ghost use Rattle.recording_mending_rules.specs.Definition.{mending};
ghost use Rattle.link_station.specs.Mending.{mended_of};
ghost use Rattle.link_station.specs.Recording.{record_numbers, left_by_recorder, replay_numbers, replayed};

use link_station::mended::{MendAnswer, mend_answer};
use link_station::recorded::{RecordAnswer, ReplayAnswer, record_answer, replay_answer};

// Runs the list from zero registers and i32 0, and writes its recording to `out`, which 18,944 bytes are enough for.
#[unsafe(no_mangle)]
pub extern "C" fn gatulefo_record(list: &[u8], out: &mut [u8]) -> RecordAnswer
    ensures { (record_numbers result, out.new) ≡ left_by_recorder (recorded list.now out.old) }
{
    record_answer(recording::recorder::record(list, out))
}

// Whether every record of a recording is what the calculator's definition gives.
#[unsafe(no_mangle)]
pub extern "C" fn gatulefo_replay(file: &[u8]) -> ReplayAnswer
    ensures { replay_numbers result ≡ replayed (replay file.now) }
{
    replay_answer(recording::replay::replay(file))
}

// Puts back a flipped bit of each block of a recording, and writes the blocks to `out`, up to the first that cannot be mended.
#[unsafe(no_mangle)]
pub extern "C" fn gatulefo_mend(file: &[u8], out: &mut [u8]) -> MendAnswer
    ensures { (mended_of result, out.new) ≡ mending file.now out.old }
{
    mend_answer(recording_mending::mend(file, out))
}
