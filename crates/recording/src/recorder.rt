// The recorder: a list run from zero registers and i32 0, and its records written as a file.
ghost use Rattle.std.specs.Prelude.{◌≡◌, ◌*◌, ◌≤◌, length, drop};
ghost use Rattle.calculator_rules.specs.Definition.{list_refusal};
ghost use Rattle.recording_packing.specs.Definition.{blocks_for, fits, standing};
ghost use Rattle.recording_rules.specs.Definition.{records_of, recorded};
ghost use Rattle.recording_rules.specs.Recorded.{recorded_of};

use crate::account::account;
use calculator_scalar::Scalar;
use calculator_step::step;
use recording_packing::has_room;
pub use recording_rules::RecordError;

// How many records a list of whole steps leaves. A refused step is the last.
fn count(list: &[u8]) -> usize
    requires { length list.now ≤ 8192 }
    ensures { (result ≤ 256) × (64 * result ≡ length (records_of list.now)) }
{
    let n = list.len() / 32;
    let mut w = [0u64; 32];
    let mut writers = [0u16; 16];
    let mut scalar = Scalar::I32(0);
    for at in 0..n {
        let from = 32 * at;
        match step(
            &mut w,
            &mut writers,
            scalar,
            at as u8,
            &list[from..from + 32],
        ) {
            Ok(stepped) => scalar = stepped.scalar,
            Err(_) => return at + 1,
        }
    }
    n
}

// Whether so many bytes have room for a recording. The steps are run only where a record of each would have none.
fn has_room_for(list: &[u8], room: usize) -> bool
    requires { list_refusal (length list.now) 0 256 ≡ 0 }
    ensures { result ≡ fits (length (records_of list.now)) room }
{
    if has_room(2 * list.len(), room) {
        return true;
    }
    has_room(64 * count(list), room)
}

// The records of a list of whole steps, each where it stands in the file; how many they are. A refused step is the last.
fn record_steps(list: &[u8], out: &mut [u8]) -> usize
    requires list_len_bound { length list.now ≤ 8192 }
    requires list_in_bounds { 512 * blocks_for (length (records_of list.now)) ≤ length out.old }
    ensures counted { (result ≤ 256) × (64 * result ≡ length (records_of list.now)) }
    ensures written { standing result out.new ≡ records_of list.now }
    ensures beyond { drop (512 * blocks_for (64 * result)) out.new ≡ drop (512 * blocks_for (64 * result)) out.old }
{
    let n = list.len() / 32;
    let mut w = [0u64; 32];
    let mut writers = [0u16; 16];
    let mut scalar = Scalar::I32(0);
    let mut at = 0;
    while at < n {
        let from = 32 * at;
        let to = from + 32;
        let s = &list[from..to];
        let left = account(&mut w, &mut writers, scalar, at as u8, s);
        let refused = left.refused;
        let start = 512 * (at / 7) + 64 * (at % 7) + 4;
        let end = start + 64;
        recording_fields::put(
            &mut out[start..end],
            s,
            left.lo,
            left.hi,
            refused,
            left.kind,
            left.bits,
        );
        scalar = left.scalar;
        at += 1;
        if refused != 0 {
            return at;
        }
    }
    at
}

// The recording of a list at the start of a buffer that has room for it: how many bytes were written.
pub fn record(list: &[u8], out: &mut [u8]) -> Result<usize, RecordError>
    ensures { (recorded_of result, out.new) ≡ recorded list.now out.old }
{
    calculator_limits::judge(list.len(), 0, 256)?;
    if list.len() == 0 {
        return Err(RecordError::Empty);
    }
    if !has_room_for(list, out.len()) {
        return Err(RecordError::Short);
    }
    let n = record_steps(list, out);
    recording_packing::seal(out, n);
    Ok(512 * ((n + 6) / 7))
}
