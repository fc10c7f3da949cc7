// Judging a file: refusals 13, 14 and 15, in that order over the whole file (document 02, order 8).
#![tactic(auto)]

ghost use Rattle.std.specs.Prelude.{◌+◌, ◌*◌, ◌≤◌, ◌<◌, ◌≡◌, length};
ghost use Rattle.recording_layout.specs.Definition.{each_below, blocks, count, record_at_laid, count_laid, block_laid, laid_block, records, judged};
ghost use Rattle.recording_layout_judge.specs.Judged.{judged_of};

use recording_layout::{all_right, is_whole};
use recording_layout_record::{is_record, zeros};
use standard_refusal::Refusal;

// The records of block k of n.
fn are_records(b: &[u8; 512], n: usize, k: usize) -> bool
    requires b_bound { count b.now ≤ 7 }
    requires k_bound { k < 37 }
    ensures { result ≡ each_below (count b.now) (record_at_laid n k b.now) }
{
    let count = b[2] as usize;
    let end = 4 + 64 * count;
    let (records, _) = b[4..end].as_chunks::<64>();
    for (i, r) in records.iter().enumerate() {
        let is_last = (k + 1 == n) & (i + 1 == count);
        if !is_record(r, is_last) {
            return false;
        }
    }
    true
}

// The record count of block k of n.
fn is_count(count: u8, n: usize, k: usize) -> bool
    requires { k < 37 }
    ensures { result ≡ count_laid n k count }
{
    if 7 * k + count as usize > 256 {
        return false;
    }
    if k + 1 == n {
        return (1 <= count) & (count <= 7);
    }
    count == 7
}

fn number(low: u8, high: u8) -> usize
    ensures { result ≡ low + 256 * high }
{
    low as usize + 256 * (high as usize)
}

// Block k of n by the rules of the layout.
fn is_block(b: &[u8; 512], n: usize, k: usize) -> bool
    requires k_bound { k < 37 }
    ensures { result ≡ block_laid n k b.now }
{
    let count = b[2];
    if number(b[0], b[1]) != k {
        return false;
    }
    if !is_count(count, n, k) {
        return false;
    }
    if b[3] != 0 {
        return false;
    }
    let end = 4 + 64 * (count as usize);
    if !zeros(&b[end..510]) {
        return false;
    }
    are_records(b, n, k)
}

fn all_laid(file: &[u8]) -> bool
    requires { blocks file.now ≤ 37 }
    ensures { result ≡ each_below (blocks file.now) (laid_block file.now) }
{
    let (blocks, _) = file.as_chunks::<512>();
    for (k, b) in blocks.iter().enumerate() {
        if !is_block(b, blocks.len(), k) {
            return false;
        }
    }
    true
}

// The last block has the records that the others have not.
fn count_records(file: &[u8]) -> usize
    requires { 1 ≤ blocks file.now }
    ensures { result ≡ records file.now }
{
    let last = file.len() / 512 - 1;
    let from = 512 * last;
    let to = from + 512;
    let b = &file[from..to];
    7 * last + b[2] as usize
}

// The number of records of a file that is a recording, or why it is none.
#[tactic(auto, unfolding(recording_layout::specs::Definition::refusal))]
pub fn judge(file: &[u8]) -> Result<usize, Refusal>
    ensures { judged_of result ≡ judged file.now }
{
    if !is_whole(file.len()) {
        return Err(Refusal::Blocks);
    }
    if !all_right(file) {
        return Err(Refusal::Check);
    }
    if !all_laid(file) {
        return Err(Refusal::Layout);
    }
    Ok(count_records(file))
}
