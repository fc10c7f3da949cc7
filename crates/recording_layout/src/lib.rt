// The layout of a field recording (document 02, order 8): the length of a file, and the checks of its blocks.
#![tactic(auto)]

ghost use Rattle.std.specs.Prelude.{◌*◌, ◌<◌, ◌≡◌, ◌↔◌, length, IfSome, IsSome};
ghost use Rattle.recording_layout.specs.Definition.{each_below, whole_blocks, blocks, right_block, record_at};

use recording_crc16::is_right;

// Not "length zero, no multiple of 512 or above 37 blocks".
pub fn is_whole(bytes: usize) -> bool
    ensures { result ≡ whole_blocks bytes }
{
    (bytes % 512 == 0) & (1 <= bytes / 512) & (bytes / 512 <= 37)
}

pub fn all_right(file: &[u8]) -> bool
    ensures { result ≡ each_below (blocks file.now) (right_block file.now) }
{
    let (blocks, _) = file.as_chunks::<512>();
    blocks.iter().all(|block| is_right(block))
}

// The record at a place among those of the file, counted from 0: seven to a block, from byte 4 on. None behind the last block.
pub fn record_at(file: &[u8], at: usize) -> Option<&[u8]>
    ensures there { IsSome result ↔ at < 7 * blocks file.now }
    ensures bytes { IfSome result (λ r. r.now ≡ record_at file.now at) }
    ensures len { IfSome result (λ r. length r.now ≡ 64) }
{
    let (blocks, _) = file.as_chunks::<512>();
    let block = blocks.get(at / 7)?;
    let start = 4 + 64 * (at % 7);
    let end = start + 64;
    Some(&block[start..end])
}
