// Records that stand in the blocks of a buffer become a file (document 02, order 8).
#![tactic(auto)]

ghost use Rattle.std.specs.Prelude.{◌*◌, ◌≤◌, ◌<◌, ◌≡◌, cond, ◌++◌, ltb, length, take, drop};
ghost use Rattle.recording_packing.specs.Definition.{packed_block, packed, blocks_for, fits, standing, sealed_into};

use recording_crc16::check;

// A byte of a block: of the records, which end there, as it stands; behind them zero.
fn kept(byte: u8, i: usize, end: usize) -> u8
    ensures { result ≡ cond (ltb i end) byte 0 }
{
    if i < end { byte } else { 0 }
}

// Of a block in which so many records stand from byte 4 on: its number and their count, the zeros behind them, the check.
fn seal_block(block: &mut [u8], k: usize, count: usize)
    requires block_len { length block.old ≡ 512 }
    requires k_bound { k < 37 }
    requires count_bound { count ≤ 7 }
    ensures { block.new ≡ packed_block k (take (64 * count) (drop 4 block.old)) }
{
    block[0] = k as u8;
    block[1] = 0;
    block[2] = count as u8;
    block[3] = 0;
    let end = 4 + 64 * count;
    // Each byte is read before it is written: a loop that only wrote zeros would be compiled to a call of memset.
    for i in 4..510 {
        block[i] = kept(block[i], i, end);
    }
    let q = check(&block[..510]);
    block[510] = (q / 256) as u8;
    block[511] = (q % 256) as u8;
}

// Whether so many bytes are one to 256 records, and their blocks have room in so many bytes.
pub fn has_room(records: usize, out: usize) -> bool
    ensures { result ≡ fits records out }
{
    if records > 16384 {
        return false;
    }
    (records % 64 == 0) & (64 <= records) & (512 * ((records + 447) / 448) <= out)
}

fn seal_blocks(out: &mut [u8], n: usize)
    requires n_bound { n ≤ 256 }
    requires n_in_bounds { 512 * blocks_for (64 * n) ≤ length out.old }
    ensures { out.new ≡ packed (standing n out.old) ++ drop (512 * blocks_for (64 * n)) out.old }
{
    let blocks = (n + 6) / 7;
    // By index: of a slice that chunks_mut has lent out the library does not say what it holds afterwards.
    for k in 0..blocks {
        let start = 512 * k;
        let end = start + 512;
        let count = usize::min(7, n - 7 * k);
        seal_block(&mut out[start..end], k, count);
    }
}

// One to 256 records that stand in the blocks of a buffer, seven to a block, become a file at its start; of another number of them, or of a
// buffer that has no room for the blocks, no byte is written.
pub fn seal(out: &mut [u8], n: usize)
    ensures { out.new ≡ sealed_into n out.old }
{
    if n > 256 {
        return;
    }
    if !has_room(64 * n, out.len()) {
        return;
    }
    seal_blocks(out, n);
}
