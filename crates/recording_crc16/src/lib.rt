// The check of a field recording (document 02, order 8), a byte at a time.
#![tactic(auto)]

ghost use Rattle.std.specs.Prelude.{◌+◌, ◌*◌, ◌≡◌};
ghost use Rattle.recording_crc16.specs.Remainder.{run, bits, check};
ghost use Rattle.recording_crc16.specs.Powers.{times};
ghost use Rattle.recording_crc16.specs.Block.{right};

// What eight steps make of a register whose top byte is n and whose low byte is 0: x^12 + x^5 + 1 times the byte, and once more times what that brings over the
// top.
fn eight(n: u8) -> u16
    ensures { result ≡ times 8 (n * 256) }
{
    let x = (n ^ (n >> 4)) as u16;
    (x << 12) ^ (x << 5) ^ x
}

// The register after the eight bits of a byte.
fn feed(r: u16, x: u8) -> u16
    ensures { result ≡ run r (bits 8 x) }
{
    let n = ((r >> 8) ^ (x as u16)) as u8;
    eight(n) ^ (r << 8)
}

pub fn check(bytes: &[u8]) -> u16
    ensures { result ≡ check bytes.now }
{
    let mut r: u16 = 65535;
    for byte in bytes {
        r = feed(r, *byte);
    }
    r
}

// Whether a block's last two bytes are the check of those before them, "high byte first".
pub fn is_right(block: &[u8]) -> bool
    ensures { result ≡ right block.now }
{
    if block.len() != 512 {
        return false;
    }
    check(&block[..510]) == u16::from_be_bytes([block[510], block[511]])
}
