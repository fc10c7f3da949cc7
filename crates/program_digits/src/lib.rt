// Numbers, bytes and text put into a lent slice from a place on. Each function answers the place after what it put, and leaves out what has no room, so that
// functions that put one text after another need no room themselves.
#![tactic(auto)]

ghost use Rattle.std.specs.Prelude.{◌+◌, ◌-◌, ◌<◌, ◌≤◌, min, ◌≡◌, ◌++◌, drop};
ghost use Rattle.program_digits.specs.Codes.{codes};
ghost use Rattle.program_digits.specs.Digits.{glyph, digits, places, decimal, two_decimals, hex, hex_bytes};
ghost use Rattle.program_digits.specs.Put.{Wrote};

pub fn put(out: &mut [u8], at: usize, text: &[u8]) -> usize
    ensures { Wrote out.old at text.now out.new result }
{
    if at >= out.len() {
        return at;
    }
    let n = (out.len() - at).min(text.len());
    out[at..at + n].copy_from_slice(&text[..n]);
    at + n
}

fn digit(n: u8) -> u8
    requires { n < 16 }
    ensures { result ≡ glyph n }
{
    if n < 10 { b'0' + n } else { b'a' - 10 + n }
}

// The last k digits of a number, highest first, at the end of twenty places. One loop, so that one law serves every field.
fn spell(n: u64, base: u64, k: usize) -> [u8; 20]
    requires base_nonzero { 0 < base }
    requires base_bound { base ≤ 16 }
    requires k_bound { k ≤ 20 }
    ensures { drop (20 - k) result ≡ digits base k n }
{
    let mut out = [0u8; 20];
    let mut rest = n;
    for i in (20 - k..20).rev() {
        out[i] = digit((rest % base) as u8);
        rest /= base;
    }
    out
}

fn put_digits(out: &mut [u8], at: usize, n: u64, base: u64, k: usize) -> usize
    requires base_nonzero { 0 < base }
    requires base_bound { base ≤ 16 }
    requires k_bound { k ≤ 20 }
    ensures { Wrote out.old at (digits base k n) out.new result }
{
    let text = spell(n, base, k);
    let first = 20 - k;
    put(out, at, &text[first..])
}

// How many decimal digits a number has.
fn places(n: u64) -> usize
    ensures value { result ≡ places 19 n }
    ensures upper_bound { result ≤ 20 }
{
    let mut k = 1;
    let mut rest = n;
    while rest > 9 {
        rest /= 10;
        k += 1;
    }
    k
}

pub fn put_decimal(out: &mut [u8], at: usize, n: u64) -> usize
    ensures { Wrote out.old at (decimal n) out.new result }
{
    put_digits(out, at, n, 10, places(n))
}

pub fn put_two_decimals(out: &mut [u8], at: usize, n: u8) -> usize
    ensures { Wrote out.old at (two_decimals n) out.new result }
{
    put_digits(out, at, n as u64, 10, 2)
}

pub fn put_hex8(out: &mut [u8], at: usize, bits: u64) -> usize
    ensures { Wrote out.old at (hex 8 bits) out.new result }
{
    put_digits(out, at, bits, 16, 8)
}

pub fn put_hex16(out: &mut [u8], at: usize, bits: u64) -> usize
    ensures { Wrote out.old at (hex 16 bits) out.new result }
{
    put_digits(out, at, bits, 16, 16)
}

pub fn put_hex_bytes(out: &mut [u8], at: usize, bytes: &[u8]) -> usize
    ensures { Wrote out.old at (hex_bytes bytes.now) out.new result }
{
    let mut next = at;
    for byte in bytes {
        next = put_digits(out, next, *byte as u64, 16, 2);
    }
    next
}

// A name and a number in decimal.
pub fn put_number(out: &mut [u8], at: usize, name: &[u8], n: u64) -> usize
    ensures { Wrote out.old at (name.now ++ decimal n) out.new result }
{
    let next = put(out, at, name);
    put_decimal(out, next, n)
}

// A line of a name and a number in decimal.
pub fn put_count(out: &mut [u8], at: usize, name: &[u8], n: u64) -> usize
    ensures { Wrote out.old at (name.now ++ (decimal n ++ codes "\n")) out.new result }
{
    let next = put(out, at, name);
    let next = put_decimal(out, next, n);
    put(out, next, b"\n")
}
