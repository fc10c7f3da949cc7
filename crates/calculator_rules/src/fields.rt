// The fields of a step, read where they stand (document 01: "A step is 32 bytes: 0..1 operation .. Numbers are little-endian").
ghost use Rattle.std.specs.Prelude.{◌≡◌, ◌∷◌, [], get_or};
ghost use Rattle.standard.specs.Lanes.{joined};
ghost use Rattle.calculator_rules.specs.Definition;

// The byte at a place; 0 past the end, as in the definition.
pub fn byte(s: &[u8], i: usize) -> u8
    ensures { result ≡ get_or s.now i 0 }
{
    if i < s.len() { s[i] } else { 0 }
}

fn pair(a: u8, b: u8) -> u16
    ensures { result ≡ joined 8 (a ∷ b ∷ []) }
{
    (a as u16) + 256 * (b as u16)
}

pub fn operation(s: &[u8]) -> u16
    ensures { result ≡ Definition.operation s.now }
{
    pair(byte(s, 0), byte(s, 1))
}

// The constant of v128.const or the sixteen shuffle indices.
pub fn indices(s: &[u8]) -> [u8; 16]
    ensures { result ≡ Definition.indices s.now }
{
    let mut r = [0u8; 16];
    for i in 0..16 {
        r[i] = byte(s, 16 + i);
    }
    r
}
