// The arguments of programs: numbers spelt in ASCII.
#![tactic(auto)]

ghost use Rattle.std.specs.Prelude.{◌≤◌, ◌≡◌};
ghost use Rattle.program_arguments.specs.Arguments.{digit, numeral, fitting, decimal, eight_hex_digits};
ghost use Rattle.program_arguments.specs.Numeral.{numeral_of};

// The value of a hex digit of either case; 16 for any other character.
pub fn digit(c: u8) -> u8
    ensures { result ≡ digit c }
{
    match c {
        b'0'..=b'9' => c - b'0',
        b'A'..=b'F' => c - b'A' + 10,
        b'a'..=b'f' => c - b'a' + 10,
        _ => 16,
    }
}

// std's `from_str_radix` would take a sign too. A value that has reached 2^32 stays above it, whatever digits follow.
fn spelt(text: &[u8], base: u32) -> Option<u32>
    requires le_base { 2 ≤ base }
    requires base_bound { base ≤ 16 }
    ensures { numeral_of result ≡ fitting (numeral base 0 text.now) }
{
    let mut value: u32 = 0;
    for c in text {
        let d = u32::from(digit(*c));
        if d >= base {
            return None;
        }
        value = value.checked_mul(base)?.checked_add(d)?;
    }
    Some(value)
}

// "decimal digits alone, at least one, a value below 2^32"
pub fn decimal(text: &[u8]) -> Option<u32>
    ensures { numeral_of result ≡ decimal text.now }
{
    if text.is_empty() {
        return None;
    }
    spelt(text, 10)
}

// Eight hex digits, of either case.
pub fn eight_hex_digits(text: &[u8]) -> Option<u32>
    ensures { numeral_of result ≡ eight_hex_digits text.now }
{
    if text.len() != 8 {
        return None;
    }
    spelt(text, 16)
}
