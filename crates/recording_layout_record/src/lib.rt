// A record of a field recording by the rules of the layout (document 02, order 8).
#![tactic(auto)]

ghost use Rattle.std.specs.Prelude.{◌≡◌, ◌&&◌, eqb, length};
ghost use Rattle.recording_layout.specs.Definition.{all_zero, record_laid};

use recording_fields::is_wide;

pub fn zeros(bytes: &[u8]) -> bool
    ensures { result ≡ all_zero bytes.now }
{
    bytes.iter().all(|byte| *byte == 0)
}

// A record by the rules of the layout.
fn is_laid(r: &[u8], is_last: bool) -> bool
    requires { length r.now ≡ 64 }
    ensures { result ≡ record_laid is_last r.now }
{
    let refused = r[48];
    let kind = r[49];
    if !(is_last | (refused == 0)) {
        return false;
    }
    if kind > 3 {
        return false;
    }
    if !zeros(&r[50..56]) {
        return false;
    }
    is_wide(kind) | zeros(&r[60..64])
}

// Bytes that are not 64 are no record.
pub fn is_record(r: &[u8], is_last: bool) -> bool
    ensures { result ≡ (eqb (length r.now) 64 && record_laid is_last r.now) }
{
    if r.len() != 64 {
        return false;
    }
    is_laid(r, is_last)
}
