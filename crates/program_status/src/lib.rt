// The status of a program. A program of this language has none of its own, so it writes a digit to a descriptor that `./program` gives it. One that has not
// answered writes none.
#![tactic(auto)]

ghost use Rattle.std.specs.Prelude.{◌≡◌, true, cond};
ghost use Rattle.program_digits.specs.Codes.{codes};
ghost use Rattle.program_status.specs.Status.{Ends, Good};

// The descriptor after standard error.
pub const STATUS_FILENO: i32 = 3;

fn ends_in(text: &[u8], end: &[u8]) -> bool
    ensures { (result ≡ true → Ends text.now end.now) × (Ends text.now end.now → result ≡ true) }
{
    if text.len() < end.len() {
        return false;
    }
    let from = text.len() - end.len();
    &text[from..] == end
}

// Whether what a program wrote is no refusal and no finding against its input.
pub fn is_good(text: &[u8]) -> bool
    ensures { (result ≡ true → Good text.now) × (Good text.now → result ≡ true) }
{
    if ends_in(text, b"refused 0\n") {
        return true;
    }
    ends_in(text, b"agrees\n")
}

// "1 where the answer is a refusal, "none", or a finding against the input; 0 else".
pub fn digit(good: bool) -> [u8; 1]
    ensures { result ≡ codes (cond good "0" "1") }
{
    if good { [b'0'] } else { [b'1'] }
}
