// Every meeting of a capture of any length that comes in pieces. The caller lends a window, which holds the capture's last bytes, and the marker's columns;
// what else is to be known from one call to the next is a value of three numbers.
#![tactic(auto)]

ghost use Rattle.std.specs.Prelude.{ℕ, ◌+◌, ◌≤◌, ◌≡◌, List, [], ltb, length};
ghost use Rattle.standard_refusal.specs.Number.{code_of};
ghost use Rattle.finder_windows.specs.Definition.{bits};
ghost use Rattle.capture_meetings.specs.Meetings.{meetings, any, ending};
ghost use Rattle.capture_history.specs.State.{Stands};

pub use capture_feeding::feed;
pub use capture_history::{Fed, Meeting, Next, Scan};
pub use capture_seeking::seek;
use standard_refusal::Refusal;

/// A capture of which nothing has come.
pub fn start() -> Scan
    ensures { (L : ℕ) (window : List ℕ) → 64 ≤ L → Stands L [] window result }
{
    Scan {
        before: 0,
        filled: 0,
        from: 0,
    }
}

// Whether a capture that has come whole is shorter than a frame and a marker.
fn is_short(scan: Scan, frame: u32) -> bool
    ensures { (X window : List ℕ) → Stands frame X window scan → result ≡ ltb (length (bits X)) (frame + 32) }
{
    scan.before.saturating_add(scan.filled as u64) < (frame as u64 + 39) / 8
}

/// What the scan of a capture that has come whole ends with, by whether anything was met.
pub fn end(scan: Scan, tolerance: u32, frame: u32, met: bool) -> Result<(), Refusal>
    ensures { (m X window : List ℕ) → Stands frame X window scan → met ≡ any (meetings (bits X) m tolerance frame) → code_of result ≡ ending (bits X) m tolerance frame }
{
    finder_windows::barred(tolerance, frame)?;
    if is_short(scan, frame) {
        return Err(Refusal::Buffer);
    }
    if met { Ok(()) } else { Err(Refusal::Nowhere) }
}
