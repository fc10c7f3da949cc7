// What comes of a capture, put into a lent window that holds its last bytes.
#![tactic(auto)]

ghost use Rattle.std.specs.Prelude.{ℕ, ◌+◌, ◌<◌, ◌≤◌, ◌≡◌, List, ◌⊎◌, length};
ghost use Rattle.capture_history.specs.State.{Stands, Kept, Taken};

use capture_history::{CAPTURE, Fed, Scan};

// Gives up the whole bytes before the position that is searched next.
fn make_room(window: &mut [u8], scan: Scan) -> Scan
    ensures kept { (L : ℕ) (X : List ℕ) → Stands L X window.old scan → Kept L X window.new scan result }
    ensures in_first_byte { (L : ℕ) (X : List ℕ) → Stands L X window.old scan → result.from < 8 }
{
    let Scan {
        before,
        filled,
        from,
    } = scan;
    let by = from / 8;
    if (window.len() < filled) | (filled < by) | (before > CAPTURE) {
        return scan;
    }
    window.copy_within(by..filled, 0);
    Scan {
        before: before + by as u64,
        filled: filled - by,
        from: from % 8,
    }
}

// Gives them up where the window has no room for what is to come.
fn with_room(window: &mut [u8], scan: Scan, wanted: usize) -> Scan
    ensures kept { (L : ℕ) (X : List ℕ) → Stands L X window.old scan → Kept L X window.new scan result }
    ensures room_or_in_first_byte { (L : ℕ) (X : List ℕ) → Stands L X window.old scan → (result.filled + wanted ≤ length window.new) ⊎ (result.from < 8) }
{
    if scan.filled <= window.len() && wanted <= window.len() - scan.filled {
        return scan;
    }
    make_room(window, scan)
}

// How many bytes more a capture may have.
fn left(before: u64, filled: usize) -> usize
    ensures { before + filled ≤ 1152921504606846976 → before + filled + result ≡ 1152921504606846976 }
{
    (CAPTURE.saturating_sub(before) as usize).saturating_sub(filled)
}

/// Takes as much of a piece as the window has room for.
pub fn feed(window: &mut [u8], scan: Scan, piece: &[u8]) -> Fed
    ensures used_in_bounds { result.used ≤ length piece.now }
    ensures taken { (L : ℕ) (X : List ℕ) → Stands L X window.old scan → Taken L X piece.now window.new scan result }
{
    let kept = with_room(window, scan, piece.len());
    let filled = kept.filled;
    if window.len() < filled {
        return Fed {
            used: 0,
            scan: kept,
        };
    }
    let room = (window.len() - filled).min(left(kept.before, filled));
    let used = room.min(piece.len());
    let end = filled + used;
    window[filled..end].copy_from_slice(&piece[..used]);
    Fed {
        used,
        scan: Scan {
            filled: end,
            ..kept
        },
    }
}
