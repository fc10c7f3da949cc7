// Captures of any length (document 02, order 5, every position): where a marker stands and stands again one frame later, in order, each once, from pieces of
// any size. The caller keeps the state from one call to the next and lends a window of more than (length + 38) / 8 bytes, 8,197 for any length, and a table of
// columns. Ask for meetings until there is none before the next piece is fed: then some bytes of each piece are taken.
ghost use Rattle.std.specs.Prelude.{ℕ, ◌≤◌, ◌≡◌, List, []};
ghost use Rattle.finder_windows.specs.Definition.{bits};
ghost use Rattle.finder_columns.specs.Columns.{Columns};
ghost use Rattle.capture_meetings.specs.Meetings.{meetings, any, ending};
ghost use Rattle.capture_history.specs.State.{Stands, Told, Taken};
ghost use Rattle.link_scan.specs.Numbers.{scan_in, fed_in, next_in};

use link_scan::{FedState, MeetingOrNone, ScanState};

// The columns of a marker and a tolerance, made once for a scan.
#[unsafe(no_mangle)]
pub extern "C" fn gatulefo_scan_columns(table: &mut [u64; 1280], marker: u32, tolerance: u32)
    ensures { Columns marker tolerance table.new }
{
    link_scan::columns(table, marker, tolerance)
}

// The state of a capture of which nothing has come.
#[unsafe(no_mangle)]
pub extern "C" fn gatulefo_scan_start() -> ScanState
    ensures { (L : ℕ) (window : List ℕ) → 64 ≤ L → Stands L [] window (scan_in result) }
{
    link_scan::start()
}

// Takes as much of a piece as the window has room for.
#[unsafe(no_mangle)]
pub extern "C" fn gatulefo_scan_feed(window: &mut [u8], state: ScanState, piece: &[u8]) -> FedState
    ensures { (L : ℕ) (X : List ℕ) → Stands L X window.old (scan_in state) → Taken L X piece.now window.new (scan_in state) (fed_in result) }
{
    link_scan::feed(window, state, piece)
}

// The next meeting in what has come.
#[unsafe(no_mangle)]
pub extern "C" fn gatulefo_scan_next<'a>(
    window: &'a [u8],
    state: ScanState,
    table: &'a [u64; 1280],
    marker: u32,
    tolerance: u32,
    length: u32,
) -> MeetingOrNone
    ensures { (X : List ℕ) → Stands length X window.now (scan_in state) → Columns marker tolerance table.now → Told marker tolerance length X window.now (scan_in state) (next_in result) }
{
    link_scan::next(window, state, table, marker, tolerance, length)
}

// What the scan of a capture that has come whole ends with: 0, or the number of its refusal. `met` is whether anything was met. Of the first state it is 8 or 9
// where the tolerance or the length is refused, and else 10: ask so before a scan begins.
#[unsafe(no_mangle)]
pub extern "C" fn gatulefo_scan_end(state: ScanState, tolerance: u32, length: u32, met: bool) -> u8
    ensures { (m X window : List ℕ) → Stands length X window (scan_in state) → met ≡ any (meetings (bits X) m tolerance length) → result ≡ ending (bits X) m tolerance length }
{
    link_scan::end(state, tolerance, length, met)
}
