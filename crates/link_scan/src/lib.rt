// Captures of any length, as C and Rust are handed them: the functions of `capture_scanning`, with plain numbers in place of its values. The crate `gatulefo`
// exports them.
#![tactic(auto)]

ghost use Rattle.std.specs.Prelude.{ℕ, ◌≤◌, ◌≡◌, List, []};
ghost use Rattle.finder_windows.specs.Definition.{bits};
ghost use Rattle.finder_columns.specs.Columns.{Columns};
ghost use Rattle.capture_meetings.specs.Meetings.{meetings, any, ending};
ghost use Rattle.capture_history.specs.State.{Stands, Told, Taken};
ghost use Rattle.link_scan.specs.Numbers.{scan_in, fed_in, next_in};

use capture_history::{Next, Scan};

// How far a capture has come: how many of its bytes lie before the window, how many are in it, and the bit of the window at which the search goes on.
#[repr(C)]
#[derive(Clone, Copy)]
pub struct ScanState {
    pub before: u64,
    pub filled: usize,
    pub from: usize,
}

// How many bytes of a piece were taken, and the state then.
#[repr(C)]
#[derive(Clone, Copy)]
pub struct FedState {
    pub used: usize,
    pub state: ScanState,
}

// The next meeting, with its position in the capture and both distances, where `met` is true; else these are 0, and nothing more is met in what has come.
#[repr(C)]
#[derive(Clone, Copy)]
pub struct MeetingOrNone {
    pub position: u64,
    pub first: u32,
    pub second: u32,
    pub met: bool,
    pub state: ScanState,
}

fn taken_in(state: ScanState) -> Scan
    ensures { result ≡ scan_in state }
{
    Scan {
        before: state.before,
        filled: state.filled,
        from: state.from,
    }
}

fn handed_out(scan: Scan) -> ScanState
    ensures { scan_in result ≡ scan }
{
    ScanState {
        before: scan.before,
        filled: scan.filled,
        from: scan.from,
    }
}

fn meeting_or_none(next: Next) -> MeetingOrNone
    ensures { next_in result ≡ next }
{
    let state = handed_out(next.scan);
    match next.meeting {
        Some(meeting) => MeetingOrNone {
            position: meeting.position,
            first: meeting.first,
            second: meeting.second,
            met: true,
            state,
        },
        None => MeetingOrNone {
            position: 0,
            first: 0,
            second: 0,
            met: false,
            state,
        },
    }
}

// The state of a capture of which nothing has come.
pub fn start() -> ScanState
    ensures { (L : ℕ) (window : List ℕ) → 64 ≤ L → Stands L [] window (scan_in result) }
{
    handed_out(capture_scanning::start())
}

// Takes as much of a piece as the window has room for.
pub fn feed(window: &mut [u8], state: ScanState, piece: &[u8]) -> FedState
    ensures { (L : ℕ) (X : List ℕ) → Stands L X window.old (scan_in state) → Taken L X piece.now window.new (scan_in state) (fed_in result) }
{
    let fed = capture_scanning::feed(window, taken_in(state), piece);
    FedState {
        used: fed.used,
        state: handed_out(fed.scan),
    }
}

// The next meeting in what has come.
pub fn next(
    window: &[u8],
    state: ScanState,
    table: &[u64; 1280],
    marker: u32,
    tolerance: u32,
    length: u32,
) -> MeetingOrNone
    ensures { (X : List ℕ) → Stands length X window.now (scan_in state) → Columns marker tolerance table.now → Told marker tolerance length X window.now (scan_in state) (next_in result) }
{
    meeting_or_none(capture_scanning::seek(
        window,
        taken_in(state),
        table,
        marker,
        tolerance,
        length,
    ))
}

// What the scan of a capture that has come whole ends with: 0, or the number of its refusal.
pub fn end(state: ScanState, tolerance: u32, length: u32, met: bool) -> u8
    ensures { (m X window : List ℕ) → Stands length X window (scan_in state) → met ≡ any (meetings (bits X) m tolerance length) → result ≡ ending (bits X) m tolerance length }
{
    standard_refusal::code(capture_scanning::end(taken_in(state), tolerance, length, met))
}

// The columns of a marker and a tolerance, made once for a scan.
pub fn columns(table: &mut [u64; 1280], marker: u32, tolerance: u32)
    ensures { Columns marker tolerance table.new }
{
    *table = finder_columns::columns(marker, tolerance);
}
