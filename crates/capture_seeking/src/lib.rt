// The next meeting in what has come of a capture, by the marker finder's search.
#![tactic(auto)]

ghost use Rattle.std.specs.Prelude.{ℕ, List};
ghost use Rattle.finder_columns.specs.Columns.{Columns};
ghost use Rattle.capture_history.specs.State.{Stands, Told};

use capture_history::{CAPTURE, Meeting, Next, Scan};

/// The next meeting in what has come.
pub fn seek(
    window: &[u8],
    scan: Scan,
    table: &[u64; 1280],
    marker: u32,
    tolerance: u32,
    frame: u32,
) -> Next
    ensures { (X : List ℕ) → Stands frame X window.now scan → Columns marker tolerance table.now → Told marker tolerance frame X window.now scan result }
{
    let Scan {
        before,
        filled,
        from,
    } = scan;
    let none = Next {
        meeting: None,
        scan,
    };
    if (window.len() < filled) | (before > CAPTURE) | (filled > CAPTURE as usize) {
        return none;
    }
    let tail = frame as usize + 31;
    if 8 * filled < tail {
        return none;
    }
    let positions = 8 * filled - tail;
    let Some(found) = finder::next(&window[..filled], from, table, marker, tolerance, frame) else {
        return Next {
            meeting: None,
            scan: Scan {
                from: positions,
                ..scan
            },
        };
    };
    if found.position >= positions {
        return none;
    }
    Next {
        meeting: Some(Meeting {
            position: 8 * before + found.position as u64,
            first: found.first,
            second: found.second,
        }),
        scan: Scan {
            from: found.position + 1,
            ..scan
        },
    }
}
