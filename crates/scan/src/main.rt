// The program `scan`: every position of the capture on standard input at which the marker of its first argument is met, within the tolerance of its second and
// with frames of as many bits as its third says. With two arguments more, the positions of one segment: standard input is the capture from the byte of the
// fourth argument on, and the positions are those that begin in as many bytes as the fifth says.
#![tactic(auto)]

ghost use Rattle.std.specs.Prelude.{◌≤◌, length, IfSome};

use capture_scanning::Scan;
use program_system::{argument, complain, has_argument, tell_status};
use standard_refusal::{Refusal, code};
use std::io::Read;
use std::rt::Env;

// How many bytes a capture may have.
const CAPTURE: u64 = 1152921504606846976;

#[derive(Clone, Copy)]
struct Task {
    marker: u32,
    tolerance: u32,
    length: u32,
    // The segment's first byte in the capture, and how many it has.
    from: u64,
    count: u64,
}

// What is looked for: a task, and the columns of its marker and tolerance.
#[derive(Clone, Copy)]
struct Search<'a> {
    task: Task,
    table: &'a [u64; 1280],
}

// How far the scan has come, and whether anything was met.
#[derive(Clone, Copy)]
struct Course {
    scan: Scan,
    met: bool,
}

// Writes lines; none where that fails, which is said by then.
fn flush(rt: &HostRuntime, lines: &[u8]) -> Option<()> {
    match rt.write_all(lines) {
        Ok(()) => Some(()),
        Err(error) => {
            complain(rt, "scan: standard output", error);
            None
        }
    }
}

fn report(rt: &HostRuntime, ending: Result<(), Refusal>) {
    let mut text = [0u8; 32];
    let end = program_scan::last_line(code(ending), &mut text);
    if let Err(error) = rt.write_all(&text[..end]) {
        complain(rt, "scan: standard output", error);
        return;
    }
    tell_status(rt, ending.is_ok());
}

// An argument of Linux has fewer than 131,072 bytes, so each comes whole, whatever zeros it begins with. Apart, so that the room for one is taken when it is read,
// and not that for all four beside the capture's window.
#[inline(never)]
fn decimal_at(env: &impl Env, i: usize) -> Option<u32> {
    let mut text = [0u8; 131072];
    let n = argument(env, i, &mut text);
    program_arguments::decimal(&text[..n])
}

fn marker_at(env: &impl Env, i: usize) -> Option<u32> {
    let mut text = [0u8; 8];
    let n = argument(env, i, &mut text);
    program_arguments::eight_hex_digits(&text[..n])
}

// Decimal digits alone, at least one, of a number of bytes that a capture may have.
fn bytes_in(text: &[u8]) -> Option<u64> {
    if text.is_empty() {
        return None;
    }
    let mut value: u64 = 0;
    for c in text {
        if !c.is_ascii_digit() {
            return None;
        }
        value = value * 10 + u64::from(*c - b'0');
        if value > CAPTURE {
            return None;
        }
    }
    Some(value)
}

#[inline(never)]
fn bytes_at(env: &impl Env, i: usize) -> Option<u64> {
    let mut text = [0u8; 131072];
    let n = argument(env, i, &mut text);
    bytes_in(&text[..n])
}

// How many bytes a capture may have from one on.
fn rest(from: u64) -> u64 {
    CAPTURE.saturating_sub(from)
}

// A whole capture, or a segment of one.
fn read_segment(env: &impl Env) -> Option<(u64, u64)> {
    if !has_argument(env, 4) {
        return Some((0, CAPTURE));
    }
    if !has_argument(env, 5) || has_argument(env, 6) {
        return None;
    }
    let from = bytes_at(env, 4)?;
    let count = bytes_at(env, 5)?;
    Some((from, count.min(rest(from))))
}

fn read_arguments(env: &impl Env) -> Option<Task> {
    let marker = marker_at(env, 1)?;
    let tolerance = decimal_at(env, 2)?;
    let length = decimal_at(env, 3)?;
    let (from, count) = read_segment(env)?;
    Some(Task {
        marker,
        tolerance,
        length,
        from,
        count,
    })
}

// Writes the lines of what is met in what has come, a block at a time. A window of so many bits has fewer meetings than bits.
fn put_meetings(
    rt: &HostRuntime,
    window: &[u8],
    out: &mut [u8],
    course: Course,
    search: Search<'_>,
) -> Option<Course> {
    let task = search.task;
    let mut course = course;
    for _ in 0..1114112usize {
        let put = program_scan::put_lines(
            out,
            window,
            course.scan,
            search.table,
            task.marker,
            task.tolerance,
            task.length,
            task.from,
            task.count,
        );
        flush(rt, &out[..put.used])?;
        course = Course {
            scan: put.scan,
            met: course.met | (put.used > 0),
        };
        if put.done {
            break;
        }
    }
    Some(course)
}

// How many bytes went on, and how far the scan then has come.
#[derive(Clone, Copy)]
struct Step {
    bytes: usize,
    course: Course,
}

// Hands over as much of a piece as is taken, and puts the lines of what it brought.
fn take(
    rt: &HostRuntime,
    window: &mut [u8],
    piece: &[u8],
    out: &mut [u8],
    course: Course,
    search: Search<'_>,
) -> Option<Step>
    ensures { IfSome result (λ step. step.bytes ≤ length piece.now) }
{
    let fed = capture_scanning::feed(window, course.scan, piece);
    let bytes = fed.used;
    let reached = Course {
        scan: fed.scan,
        met: course.met,
    };
    let course = put_meetings(rt, window, out, reached, search)?;
    Some(Step { bytes, course })
}

// Hands a piece on, as far as each call took it; none where a call takes nothing.
fn hand_on(
    rt: &HostRuntime,
    window: &mut [u8],
    piece: &[u8],
    out: &mut [u8],
    course: Course,
    search: Search<'_>,
) -> Option<Course> {
    let mut course = course;
    let mut rest = piece;
    while !rest.is_empty() {
        let step = take(rt, window, rest, out, course, search)?;
        if step.bytes == 0 {
            return None;
        }
        course = step.course;
        rest = &rest[step.bytes..];
    }
    Some(course)
}

// One read, which takes what there is, of at most as many bytes as are wanted; none where it fails, which is said by then.
fn read_once(rt: &HostRuntime, piece: &mut [u8], wanted: usize) -> Option<usize>
    ensures { IfSome result (λ bytes. (bytes ≤ length piece.new) × (bytes ≤ wanted)) }
{
    let most = wanted.min(piece.len());
    match rt.stdin().read(&mut piece[..most]) {
        Ok(bytes) => Some(bytes),
        Err(error) => {
            complain(rt, "scan: standard input", error);
            None
        }
    }
}

// How many bytes decide: those of the segment and what a frame and a marker take beyond them.
fn deciding(task: Task) -> usize {
    let tail = (task.length as u64 + 38) / 8;
    let count = task.count.min(CAPTURE);
    (count + tail).min(rest(task.from)) as usize
}

// Hands on what the next read brings, 0 bytes at the end. What was found is written by then, since a read may wait.
fn turn(
    rt: &HostRuntime,
    window: &mut [u8],
    piece: &mut [u8],
    out: &mut [u8],
    course: Course,
    search: Search<'_>,
    left: usize,
) -> Option<Step>
    ensures { IfSome result (λ step. step.bytes ≤ left) }
{
    let bytes = read_once(rt, piece, left)?;
    let course = hand_on(rt, window, &piece[..bytes], out, course, search)?;
    Some(Step { bytes, course })
}

// Reads what decides, and no more; none where a read or a write fails.
fn run(
    rt: &HostRuntime,
    window: &mut [u8],
    piece: &mut [u8],
    out: &mut [u8],
    search: Search<'_>,
) -> Option<Course> {
    let mut course = Course {
        scan: capture_scanning::start(),
        met: false,
    };
    let mut left = deciding(search.task);
    while left > 0 {
        let step = turn(rt, window, piece, out, course, search, left)?;
        course = step.course;
        if step.bytes == 0 {
            break;
        }
        left -= step.bytes;
    }
    Some(course)
}

// What the last line says. A segment that begins inside the capture and has no position is not a capture that is too short.
fn last(course: Course, task: Task) -> Result<(), Refusal> {
    let scan = course.scan;
    let before = scan.before;
    let filled = scan.filled as u64;
    let from = task.from;
    let ending = capture_scanning::end(scan, task.tolerance, task.length, course.met);
    let short = matches!(ending, Err(Refusal::Buffer));
    if !short || before > CAPTURE || filled > CAPTURE || from > CAPTURE {
        return ending;
    }
    if from + before + filled < (task.length as u64 + 39) / 8 {
        Err(Refusal::Buffer)
    } else {
        Err(Refusal::Nowhere)
    }
}

fn main(rt: HostRuntime) {
    let Some(task) = read_arguments(&rt) else {
        let _ = eprintln!(rt;
            "scan: expected a marker of eight hex digits, a tolerance and a frame length in decimal, both below 4294967296; for a segment also its first byte and how many it has"
        );
        return;
    };
    if let Err(refusal) = finder_windows::barred(task.tolerance, task.length) {
        report(&rt, Err(refusal));
        return;
    }
    let table = finder_columns::columns(task.marker, task.tolerance);
    let search = Search {
        task,
        table: &table,
    };
    let mut window = [0u8; 139264];
    let mut piece = [0u8; 65536];
    let mut out = [0u8; 65536];
    if let Some(course) = run(&rt, &mut window, &mut piece, &mut out, search) {
        report(&rt, last(course, task));
    }
}
