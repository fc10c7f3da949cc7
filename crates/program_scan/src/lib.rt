// The text of the program `scan` (specs/Lines.antt): the lines of meetings put into a lent block, and the last line.
#![tactic(auto)]

ghost use Rattle.std.specs.Prelude.{ℕ, ◌+◌, ◌*◌, ◌-◌, ◌/◌, ◌%◌, ◌^◌, ◌<◌, ◌≤◌, min, ◌≡◌, true, false, List, [], ◌∷◌, ◌++◌, length, take, drop, get_or};
ghost use Rattle.std.proofs.Math.Seq.{paste};
ghost use Rattle.program_digits.specs.Digits.{digits};
ghost use Rattle.program_digits.specs.Put.{Wrote, Filled};
ghost use Rattle.capture_meetings.specs.Meetings.{met, all_from, shift};
ghost use Rattle.finder_windows.specs.Definition.{bits, marker_bits};
ghost use Rattle.program_scan.specs.Lines.{line, lines, last_line};
ghost use Rattle.program_scan.specs.Pen.{little, Ready, told, tolds, all_told, Plain, coded, Within, Sought, PutTo};
ghost use Rattle.finder_columns.specs.Columns.{Columns};
ghost use Rattle.capture_history.specs.State.{Stands};
ghost use Rattle.program_scan.specs.Whole.{Lined};

use capture_history::{CAPTURE, Scan};
use finder::Found;

// More room than the lines of 256 positions may take, and one line.
const MANY: usize = 11265;

const ONE: usize = 45;

// "0 distan" as a word, its first character lowest.
const TAIL: u64 = 7953766455951237168;

// "ces "
const ON: u64 = 544433507;

// "0 0\n"
const DISTANCES: u64 = 170926128;

// What the code of a position has more where it is not met.
const FAR: u32 = 16777216;

// Where the next line goes, how many digits its position has, and its last digit with what follows that.
#[derive(Drop)]
struct Pen {
    used: usize,
    digits: usize,
    tail: u64,
}

fn copy(block: &mut [u8], at: usize, text: &[u8], from: usize, count: usize)
    requires count_in_bounds { at + count ≤ length block.old }
    requires text_in_bounds { from + count ≤ length text.now }
    ensures { block.new ≡ paste block.old at (drop from text.now) count }
{
    for i in 0..count {
        block[at + i] = text[from + i];
    }
}

fn put_word(block: &mut [u8], at: usize, word: u64, count: usize)
    requires { at + count ≤ length block.old }
    ensures { block.new ≡ paste block.old at (little count word) count }
{
    let mut rest = word;
    for i in 0..count {
        block[at + i] = (rest % 256) as u8;
        rest /= 256;
    }
}

// Puts a line by moves of constant length: 24 bytes of the text and the 8 before the last digit overlap, and what they bring too much is written over.
fn put_line(block: &mut [u8], pen: Pen, text: &[u8], code: u32) -> usize
    requires digits_bound { pen.digits ≤ 20 }
    requires in_bounds { 48 ≤ length text.now }
    requires used_in_bounds { pen.used + 44 ≤ length block.old }
    requires code_bound { code < 16777216 }
    ensures line_put { (N d e : ℕ) → Ready text.now pen.digits pen.tail N → d < 10 → e < 10 → code ≡ d + 65536 * e → Wrote block.old pen.used (line (met N d e)) block.new result }
    ensures upper_bound { result ≤ pen.used + 44 }
{
    let at = pen.used;
    let digits = pen.digits;
    copy(block, at, text, 0, 24);
    copy(block, at + digits, text, digits, 8);
    put_word(block, at + 8 + digits, pen.tail, 8);
    put_word(block, at + 16 + digits, ON, 4);
    put_word(block, at + 20 + digits, DISTANCES + code as u64, 4);
    at + 24 + digits
}

// Adds one to a number that ends before a place and begins at the tenth; false where it was all nines.
fn carry(text: &mut [u8], end: usize) -> bool
    requires { end ≤ length text.old }
    ensures text_unchanged { drop end text.new ≡ drop end text.old }
    ensures counted_on { (pre : List ℕ) (m q : ℕ) → length pre ≡ 9 → q < 10 ^ m → take end text.old ≡ pre ++ digits 10 m q → result ≡ true → (q + 1 < 10 ^ m) × (take end text.new ≡ pre ++ digits 10 m (q + 1)) }
{
    if end < 10 {
        return false;
    }
    let digit = text[end - 1];
    if digit < b'9' {
        text[end - 1] = digit + 1;
        return true;
    }
    text[end - 1] = b'0';
    carry(text, end - 1)
}

// Spells a position anew, and answers how many digits it has.
fn lay(text: &mut [u8], number: u64) -> usize
    requires { 48 ≤ length text.old }
    ensures spelt { (w : ℕ) → w ≡ 7953766455951237168 + number % 10 → Ready text.new result w number }
    ensures upper_bound { result ≤ 20 }
{
    let end = program_digits::put_number(text, 0, b"position ", number);
    end - 9
}

// Goes on to the next position.
fn step(text: &mut [u8], pen: Pen, number: u64) -> Pen
    requires ready { Ready text.old pen.digits pen.tail number }
    requires number_bound { number < 2 ^ 63 }
    ensures next_ready { Ready text.new result.digits result.tail (number + 1) }
    ensures used_value { result.used ≡ pen.used }
{
    let used = pen.used;
    let digits = pen.digits;
    let tail = pen.tail;
    if tail % 256 != 57 {
        return Pen {
            used,
            digits,
            tail: tail + 1,
        };
    }
    if carry(text, 8 + digits) {
        return Pen {
            used,
            digits,
            tail: TAIL,
        };
    }
    let digits = lay(text, number + 1);
    Pen {
        used,
        digits,
        tail: TAIL,
    }
}

// Puts the line of a position that is met, and goes on to the next.
fn put_position(block: &mut [u8], text: &mut [u8], pen: Pen, code: u32, number: u64) -> Pen
    requires ready { Ready text.old pen.digits pen.tail number }
    requires number_bound { number < 2 ^ 63 }
    requires used_in_bounds { pen.used + 44 ≤ length block.old }
    requires plain { Plain code }
    ensures next_ready { Ready text.new result.digits result.tail (number + 1) }
    ensures wrote { Wrote block.old pen.used (lines (told number code)) block.new result.used }
    ensures used_bound { result.used ≤ pen.used + 44 }
{
    let mut used = pen.used;
    let digits = pen.digits;
    let tail = pen.tail;
    if code < FAR {
        used = put_line(block, pen, text, code);
    }
    step(text, Pen { used, digits, tail }, number)
}

// The eight positions of a byte.
fn put_byte(
    block: &mut [u8],
    text: &mut [u8],
    pen: Pen,
    codes: &[u32],
    from: usize,
    number: u64,
) -> Pen
    requires ready { Ready text.old pen.digits pen.tail number }
    requires number_bound { number + 8 < 2 ^ 63 }
    requires used_in_bounds { pen.used + 352 ≤ length block.old }
    requires from_bound { from < 32 }
    requires codes_len { length codes.now ≡ 256 }
    requires plain_codes { (i : ℕ) → i < 256 → Plain (get_or codes.now i 0) }
    ensures next_ready { Ready text.new result.digits result.tail (number + 8) }
    ensures wrote { Wrote block.old pen.used (lines (tolds codes.now from number 8)) block.new result.used }
    ensures used_bound { result.used ≤ pen.used + 352 }
{
    let mut pen = pen;
    let mut i = from;
    while i < 256 {
        pen = put_position(block, text, pen, codes[i], number + (i / 32) as u64);
        i += 32;
    }
    pen
}

// 256 positions.
fn put_many(block: &mut [u8], text: &mut [u8], pen: Pen, codes: &[u32], number: u64) -> Pen
    requires ready { Ready text.old pen.digits pen.tail number }
    requires number_bound { number + 256 < 2 ^ 63 }
    requires used_in_bounds { pen.used + 11264 ≤ length block.old }
    requires codes_len { length codes.now ≡ 256 }
    requires plain_codes { (i : ℕ) → i < 256 → Plain (get_or codes.now i 0) }
    ensures next_ready { Ready text.new result.digits result.tail (number + 256) }
    ensures wrote { Wrote block.old pen.used (lines (all_told codes.now number 32)) block.new result.used }
    ensures used_bound { result.used ≤ pen.used + 11264 }
{
    let mut pen = pen;
    for j in 0..32 {
        pen = put_byte(block, text, pen, codes, j, number + 8 * j as u64);
    }
    pen
}

// What the two distances of a position say of it.
fn code(first: u32, second: u32, tolerance: u32) -> u32
    requires first_bound { first ≤ 32 }
    requires second_bound { second ≤ 32 }
    ensures { result ≡ coded first second tolerance }
{
    let more = if (first <= tolerance) & (second <= tolerance) {
        0
    } else {
        FAR
    };
    first + 65536 * second + more
}

// Puts a code for each position in place of its second distance.
fn judge(first: &[u32], second: &mut [u32], tolerance: u32)
    requires first_len { length first.now ≡ 256 }
    requires second_len { length second.old ≡ 256 }
    requires at_most_32 { (i : ℕ) → i < 256 → (get_or first.now i 0 ≤ 32) × (get_or second.old i 0 ≤ 32) }
    ensures { (i : ℕ) → i < 256 → get_or second.new i 0 ≡ coded (get_or first.now i 0) (get_or second.old i 0) tolerance }
{
    for i in 0..256 {
        second[i] = code(first[i], second[i], tolerance);
    }
}

// The text and the pen for a position's line.
fn begin(text: &mut [u8], used: usize, number: u64) -> Pen
    requires { 48 ≤ length text.old }
    ensures ready { Ready text.new result.digits result.tail number }
    ensures used_value { result.used ≡ used }
{
    let digits = lay(text, number);
    Pen {
        used,
        digits,
        tail: TAIL + number % 10,
    }
}

// The lines of the meetings among 256 positions, all of whose windows are looked at.
fn many(
    block: &mut [u8],
    text: &mut [u8],
    pen: Pen,
    first: &mut [u32; 256],
    second: &mut [u32; 256],
    buffer: &[u8],
    at: usize,
    marker: u32,
    tolerance: u32,
    frame: usize,
    number: u64,
) -> Pen
    requires ready { Ready text.old pen.digits pen.tail number }
    requires number_bound { number + 256 < 2 ^ 63 }
    requires used_in_bounds { pen.used + 11264 ≤ length block.old }
    requires distances_len { (length first.old ≡ 256) × (length second.old ≡ 256) }
    requires frame_bound { at + frame + 296 ≤ 8 * length buffer.now }
    requires buffer_bound { 8 * length buffer.now < 2 ^ 64 }
    requires tolerance_bound { tolerance ≤ 8 }
    ensures next_ready { Ready text.new result.digits result.tail (number + 256) }
    ensures meetings_put { (k : ℕ) → k + at ≡ number → Wrote block.old pen.used (lines (shift k (all_from (bits buffer.now) (marker_bits marker) tolerance frame 256 at))) block.new result.used }
    ensures used_bound { result.used ≤ pen.used + 11264 }
    ensures distances_len_kept { (length first.new ≡ 256) × (length second.new ≡ 256) }
{
    finder_distances::distances(buffer, at, marker, first);
    finder_distances::distances(buffer, at + frame, marker, second);
    judge(first, second, tolerance);
    put_many(block, text, pen, second, number)
}

// The line of one position.
fn one(block: &mut [u8], text: &mut [u8], used: usize, number: u64, first: u32, second: u32) -> Pen
    requires in_bounds { 48 ≤ length text.old }
    requires number_bound { number < 2 ^ 63 }
    requires used_in_bounds { used + 44 ≤ length block.old }
    requires first_bound { (first < 10) × (second < 10) }
    ensures ready { Ready text.new result.digits result.tail (number + 1) }
    ensures wrote { Wrote block.old used (lines (met number first second ∷ [])) block.new result.used }
    ensures used_bound { result.used ≤ used + 44 }
{
    let pen = begin(text, used, number);
    let used = put_line(block, pen, text, first + 65536 * second);
    begin(text, used, number + 1)
}

// How far lines were put, and how many bytes they have.
#[derive(Drop)]
struct Reached {
    used: usize,
    at: usize,
}

// Whether no more is put into a block that has so much room left.
fn is_full(room: usize, used: usize) -> bool
    ensures room_bound { result ≡ true → (room < 11265) × (used ≡ 0 → room < 45) }
    ensures le_room { result ≡ false → 45 ≤ room }
{
    if room < ONE {
        return true;
    }
    if used == 0 {
        return false;
    }
    room < MANY
}

// The next meeting below an end, by the finder.
fn sought<'a>(
    buffer: &'a [u8],
    at: usize,
    end: usize,
    table: &'a [u64; 1280],
    marker: u32,
    tolerance: u32,
    frame: u32,
) -> Option<Found>
    requires at_le_end { at ≤ end }
    requires le_frame { 64 ≤ frame }
    requires frame_bound { end + frame + 31 ≤ 8 * length buffer.now }
    requires buffer_len_bound { length buffer.now ≤ 1152921504606846976 }
    requires tolerance_bound { tolerance ≤ 8 }
    ensures within { Within at end result }
    ensures sought { Columns marker tolerance table.now → Sought (bits buffer.now) (marker_bits marker) tolerance frame at end result }
{
    let found = finder::next(buffer, at, table, marker, tolerance, frame)?;
    if found.position < at {
        return None;
    }
    if found.position >= end {
        return None;
    }
    if found.first > 8 {
        return None;
    }
    if found.second > 8 {
        return None;
    }
    Some(found)
}

// Puts the lines of the meetings from a position on, below an end. Where one follows another closely, 256 positions are looked at at once, as long as any is
// met; else the finder passes over what is far.
fn walk<'a>(
    block: &mut [u8],
    text: &mut [u8],
    pen: Pen,
    first: &mut [u32; 256],
    second: &mut [u32; 256],
    buffer: &'a [u8],
    from: usize,
    end: usize,
    table: &'a [u64; 1280],
    marker: u32,
    tolerance: u32,
    frame: u32,
    base: u64,
) -> Reached
    requires from_le_end { from ≤ end }
    requires le_frame { 64 ≤ frame }
    requires frame_bound { end + frame + 31 ≤ 8 * length buffer.now }
    requires buffer_bound { base + 8 * length buffer.now ≤ 2 ^ 63 }
    requires tolerance_bound { tolerance ≤ 8 }
    requires text_len { length text.old ≡ 48 }
    requires distances_len { (length first.old ≡ 256) × (length second.old ≡ 256) }
    requires used_value { pen.used ≡ 0 }
    ensures from_le_at { (from ≤ result.at) × (result.at ≤ end) × (result.used ≤ length block.old) }
    ensures put_to { Columns marker tolerance table.now → PutTo block.old buffer.now from end marker tolerance frame base block.new result.used result.at }
{
    let mut pen = pen;
    let mut at = from;
    let mut dense = false;
    while at < end {
        let used = pen.used;
        let room = block.len() - used;
        if is_full(room, used) {
            return Reached { used, at };
        }
        if dense & (room >= MANY) & (end - at >= 288) {
            pen = many(
                block,
                text,
                pen,
                first,
                second,
                buffer,
                at,
                marker,
                tolerance,
                frame as usize,
                base + at as u64,
            );
            dense = pen.used > used;
            at += 256;
        } else {
            let Some(found) = sought(buffer, at, end, table, marker, tolerance, frame) else {
                return Reached { used, at: end };
            };
            let p = found.position;
            pen = one(
                block,
                text,
                used,
                base + p as u64,
                found.first,
                found.second,
            );
            dense = p - at < 32;
            at = p + 1;
        }
    }
    Reached {
        used: pen.used,
        at: end,
    }
}

// The same from the start of a block.
fn fill<'a>(
    block: &mut [u8],
    buffer: &'a [u8],
    from: usize,
    end: usize,
    table: &'a [u64; 1280],
    marker: u32,
    tolerance: u32,
    frame: u32,
    base: u64,
) -> Reached
    requires from_le_end { from ≤ end }
    requires le_frame { 64 ≤ frame }
    requires frame_bound { end + frame + 31 ≤ 8 * length buffer.now }
    requires buffer_bound { base + 8 * length buffer.now ≤ 2 ^ 63 }
    requires tolerance_bound { tolerance ≤ 8 }
    ensures from_le_at { (from ≤ result.at) × (result.at ≤ end) × (result.used ≤ length block.old) }
    ensures put_to { Columns marker tolerance table.now → PutTo block.old buffer.now from end marker tolerance frame base block.new result.used result.at }
{
    let mut text = [0u8; 48];
    let mut first = [0u32; 256];
    let mut second = [0u32; 256];
    let pen = Pen {
        used: 0,
        digits: 0,
        tail: 0,
    };
    walk(
        block,
        &mut text,
        pen,
        &mut first,
        &mut second,
        buffer,
        from,
        end,
        table,
        marker,
        tolerance,
        frame,
        base,
    )
}

// How far lines were put: how many bytes they have, whether nothing more is met in what has come, and the scan after them.
#[derive(Clone, Copy)]
pub struct Put {
    pub used: usize,
    pub done: bool,
    pub scan: Scan,
}

// The end of a segment in the window, in bits: no position beyond it is told.
fn limit(positions: usize, before: u64, count: u64) -> usize
    requires { positions < 2 ^ 63 }
    ensures { result ≡ min positions (8 * (count - before)) }
{
    if count < before {
        return 0;
    }
    let own = count - before;
    if own >= CAPTURE {
        return positions;
    }
    let bits = 8 * own as usize;
    if bits < positions { bits } else { positions }
}

// Whether no window of a frame and a marker is in the window that is lent, or what is asked for is no scan of a capture.
fn is_shut(room: usize, scan: Scan, tolerance: u32, frame: u32, from: u64) -> bool
    ensures filled_bound { result ≡ true → 64 ≤ frame → tolerance ≤ 8 → scan.filled ≤ room → from + (scan.before + scan.filled) ≤ 1152921504606846976 → 8 * scan.filled < frame + 31 }
    ensures le_frame { result ≡ false → (64 ≤ frame) × (tolerance ≤ 8) × (scan.filled ≤ room) × (from + (scan.before + scan.filled) ≤ 1152921504606846976) × (frame + 31 ≤ 8 * scan.filled) }
{
    let before = scan.before;
    let filled = scan.filled;
    if frame < 64 {
        return true;
    }
    if tolerance > 8 {
        return true;
    }
    if room < filled {
        return true;
    }
    if from > CAPTURE {
        return true;
    }
    if before > CAPTURE - from {
        return true;
    }
    if filled as u64 > CAPTURE - from - before {
        return true;
    }
    8 * filled < frame as usize + 31
}

// The scan at another bit of the window.
fn put_to(used: usize, done: bool, scan: Scan, from: usize) -> Put
    ensures { result ≡ record { used = used; done = done; scan = record { before = scan.before; filled = scan.filled; from = from } } }
{
    Put {
        used,
        done,
        scan: Scan {
            before: scan.before,
            filled: scan.filled,
            from,
        },
    }
}

// Puts the lines of the next meetings of what has come into a block, from its start on: those that begin in a segment's `count` bytes, counted from the start
// of the capture whose first `from` bytes lie before the segment.
pub fn put_lines<'a>(
    block: &mut [u8],
    window: &'a [u8],
    scan: Scan,
    table: &'a [u64; 1280],
    marker: u32,
    tolerance: u32,
    frame: u32,
    from: u64,
    count: u64,
) -> Put
    ensures used_in_bounds { result.used ≤ length block.old }
    ensures lined { (X : List ℕ) → Stands frame X window.now scan → tolerance ≤ 8 → Columns marker tolerance table.now → from + length X ≤ 1152921504606846976 → Lined marker tolerance frame from count X window.now scan block.old block.new result }
{
    let before = scan.before;
    let filled = scan.filled;
    let start = scan.from;
    if is_shut(window.len(), scan, tolerance, frame, from) {
        return put_to(0, true, scan, start);
    }
    let positions = 8 * filled - (frame as usize + 31);
    let end = limit(positions, before, count);
    if end <= start {
        return put_to(0, true, scan, positions);
    }
    let put = fill(
        block,
        &window[..filled],
        start,
        end,
        table,
        marker,
        tolerance,
        frame,
        8 * (from + before),
    );
    let used = put.used;
    let at = put.at;
    if at == end {
        return put_to(used, true, scan, positions);
    }
    put_to(used, false, scan, at)
}

// The last line: what the scan ends with.
pub fn last_line(refused: u8, out: &mut [u8; 32]) -> usize
    ensures { Filled out.old (last_line refused) out.new result }
{
    program_digits::put_count(out, 0, b"refused ", refused as u64)
}
