// The marker finder (document 02, order 5): the smallest bit position at which a marker stands and stands again one frame later. Every distance that decides or
// is told is the count of ones of an exclusive-or of two words; columns only pass over what is far.
#![tactic(auto)]

ghost use Rattle.std.specs.Prelude.{ℕ, suc, ◌+◌, ◌*◌, ◌-◌, ◌<◌, ◌≤◌, ◌≡◌, false, length, take, drop};
ghost use Rattle.std.proofs.Math.ListN as List;
ghost use Rattle.finder_windows.specs.Definition.{binary, bits, marker_bits, window, distance, first_from, find};
ghost use Rattle.finder_windows.specs.Answer.{answer_of, met_or_none};
ghost use Rattle.finder_columns.specs.Columns.{Columns};
ghost use Rattle.finder.specs.Search.{first_among};

mod sought;

pub use finder_windows::Found;
use sought::Search;
use standard_refusal::Refusal;

// How many positions are searched by words before columns are made, which costs as much as 700 of them: a short buffer, or a match that stands early, waits for
// none.
const EARLY: usize = 9216;

// How many bytes a buffer may have, so that no position passes the end of a number.
const LONGEST: usize = 1152921504606846976;

// The number of the 64 bits from a byte on.
fn word_at(buffer: &[u8], at: usize) -> u64
    requires { at + 8 ≤ length buffer.now }
    ensures { binary 64 result ≡ bits (take 8 (drop at buffer.now)) }
{
    let mut word: u64 = 0;
    for i in 0..8 {
        word = word * 256 + finder_windows::wide(buffer[at + i]);
    }
    word
}

// The distance of the 32 bits that stand k places below the top of a word.
fn apart(word: u64, k: usize, marker: u32) -> u32
    requires { k ≤ 32 }
    ensures { result ≡ distance (window (binary 64 word) k) (marker_bits marker) }
{
    let seen = ((word >> (32 - k)) % 4294967296) as u32;
    finder_windows::apart(seen, marker)
}

impl<'a> Search<'a> {
    // Whether any of the first 32 windows of a word is within the tolerance. A turn decides nothing, so the compiler takes four at once. Only `false` is a
    // promise: a word that is looked at for nothing costs time and no answer.
    fn near(&self, word: u64) -> bool
        ensures { result ≡ false → (k : ℕ) → k < 32 → self.now.tolerance < distance (window (binary 64 word) k) (marker_bits self.now.marker) }
    {
        let mut any = false;
        for k in 0..32 {
            any = any | (apart(word, k, self.marker) <= self.tolerance);
        }
        any
    }

    // The search among the first positions of a byte and the next, one by one, but for some that are skipped. The windows a frame later stand in one word, too:
    // the one that ends where the last of them ends.
    fn among(&self, at: usize, skip: usize, count: usize) -> Option<Found>
        requires skip_le_count { skip ≤ count }
        requires count_bound { count ≤ 16 }
        requires inside { 8 * at + count + self.now.frame + 31 ≤ 8 * length self.now.buffer.now }
        ensures { met_or_none result ≡ first_among self.now (count - skip) (8 * at + skip) }
    {
        let here = word_at(self.buffer, at);
        let end = (8 * at + count + self.frame + 30) / 8;
        let later = word_at(self.buffer, end - 7);
        let start = 8 * at + self.frame + 56 - 8 * end;
        for k in skip..count {
            let first = apart(here, k, self.marker);
            if first <= self.tolerance {
                let second = apart(later, start + k, self.marker);
                let found = finder_windows::judged(8 * at + k, first, second, self.tolerance);
                if found.is_some() {
                    return found;
                }
            }
        }
        None
    }

    // The search among positions from a byte on, sixteen at a time.
    fn through(&self, from: usize, count: usize) -> Option<Found>
        requires { 8 * from + count + self.now.frame + 31 ≤ 8 * length self.now.buffer.now }
        ensures { met_or_none result ≡ first_among self.now count (8 * from) }
    {
        let mut at = from;
        let mut left = count;
        while left > 16 {
            let found = self.among(at, 0, 16);
            if found.is_some() {
                return found;
            }
            at += 2;
            left -= 16;
        }
        self.among(at, 0, left)
    }

    // The search among the first positions of a buffer. A word with no window within the tolerance is passed over.
    fn by_words(&self, count: usize) -> Option<Found>
        requires { count + self.now.frame + 31 ≤ 8 * length self.now.buffer.now }
        ensures { met_or_none result ≡ first_among self.now count 0 }
    {
        let mut at = 0;
        let mut left = count;
        while left >= 32 {
            if self.near(word_at(self.buffer, at)) {
                let found = self.through(at, 32);
                if found.is_some() {
                    return found;
                }
            }
            at += 4;
            left -= 32;
        }
        self.through(at, left)
    }

    // The search among positions from a byte on. A byte with no window within the tolerance is passed over. The columns go forward: a table that is none ends
    // it.
    fn by_columns(&self, from: usize, count: usize, table: &[u64; 1280]) -> Option<Found>
        requires { 8 * from + count + self.now.frame + 31 ≤ 8 * length self.now.buffer.now }
        ensures { Columns self.now.marker self.now.tolerance table.now → met_or_none result ≡ first_among self.now count (8 * from) }
    {
        let end = from + count / 8;
        let mut at = finder_passing::next(self.buffer, from, end, table);
        while at < end {
            let found = self.among(at, 0, 8);
            if found.is_some() {
                return found;
            }
            let later = finder_passing::next(self.buffer, at + 1, end, table);
            if later <= at {
                return None;
            }
            at = later;
        }
        self.among(end, 0, count % 8)
    }

    // The one position of a buffer that has no more bits than a frame and a marker.
    fn only(&self) -> Option<Found>
        requires { 8 * length self.now.buffer.now ≡ self.now.frame + 32 }
        ensures { met_or_none result ≡ first_among self.now 1 0 }
    {
        let first = apart(word_at(self.buffer, 0), 0, self.marker);
        if first > self.tolerance {
            return None;
        }
        let last = self.buffer.len() - 8;
        let second = apart(word_at(self.buffer, last), 32, self.marker);
        finder_windows::judged(0, first, second, self.tolerance)
    }

    // The search among all positions whose two windows are inside the buffer.
    fn all(&self) -> Option<Found>
        requires { self.now.frame + 32 ≤ 8 * length self.now.buffer.now }
        ensures { met_or_none result ≡ first_among self.now (suc (8 * length self.now.buffer.now - (self.now.frame + 32))) 0 }
    {
        let positions = 8 * self.buffer.len() - self.frame - 31;
        if positions == 1 {
            return self.only();
        }
        let words = positions.min(EARLY);
        let found = self.by_words(words);
        if found.is_some() | (words == positions) {
            return found;
        }
        self.by_columns(
            words / 8,
            positions - words,
            &finder_columns::columns(self.marker, self.tolerance),
        )
    }
}

// The answer to any buffer, marker, tolerance and length of frame.
pub fn find(buffer: &[u8], marker: u32, tolerance: u32, length: u32) -> Result<Found, Refusal>
    ensures { answer_of result ≡ find buffer.now marker tolerance length }
{
    finder_windows::refusal(buffer, tolerance, length)?;
    let search = Search {
        buffer,
        marker,
        tolerance,
        frame: length as usize,
    };
    search.all().ok_or(Refusal::Nowhere)
}

// What stands first among the positions from one on, for a search that goes on in a buffer of any length, with columns that the caller keeps.
pub fn next(
    buffer: &[u8],
    from: usize,
    table: &[u64; 1280],
    marker: u32,
    tolerance: u32,
    length: u32,
) -> Option<Found>
    ensures { 64 ≤ length → List.length buffer.now ≤ 1152921504606846976 → from + (length + 31) ≤ 8 * List.length buffer.now → Columns marker tolerance table.now → met_or_none result ≡ first_from (bits buffer.now) (marker_bits marker) tolerance length (8 * List.length buffer.now - (length + 31) - from) from }
{
    if (length < 64) | (buffer.len() > LONGEST) {
        return None;
    }
    let search = Search {
        buffer,
        marker,
        tolerance,
        frame: length as usize,
    };
    let positions = (8 * buffer.len()).checked_sub(search.frame + 31)?;
    if positions < from {
        return None;
    }
    let at = from / 8;
    let left = positions - 8 * at;
    if left < 8 {
        return search.among(at, from % 8, left);
    }
    let found = search.among(at, from % 8, 8);
    if found.is_some() {
        return found;
    }
    search.by_columns(at + 1, left - 8, table)
}
