// The answer to a request: the family of its function, by the function's number (its line in docs/functions.tsv, the first after the heading being 0). A number and
// no enum: the request has it so, and compare/ counts the Rust's functions so.
ghost use Rattle.std.specs.Prelude.{◌≤◌};

use crate::answer::Answer;
use crate::layout::*;
use crate::request::Request;
use crate::{
    arithmetic, bitwise, compare, convert, float, lanes, memory, packed, rearrange, reduce,
    relaxed, request, shift, splat, widen,
};

// A packed form has its function's number plus this.
const PACKED: u16 = 512;

// Functions without memory, lane by lane.
fn plain(r: Request, indices: [u8; 16]) -> Answer {
    let f = r.function;
    let a = r.a;
    let b = r.b;
    let c = r.c;
    match f {
        0..=5 => splat::splat(f, r.scalar),
        6..=13 => lanes::extract(f, a, r.lane),
        14..=19 => lanes::replace(f, a, r.lane, r.scalar),
        20..=21 => rearrange::rearrange(f, a, b, indices),
        22..=33 => arithmetic::sum_or_product(f, a, b),
        34..=42 => arithmetic::saturating(f, a, b),
        43..=56 => arithmetic::least_or_greatest(f, a, b),
        57..=60 | 85 | 215 => bitwise::bitwise(f, a, b, c),
        61..=64 | 69..=76 => float::arithmetic(f, a, b),
        65..=68 => float::chosen(f, a, b),
        77..=84 | 86 => arithmetic::unary(f, a),
        87..=90 => float::sign(f, a),
        93..=100 => convert::rounded(f, a),
        101..=104 | 159..=161 | 200..=202 => convert::convert(f, a),
        105..=116 => compare::equality(f, a, b),
        117..=134 => compare::less(f, a, b),
        135..=152 => compare::greater(f, a, b),
        153..=158 | 162..=167 => widen::extend(f, a),
        168..=179 => widen::extended_product(f, a, b),
        180..=183 => widen::pairwise_sum(f, a),
        184..=195 => shift::shift(f, a, r.count),
        196..=199 | 212 => widen::narrow_or_dot(f, a, b),
        203..=211 => reduce::reduce(f, a),
        213..=214 | 272..=281 => relaxed::relaxed(f, a, b, c),
        232..=233 | 254..=259 => widen::widen_bits(f, r.scalar),
        _ => Answer::none(),
    }
}

// The packed forms, by the number of the function.
fn packed_form(f: u16, r: Request) -> Answer {
    let a = r.a;
    let b = r.b;
    match f {
        22..=29 | 55..=56 | 105..=108 => packed::binary(f, a, b),
        77..=80 | 86 => packed::unary(f, a),
        184..=195 => packed::shift(f, a, r.count),
        203..=211 => packed::reduce(f, a),
        _ => Answer::none(),
    }
}

fn has_memory(f: u16) -> bool {
    match f {
        220..=231 | 234..=253 | 260..=271 => true,
        _ => false,
    }
}

fn is_store(f: u16) -> bool {
    match f {
        220..=229 => true,
        _ => false,
    }
}

fn stored(r: Request, memory: &mut [u8]) -> Answer {
    let f = r.function;
    let a = r.a;
    if f == 220 || f >= 222 && f <= 225 {
        return memory::store(f, a, r.pointer, r.offset, r.lane, memory);
    }
    memory::store_at(f, a, r.pointer as usize, r.lane, memory)
}

fn loaded(r: Request, memory: &[u8]) -> Answer {
    let f = r.function;
    let a = r.a;
    match f {
        230 | 234..=235 | 238..=241 | 260..=265 => memory::load(f, r.pointer, r.offset, memory),
        246..=249 => memory::load_lane(f, a, r.pointer, r.offset, r.lane, memory),
        250..=253 => memory::load_lane_at(f, a, r.pointer as usize, r.lane, memory),
        _ => memory::load_at(f, r.pointer as usize, memory),
    }
}

// Loads and stores, on the memory of the request.
fn with_memory(r: Request, length: usize, bytes: &[u8; 128]) -> [u8; 80]
    requires { length ≤ 48 }
{
    let mut space = request::memory(bytes, length);
    let f = r.function;
    if is_store(f) {
        let answer = stored(r, &mut space[..length]);
        answer.bytes_with(&space)
    } else {
        let answer = loaded(r, &space[..length]);
        answer.bytes_with(&space)
    }
}

// The answer to a request that is whole.
pub fn answer_to(bytes: &[u8; 128]) -> [u8; 80] {
    let r = Request::of(bytes);
    let f = r.function;
    let length = r.length;
    if length > MOST {
        let none = Answer::none();
        none.bytes()
    } else if has_memory(f) {
        with_memory(r, length, bytes)
    } else if f >= PACKED {
        let answer = packed_form(f - PACKED, r);
        answer.bytes()
    } else {
        let answer = plain(r, request::indices(bytes));
        answer.bytes()
    }
}

// The answer to a request that is cut short.
pub fn cut_short() -> [u8; 80] {
    let none = Answer::none();
    none.bytes()
}
