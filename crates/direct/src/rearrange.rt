// Lanes rearranged: functions 20 and 21. Swizzle takes its indices from b, shuffle from the sixteen index bytes.
use crate::answer::Answer;
use simd::V128;

pub fn rearrange(f: u16, a: V128, b: V128, indices: [u8; 16]) -> Answer {
    match f {
        20 => Answer::of_vector(a.i8x16_shuffle(b, indices)),
        21 => Answer::vector(a.i8x16_swizzle(b)),
        _ => Answer::none(),
    }
}
