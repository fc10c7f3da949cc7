// Shifts of each lane, "the count is taken modulo the lane width" (document 01, "Lane rules"; the standard, 4.3.2 "ishl", "ishr_u"), on a whole half.
// The bits that would reach another lane are masked away. The mask is the lowest bit of each lane times the bits that one lane keeps.
#![tactic(auto)]

ghost use Rattle.std.specs.Prelude.{◌≡◌, ◌+◌};
ghost use Rattle.standard.specs.Integer.{ishl, ishr_u};
ghost use Rattle.packed_half.specs.Half.{half_unary};

use packed_half::masks::Lanes;

pub fn shl<L: Lanes>(a: u64, count: u32) -> u64
    ensures { result ≡ half_unary (1 + L.LOW_BITS) (ishl (1 + L.LOW_BITS) count) a }
{
    let up = count % (1 + L::LOW_BITS);
    (a & (L::ONE * (L::ALL >> up))) << up
}

pub fn shl64(a: u64, count: u32) -> u64
    ensures { result ≡ half_unary 64 (ishl 64 count) a }
{
    a << (count % 64)
}

pub fn shr_u<L: Lanes>(a: u64, count: u32) -> u64
    ensures { result ≡ half_unary (1 + L.LOW_BITS) (ishr_u (1 + L.LOW_BITS) count) a }
{
    let down = count % (1 + L::LOW_BITS);
    (a >> down) & (L::ONE * (L::ALL >> down))
}

pub fn shr_u64(a: u64, count: u32) -> u64
    ensures { result ≡ half_unary 64 (ishr_u 64 count) a }
{
    a >> (count % 64)
}
