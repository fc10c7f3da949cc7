// Add, subtract and negate, modulo 2^w in each lane of w bits (document 01, "Lane rules"; the standard, 4.3.2 "iadd", "isub", "ineg"), on a whole
// half. The bits below the top one of each lane are added with no carry out of the lane, or taken from a lane whose top bit is set, with no borrow.
// The top bits are then put right by an exclusive-or.
ghost use Rattle.std.specs.Prelude.{◌≡◌, ◌+◌};
ghost use Rattle.standard.specs.Integer.{iadd, isub, ineg};
ghost use Rattle.packed_half.specs.Half.{half_unary, half_binary};

use packed_half::masks::Lanes;

pub fn add<L: Lanes>(a: u64, b: u64) -> u64
    ensures { result ≡ half_binary (1 + L.LOW_BITS) (iadd (1 + L.LOW_BITS)) a b }
{
    ((a & L::LOW) + (b & L::LOW)) ^ ((a ^ b) & L::TOP)
}

pub fn add64(a: u64, b: u64) -> u64
    ensures { result ≡ half_binary 64 (iadd 64) a b }
{
    std::num::wrapping_add_u64(a, b)
}

pub fn sub<L: Lanes>(a: u64, b: u64) -> u64
    ensures { result ≡ half_binary (1 + L.LOW_BITS) (isub (1 + L.LOW_BITS)) a b }
{
    ((a | L::TOP) - (b & L::LOW)) ^ ((a ^ !b) & L::TOP)
}

pub fn sub64(a: u64, b: u64) -> u64
    ensures { result ≡ half_binary 64 (isub 64) a b }
{
    std::num::wrapping_sub_u64(a, b)
}

pub fn neg<L: Lanes>(a: u64) -> u64
    ensures { result ≡ half_unary (1 + L.LOW_BITS) (ineg (1 + L.LOW_BITS)) a }
{
    sub::<L>(0, a)
}

pub fn neg64(a: u64) -> u64
    ensures { result ≡ half_unary 64 (ineg 64) a }
{
    sub64(0, a)
}
