// Average, "(a + b + 1) divided by 2, rounded down, unsigned" (document 01, "Lane rules"; the standard, 4.3.2 "iavgr_u"), on a whole half. a + b is
// once the bits that either has and once those that both have; so half of it, rounded up, is the bits that either has less half of those in which
// they differ.
ghost use Rattle.std.specs.Prelude.{◌≡◌, ◌+◌};
ghost use Rattle.standard.specs.Integer.{iavgr_u};
ghost use Rattle.packed_half.specs.Half.{half_binary};

use packed_half::masks::Lanes;

pub fn avgr_u<L: Lanes>(a: u64, b: u64) -> u64
    ensures { result ≡ half_binary (1 + L.LOW_BITS) (iavgr_u (1 + L.LOW_BITS)) a b }
{
    (a | b) - (((a ^ b) >> 1) & L::LOW)
}
