// Equal, "all ones or all zeros" in each lane (document 01, "Lane rules"; the standard, 4.3.2 "ieq"), on a whole half. The lanes of a ^ b that are 0
// are found by their top bits, which are brought down to the lanes' lowest bits and spread over the lanes by a product.
#![tactic(auto)]

ghost use Rattle.std.specs.Prelude.{◌≡◌, ◌+◌};
ghost use Rattle.standard.specs.Integer.{ieq};
ghost use Rattle.packed_half.specs.Half.{half_unary, half_binary, zero_top};

use packed_half::masks::Lanes;

// The top bit of each lane that is 0. All low bits added to a lane's low bits set its top bit where one of them is set, and carry no further.
pub fn zeros<L: Lanes>(a: u64) -> u64
    ensures { result ≡ half_unary (1 + L.LOW_BITS) (zero_top (1 + L.LOW_BITS)) a }
{
    ((((a & L::LOW) + L::LOW) | a) & L::TOP) ^ L::TOP
}

pub fn eq<L: Lanes>(a: u64, b: u64) -> u64
    ensures { result ≡ half_binary (1 + L.LOW_BITS) (ieq (1 + L.LOW_BITS)) a b }
{
    (zeros::<L>(a ^ b) >> L::LOW_BITS) * L::ALL
}

pub fn eq64(a: u64, b: u64) -> u64
    ensures { result ≡ half_binary 64 (ieq 64) a b }
{
    if a == b { 0xffff_ffff_ffff_ffff } else { 0 }
}
