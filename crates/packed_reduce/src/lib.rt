// What is asked of all lanes of a half at once: any-true, all-true and bitmask (document 01, "Lane rules"; the standard, 4.4.3). The bitmask alone takes
// the half apart into its lanes (document 02, order 7).
#![tactic(auto)]

ghost use Rattle.std.specs.Prelude.{◌≡◌, ◌+◌, cond};
ghost use Rattle.standard.specs.Vector.{any_true};
ghost use Rattle.packed_half.specs.Half.{half_all_true, half_bitmask};

use packed_compare::zeros;
use packed_half::masks::Lanes;

pub fn any_true(a: u64) -> bool
    ensures { cond result 1 0 ≡ any_true a }
{
    a != 0
}

pub fn all_true<L: Lanes>(a: u64) -> bool
    ensures { cond result 1 0 ≡ half_all_true (1 + L.LOW_BITS) a }
{
    zeros::<L>(a) == 0
}

pub fn all_true64(a: u64) -> bool
    ensures { cond result 1 0 ≡ half_all_true 64 a }
{
    a != 0
}

// From the low end: bit i of the mask is the top bit of lane i, which is bit w·i + w − 1 of the half.
pub fn bitmask8(a: u64) -> u32
    ensures { result ≡ half_bitmask 8 a }
{
    let mut mask = ((a >> 7) & 1) as u32;
    mask |= (((a >> 15) & 1) as u32) << 1;
    mask |= (((a >> 23) & 1) as u32) << 2;
    mask |= (((a >> 31) & 1) as u32) << 3;
    mask |= (((a >> 39) & 1) as u32) << 4;
    mask |= (((a >> 47) & 1) as u32) << 5;
    mask |= (((a >> 55) & 1) as u32) << 6;
    mask |= (((a >> 63) & 1) as u32) << 7;
    mask
}

pub fn bitmask16(a: u64) -> u32
    ensures { result ≡ half_bitmask 16 a }
{
    let mut mask = ((a >> 15) & 1) as u32;
    mask |= (((a >> 31) & 1) as u32) << 1;
    mask |= (((a >> 47) & 1) as u32) << 2;
    mask |= (((a >> 63) & 1) as u32) << 3;
    mask
}

pub fn bitmask32(a: u64) -> u32
    ensures { result ≡ half_bitmask 32 a }
{
    let mut mask = ((a >> 31) & 1) as u32;
    mask |= (((a >> 63) & 1) as u32) << 1;
    mask
}

pub fn bitmask64(a: u64) -> u32
    ensures { result ≡ half_bitmask 64 a }
{
    (a >> 63) as u32
}
