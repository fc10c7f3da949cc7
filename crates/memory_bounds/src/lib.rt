// The one bounds test of memory (document 01, "Memory"), which says how far past the end an access runs (document 02, order 9).
#![tactic(auto)]

ghost use Rattle.std.specs.Prelude.{◌≡◌, ◌+◌, ◌-◌, ◌^◌, min};
ghost use Rattle.standard.specs.Memory.{within};
ghost use Rattle.memory_bounds.specs.Bounds.{effective, access_answer};

/// An effective address: "pointer p with offset o", whose exact sum may pass 2^64, or the address of an `_at` form.
#[derive(Clone, Copy, PartialEq, Eq, Debug)]
pub enum Effective {
    Sum(u64, u64),
    Address(usize),
}

/// How far past the end of the memory an access runs, at most 2^64−1.
#[derive(Clone, Copy, PartialEq, Eq, Debug)]
pub struct Shortfall(pub u64);

impl Shortfall {
    // "the exact end of the access minus the length, or 2^64−1 where it is larger than that", of an access that runs past the end.
    fn of_access(length: u64, ptr: u64, offset: u64, n: u64) -> Shortfall
        ensures { result.0 ≡ min (ptr + offset + n - length) (2 ^ 64 - 1) }
    {
        let end = ptr as u128 + offset as u128 + n as u128;
        Shortfall(end.saturating_sub(length as u128).min(u64::MAX as u128) as u64)
    }
}

// "allowed when the exact sum p + o + n is at most the length": a sum that has come round is below the pointer, and its exact value is past every
// length. An offset of 0, as in an `_at` form, leaves the last two tests.
fn reach_sum(memory: &[u8], ptr: u64, offset: u64, n: usize) -> Result<usize, Shortfall>
    ensures { access_answer result ≡ within memory.now (ptr + offset) n (ptr + offset) }
{
    let at = ptr.wrapping_add(offset);
    let length = memory.len();
    if at < ptr || length < n || ((length - n) as u64) < at {
        return Err(Shortfall::of_access(length as u64, ptr, offset, n as u64));
    }
    Ok(at as usize)
}

/// Where the first of the n bytes of an access stands, or the shortfall of an access that runs past the end. The one bounds test, of both forms.
pub fn reach(memory: &[u8], ea: Effective, n: usize) -> Result<usize, Shortfall>
    ensures { access_answer result ≡ within memory.now (effective ea) n (effective ea) }
{
    match ea {
        Effective::Sum(ptr, offset) => reach_sum(memory, ptr, offset, n),
        Effective::Address(address) => reach_sum(memory, address as u64, 0, n),
    }
}
