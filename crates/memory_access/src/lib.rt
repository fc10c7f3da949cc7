// Memory (document 01, "Memory"): lent bytes, little-endian. Numbers of 1, 2, 4, 8 and 16 bytes read and written where the bounds test allows the
// access.
#![tactic(auto)]

ghost use Rattle.std.specs.Prelude.{ℕ, ◌≡◌, ◌+◌, ◌*◌, ◌^◌, length};
ghost use Rattle.standard.specs.Lanes.{digits, joined};
ghost use Rattle.standard.specs.Memory.{load, store, stored};
ghost use Rattle.memory_bounds.specs.Bounds.{effective};
ghost use Rattle.memory_access.specs.Access.{put_answer, fetched};
ghost use Rattle.memory_access.specs.AccessError.{error_number, error_shortfall};
ghost use Rattle.memory_access.specs.declared.AccessError.TheVariants.{Refused, Past};

use memory_bounds::reach;
pub use memory_bounds::{Effective, Shortfall};
use standard_refusal::Refusal;

/// A number that memory holds in so many bytes, low byte first.
pub trait Number: Copy {
    const SIZE: usize;

    ghost SIZE: { ℕ };

    ghost value: { Self → ℕ };

    /// The number of its bytes.
    fn read(bytes: &[u8]) -> Self
        requires { length bytes.now ≡ SIZE }
        ensures { value result ≡ joined 8 bytes.now };

    /// Its bytes, over as many.
    fn write(self, bytes: &mut [u8])
        requires { length bytes.old ≡ SIZE }
        ensures { bytes.new ≡ digits 8 SIZE (value self) };
}

impl Number for u8 {
    const SIZE: usize = 1;

    ghost SIZE = { 1 };

    ghost value = { λ x. x };

    fn read(bytes: &[u8]) -> u8 {
        u8::from_le_bytes(bytes.try_into().unwrap())
    }

    fn write(self, bytes: &mut [u8]) {
        bytes.copy_from_slice(&u8::to_le_bytes(self));
    }
}

impl Number for u16 {
    const SIZE: usize = 2;

    ghost SIZE = { 2 };

    ghost value = { λ x. x };

    fn read(bytes: &[u8]) -> u16 {
        u16::from_le_bytes(bytes.try_into().unwrap())
    }

    fn write(self, bytes: &mut [u8]) {
        bytes.copy_from_slice(&u16::to_le_bytes(self));
    }
}

impl Number for u32 {
    const SIZE: usize = 4;

    ghost SIZE = { 4 };

    ghost value = { λ x. x };

    fn read(bytes: &[u8]) -> u32 {
        u32::from_le_bytes(bytes.try_into().unwrap())
    }

    fn write(self, bytes: &mut [u8]) {
        bytes.copy_from_slice(&u32::to_le_bytes(self));
    }
}

impl Number for u64 {
    const SIZE: usize = 8;

    ghost SIZE = { 8 };

    ghost value = { λ x. x };

    fn read(bytes: &[u8]) -> u64 {
        u64::from_le_bytes(bytes.try_into().unwrap())
    }

    fn write(self, bytes: &mut [u8]) {
        bytes.copy_from_slice(&u64::to_le_bytes(self));
    }
}

/// The 16 bytes of a vector, low half first.
#[derive(Clone, Copy, PartialEq, Eq, Debug)]
pub struct Halves {
    pub lo: u64,
    pub hi: u64,
}

impl Number for Halves {
    const SIZE: usize = 16;

    ghost SIZE = { 16 };

    ghost value = { λ h. h.lo + 2 ^ 64 * h.hi };

    fn read(bytes: &[u8]) -> Halves {
        Halves {
            lo: u64::read(&bytes[..8]),
            hi: u64::read(&bytes[8..]),
        }
    }

    fn write(self, bytes: &mut [u8]) {
        self.lo.write(&mut bytes[..8]);
        self.hi.write(&mut bytes[8..]);
    }
}

/// Why an access was refused: an operation's refusal, as of a lane that is not below the lane count, or how far past the end it runs.
#[derive(Clone, Copy, PartialEq, Eq, Debug)]
pub enum AccessError {
    Refused(Refusal),
    Past(Shortfall),
}

impl From<Refusal> for AccessError {
    ghost from_gives = { λ refusal error. error ≡ Refused refusal };

    fn from(refusal: Refusal) -> AccessError {
        AccessError::Refused(refusal)
    }
}

impl From<Shortfall> for AccessError {
    ghost from_gives = { λ short error. error ≡ Past short };

    fn from(short: Shortfall) -> AccessError {
        AccessError::Past(short)
    }
}

impl AccessError {
    /// Document 01's number: 7 for an access past the end.
    pub fn number(self) -> u8
        ensures { result ≡ error_number self }
    {
        match self {
            AccessError::Refused(why) => u8::from(why),
            AccessError::Past(_) => u8::from(Refusal::Past),
        }
    }

    /// How far past the end the access runs, 0 for any other refusal.
    pub fn shortfall(self) -> u64
        ensures { result ≡ error_shortfall self }
    {
        match self {
            AccessError::Refused(_) => 0,
            AccessError::Past(Shortfall(by)) => by,
        }
    }
}

/// A load, where the bounds test allows it.
pub fn fetch<N: Number>(memory: &[u8], ea: Effective) -> Result<N, Shortfall>
    ensures { fetched N.value result ≡ load N.SIZE memory.now (effective ea) }
{
    let at = reach(memory, ea, N::SIZE)?;
    Ok(N::read(&memory[at..at + N::SIZE]))
}

/// A store: "A store writes those n bytes and no others". Where it is refused, "memory unwritten".
pub fn put<N: Number>(memory: &mut [u8], ea: Effective, x: N) -> Result<(), Shortfall>
    ensures { put_answer result memory.new ≡ stored (store N.SIZE (N.value x) memory.old (effective ea)) memory.old }
{
    let at = reach(memory, ea, N::SIZE)?;
    x.write(&mut memory[at..at + N::SIZE]);
    Ok(())
}
