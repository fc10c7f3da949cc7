// How far past the end an access runs that is refused with 7 (document 02, order 9). Every load and store hands this back with its 7; here it is asked of an
// access by itself.
ghost use Rattle.std.specs.Prelude.{◌≡◌, ◌+◌};
ghost use Rattle.standard.specs.Memory.{within};
ghost use Rattle.link_answers.specs.Handed.{access_numbers};

use memory_bounds::{Effective, reach};

// The exact end of the access of so many bytes minus the length of the memory, at most 2^64-1; 0 where the access is allowed. The address of an `_at` function
// is `ptr`, with the offset 0.
#[tactic(auto, unfolding(link_answers::specs::Handed::access_numbers))]
#[unsafe(no_mangle)]
pub extern "C" fn gatulefo_shortfall(memory: &[u8], ptr: u64, offset: u64, bytes: usize) -> u64
    ensures { result ≡ (access_numbers (within memory.now (ptr + offset) bytes (ptr + offset))).1 }
{
    match reach(memory, Effective::Sum(ptr, offset), bytes) {
        Ok(_) => 0,
        Err(short) => short.0,
    }
}
