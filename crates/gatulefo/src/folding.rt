// A chain of shuffles folded into one (document 02, order 13). A link is 17 bytes: its partner, 0 for a, 1 for b, any other number for the current vector, and
// its sixteen indices.
ghost use Rattle.std.specs.Prelude.{◌≡◌};
ghost use Rattle.chain.specs.Definition.{refusal, folded, left};

use standard_refusal::code;

// 0, and the sixteen indices of the one shuffle of a and b are written to `out`; or the number of the refusal, 18 more than 16 links, 5 an index above 31, and
// nothing is written.
#[unsafe(no_mangle)]
pub extern "C" fn gatulefo_fold(links: &[[u8; 17]], out: &mut [u8; 16]) -> u8
    ensures value { result ≡ refusal links.now }
    ensures out_after { out.new ≡ left result (folded links.now) out.old }
{
    code(chain_fold::fold(links, out))
}
