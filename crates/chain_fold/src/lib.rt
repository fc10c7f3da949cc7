// A chain of shuffles folded into one list of sixteen indices (document 02, order 13).
#![tactic(auto)]

ghost use Rattle.std.specs.Prelude.{◌≡◌, ◌++◌, map, ◌%◌, length, get_or, OnOk};
ghost use Rattle.standard_refusal.specs.Number.{code_of};
ghost use Rattle.chain.specs.Definition.{indices, partner, refusal, counted, folded, left, OneShuffle};

use array_reorder::{beside, picked};
use chain::{indices_of, judge};
use standard_refusal::Refusal;

// The indices of a, of the vector that the chain starts from, and of b.
const OF_A: [u8; 16] = [0, 1, 2, 3, 4, 5, 6, 7, 8, 9, 10, 11, 12, 13, 14, 15];

const OF_B: [u8; 16] = [
    16, 17, 18, 19, 20, 21, 22, 23, 24, 25, 26, 27, 28, 29, 30, 31,
];

fn partner_of(n: u8, current: [u8; 16]) -> [u8; 16]
    ensures { result ≡ partner n (counted 16 0) (counted 16 16) current }
{
    match n {
        0 => OF_A,
        1 => OF_B,
        _ => current,
    }
}

// Where the bytes of the next current vector stand in a and b, by where those of this one do. A link has its seventeen bytes by its type, which `fold` needs
// to know.
fn linked(current: [u8; 16], link: [u8; 17]) -> [u8; 16]
    ensures value { result ≡ map (λ i. get_or (current ++ partner (get_or link 0 0) (counted 16 0) (counted 16 16) current) (i % 32) 0) (indices link) }
    ensures link_len { length link ≡ 17 }
{
    picked(
        beside(current, partner_of(link[0], current)),
        indices_of(link),
    )
}

// The folded indices are written to `out`, by which one shuffle is the chain; where the chain is refused nothing is written.
pub fn fold(links: &[[u8; 17]], out: &mut [u8; 16]) -> Result<(), Refusal>
    ensures value { code_of result ≡ refusal links.now }
    ensures out_after { out.new ≡ left (code_of result) (folded links.now) out.old }
    ensures one_shuffle { OnOk result (OneShuffle links.now out.new) }
{
    judge(links)?;
    let mut current = OF_A;
    // By index, which the edit that does the last link first turns round. Over the links themselves it needs a counter, which no invariant knows.
    for k in 0..links.len() {
        let next = linked(current, links[k]);
        current = next;
    }
    *out = current;
    Ok(())
}
