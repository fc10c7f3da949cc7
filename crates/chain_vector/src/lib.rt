// A chain of shuffles applied to two vectors, link by link (document 02, order 13).
#![tactic(auto)]

ghost use Rattle.std.specs.Prelude.{◌≡◌, true, get_or};
ghost use Rattle.standard.specs.Refusal.{legal};
ghost use Rattle.standard.specs.Vector.{shuffle};
ghost use Rattle.simd.specs.Answers.{vector_answer};
ghost use Rattle.simd.specs.Number.{number};
ghost use Rattle.chain.specs.Definition.{indices, partner, applied};

use simd::V128;
use standard_refusal::Refusal;

fn partner_of(n: u8, a: V128, b: V128, current: V128) -> V128
    ensures { number result ≡ partner n (number a) (number b) (number current) }
{
    match n {
        0 => a,
        1 => b,
        _ => current,
    }
}

// A link whose indices are legal. Any other has been refused before.
fn linked(link: [u8; 17], a: V128, b: V128, current: V128) -> V128
    ensures { legal (indices link) ≡ true → number result ≡ shuffle (indices link) (number current) (partner (get_or link 0 0) (number a) (number b) (number current)) }
{
    let second = partner_of(link[0], a, b, current);
    current
        .i8x16_shuffle(second, chain::indices_of(link))
        .unwrap_or(current)
}

// No program calls it. It is for whoever has two vectors in hand, and the theorem `one_shuffle` says that one shuffle by the folded list gives the same.
pub fn apply(links: &[[u8; 17]], a: V128, b: V128) -> Result<V128, Refusal>
    ensures { vector_answer result ≡ applied links.now (number a) (number b) }
{
    chain::judge(links)?;
    let mut current = a;
    for link in links {
        current = linked(*link, a, b, current);
    }
    Ok(current)
}
