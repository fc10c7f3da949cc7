// Chains of shuffles (document 02, order 13): the indices of a link, and a chain judged. A link is lent as its seventeen bytes, its partner and its sixteen
// indices, so that every value of it has a meaning.
#![tactic(auto)]

ghost use Rattle.std.specs.Prelude.{◌≡◌};
ghost use Rattle.standard_refusal.specs.Number.{code_of};
ghost use Rattle.chain.specs.Definition.{indices, refusal};

use array_reorder::all_legal;
use standard_refusal::Refusal;

pub fn indices_of(link: [u8; 17]) -> [u8; 16]
    ensures { result ≡ indices link }
{
    [
        link[1], link[2], link[3], link[4], link[5], link[6], link[7], link[8], link[9], link[10],
        link[11], link[12], link[13], link[14], link[15], link[16],
    ]
}

// "18 more than 16 links, then 5 for an index above 31".
pub fn judge(links: &[[u8; 17]]) -> Result<(), Refusal>
    ensures { code_of result ≡ refusal links.now }
{
    if links.len() > 16 {
        return Err(Refusal::Links);
    }
    for link in links {
        if !all_legal(indices_of(*link)) {
            return Err(Refusal::Index);
        }
    }
    Ok(())
}
