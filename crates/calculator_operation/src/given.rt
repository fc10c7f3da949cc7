// What an answer gives, and something else where it is a refusal.
ghost use Rattle.std.specs.Prelude.{◌≡◌};
ghost use Rattle.simd.specs.Number.{number};
ghost use Rattle.simd.specs.Answers.{vector_answer};
ghost use Rattle.calculator_families.specs.Family.{given_or};

use simd::V128;
use standard_refusal::Refusal;

pub fn vector(answer: Result<V128, Refusal>, otherwise: V128) -> V128
    ensures { number result ≡ given_or (number otherwise) (vector_answer answer) }
{
    match answer {
        Ok(v) => v,
        Err(_) => otherwise,
    }
}
