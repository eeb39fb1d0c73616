// The sum and the scaling of elements of rank 0 to 6, on lent slices of 64-bit words.
//
// An element of rank m is M = (m + 1)! words, its coefficients modulo 2^64. A call checks all it is given before it writes,
// and a refusal leaves every lent word as it was.

#![tactic(auto)]

ghost use Rattle.std.specs.Prelude.{◌≡◌};
ghost use Rattle.element_calls.specs.Calls.{sum_call, scale_call};

use element_checks::checks;
use refusals::{Answer, Refusal};

// The sum of two elements of rank m, coefficient by coefficient: M ring operations.
// Refused: 1 a rank above 6; 2 a slice that is not M words.
// Example: of rank 1, 2 3 and 4 5 give 6 8.
#[tactic(auto, unfolding(element_calls::specs::Calls::sum_call, refusals::specs::Refusals::ended))]
pub fn sum(m: usize, left: &[u64], right: &[u64], res: &mut [u64]) -> Result<Answer, Refusal>
    ensures { sum_call m left.now right.now res.old ≡ record { answer = result; lent = res.new } }
{
    checks::rank(m)?;
    checks::sized(m, left.len())?;
    checks::sized(m, right.len())?;
    checks::sized(m, res.len())?;
    word_lists::sum_into(res, left, right);
    Ok(Answer {
        count: ranks::size(m) as u64,
    })
}

// An element of rank m times the word c, coefficient by coefficient: M ring operations.
// Refused: 1 a rank above 6; 2 a slice that is not M words.
// Example: of rank 1, 3 times 2 3 gives 6 9.
#[tactic(auto, unfolding(element_calls::specs::Calls::scale_call, refusals::specs::Refusals::ended))]
pub fn scale(m: usize, c: u64, element: &[u64], res: &mut [u64]) -> Result<Answer, Refusal>
    ensures { scale_call m c element.now res.old ≡ record { answer = result; lent = res.new } }
{
    let lent = res.len();
    checks::rank(m)?;
    checks::sized(m, element.len())?;
    checks::sized(m, lent)?;
    word_lists::scale_into(res, c, element);
    let count = ranks::size(m) as u64;
    Ok(Answer { count })
}
