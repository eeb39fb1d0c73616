// The pairing of two elements of one rank.

#![tactic(auto)]

ghost use Rattle.std.specs.Prelude.{◌≡◌, ℕ};
ghost use Rattle.ring.specs.Modular.{words};
ghost use Rattle.algebra.specs.Pairing.{pairing};
ghost use Rattle.element_calls.specs.Calls.{pairing_call};
ghost use Rattle.pairings.specs.Walk.{PairPre};

use element_checks::checks;
use refusals::Refusal;

mod walk;

// The pairing of two elements of rank m. The place of an inverse is reckoned from the last place, with the factorials as weights.
fn paired(left: &[u64], right: &[u64], m: usize, q: u64) -> u64
    requires { PairPre m left.now right.now }
    ensures { result ≡ pairing ℕ words q m left.now right.now }
{
    if m == 0 {
        return ring::mul(left[0], right[0]);
    }
    let weights = [1, 1, 2, 6, 24, 120, 720];
    walk::walk(left, right, &weights, m, q, right.len() - 1)
}

// The coefficient of the unit in the product of two elements of rank m: the sum over w of q to the power ℓ(w) times left at w times
// right at the inverse of w. No ring operation is counted.
// Refused: 1 a rank above 6; 2 a slice that is not M words.
// Example: of rank 1 with q = 3, 0 1 and 0 1 give 3.
#[tactic(auto, unfolding(element_calls::specs::Calls::pairing_call))]
pub fn pairing(m: usize, q: u64, left: &[u64], right: &[u64]) -> Result<u64, Refusal>
    ensures { result ≡ pairing_call m q left.now right.now }
{
    checks::rank(m)?;
    checks::sized(m, left.len())?;
    checks::sized(m, right.len())?;
    Ok(paired(left, right, m, q))
}
