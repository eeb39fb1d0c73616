// The product of elements of the Iwahori-Hecke algebra of type A, of rank 0 to 6, on lent slices of 64-bit words.
//
// An element of rank m is M = (m + 1)! words, its coefficients modulo 2^64. A call checks all it is given before it writes,
// and a refusal leaves every lent word as it was.

#![tactic(auto)]

ghost use Rattle.std.specs.Prelude.{◌≡◌};
ghost use Rattle.element_calls.specs.Calls.{product_call};

use element_checks::checks;
use refusals::{Answer, Refusal};

// The product of two elements of rank m, by the nested method: C(m, m) ring operations. The first (m + 6) M words of scratch
// are zero afterwards, and the rest as before.
// Refused: 1 a rank above 6; 2 a slice that is not M words; 3 scratch of fewer than (m + 6) M words.
// Example: of rank 1 with q = 3, 0 1 and 0 1 give 3 2.
#[tactic(auto, unfolding(element_calls::specs::Calls::product_call, refusals::specs::Refusals::ended))]
pub fn product(
    m: usize,
    q: u64,
    left: &[u64],
    right: &[u64],
    res: &mut [u64],
    scratch: &mut [u64],
) -> Result<Answer, Refusal>
    ensures { product_call m q left.now right.now res.old scratch.old
        ≡ record { answer = result; lent = record { result = res.new; scratch = scratch.new } } }
{
    checks::rank(m)?;
    checks::sized(m, left.len())?;
    checks::sized(m, right.len())?;
    checks::sized(m, res.len())?;
    checks::scratch(m, scratch.len())?;
    let need = ranks::scratch_size(m);
    nested::product(
        res,
        &mut scratch[0..need],
        left,
        right,
        m,
        element_checks::parameters_of(q),
    );
    word_lists::clear(&mut scratch[0..need]);
    Ok(Answer {
        count: ranks::product_count(m),
    })
}
