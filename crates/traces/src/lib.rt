// The Markov trace of an element, with the parameter z.

#![tactic(auto)]

ghost use Rattle.std.specs.Prelude.{◌≡◌, ℕ};
ghost use Rattle.markov_trace.specs.Trace.{trace};
ghost use Rattle.element_calls.specs.Calls.{trace_call};
ghost use Rattle.element_calls.specs.Coefficients.{ring};
ghost use Rattle.traces.specs.Steps.{TracePre};

use element_calls::Parameters;
use element_checks::{checks, parameters_of};
use refusals::Refusal;

mod blocks;
mod levels;

// The trace of x, of rank m: each level leaves an element of one rank less, with the same trace, in the first block of x. What x
// holds in the end is not said.
fn traced(x: &mut [u64], m: usize, z: u64, p: Parameters) -> u64
    requires { TracePre p m x.old }
    ensures { result ≡ trace ℕ (ring p) p.q p.r z m x.old }
{
    if m == 0 {
        return x[0];
    }
    let lower = m - 1;
    let b = ranks::size(lower);
    levels::lower(x, lower, b, z, p);
    traced(&mut x[0..b], lower, z, p)
}

// The trace of an element of rank m with the parameter z. No ring operation is counted. The first (m + 6) M words of scratch are
// zero afterwards, and the rest as before.
// Refused: 1 a rank above 6; 2 a slice that is not M words; 3 scratch of fewer than (m + 6) M words.
// Example: of rank 1, for every q, 2 3 and z = 5 give 17.
#[tactic(auto, unfolding(element_calls::specs::Calls::trace_call, refusals::specs::Refusals::ended))]
pub fn trace(m: usize, q: u64, z: u64, element: &[u64], scratch: &mut [u64]) -> Result<u64, Refusal>
    ensures { trace_call m q z element.now scratch.old
        ≡ record { answer = result; lent = scratch.new } }
{
    checks::rank(m)?;
    checks::sized(m, element.len())?;
    checks::scratch(m, scratch.len())?;
    let size = ranks::size(m);
    word_lists::load(&mut scratch[0..size], element, 0);
    let value = traced(&mut scratch[0..size], m, z, parameters_of(q));
    let need = ranks::scratch_size(m);
    word_lists::clear(&mut scratch[0..need]);
    Ok(value)
}
