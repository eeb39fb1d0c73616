// The checks of the seven element calls, and the parameters of the algebra. What each answers is defined in `element_calls`.

#![tactic(auto)]

ghost use Rattle.std.specs.Prelude.{◌≡◌};
ghost use Rattle.element_calls.specs.Coefficients.{parameters_of};

use element_calls::Parameters;

pub mod checks;
pub mod signed;

// The parameters of the algebra with q, modulo 2^64.
// Example: for q = 0, r is 2^64 - 1.
pub fn parameters_of(q: u64) -> Parameters
    ensures { result ≡ parameters_of q }
{
    Parameters {
        q,
        r: ring::add(q, 0xffff_ffff_ffff_ffff),
    }
}
