// What the product does to whole elements, for the parameters p.

ghost use Rattle.std.specs.Prelude.{◌≡◌, ℕ, ◌≤◌, length, take};
ghost use Rattle.algebra.specs.Element.{plus, scale};
ghost use Rattle.element_calls.specs.Coefficients.{ring};

use element_calls::Parameters;

// c s in the place of d.
pub(crate) fn multiple(d: &mut [u64], c: u64, s: &[u64], p: Parameters)
    requires { length d.old ≡ length s.now }
    ensures { d.new ≡ scale ℕ (ring p) c s.now }
{
    word_lists::scale_into(d, c, s);
}

// s + d in the place of d, with as many words of s as d has.
pub(crate) fn finish(d: &mut [u64], s: &[u64], p: Parameters)
    requires { length d.old ≤ length s.now }
    ensures { d.new ≡ plus ℕ (ring p) (take (length d.old) s.now) d.old }
{
    let n = d.len();
    block_loops::add_to(d, &s[0..n], p);
}
