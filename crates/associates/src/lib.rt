// A use of demand 3 from outside: four products of hecke, and the law that two of the results are equal.

#![tactic(auto)]

ghost use Rattle.std.specs.Prelude.{◌≡◌};
ghost use Rattle.algebra.specs.Product.{times};
ghost use Rattle.element_calls.specs.Coefficients.{ring, parameters_of};
ghost use Rattle.associates.specs.Sizes.{Sizes};

// (h g) k in left and h (g k) in right, by four products: equal words. `part` holds h g, and then g k.
fn associates(
    m: usize,
    q: u64,
    h: &[u64],
    g: &[u64],
    k: &[u64],
    part: &mut [u64],
    left: &mut [u64],
    right: &mut [u64],
    scratch: &mut [u64],
)
    requires { Sizes m h.now g.now k.now part.old left.old right.old scratch.old }
    ensures left_after { left.new ≡ (let p = parameters_of q in
        times _ (ring p) p.q p.r m m (times _ (ring p) p.q p.r m m h.now g.now) k.now) }
    ensures left_after_2 { left.new ≡ right.new }
{
    let _first = hecke::product(m, q, h, g, part, scratch);
    let _second = hecke::product(m, q, part, k, left, scratch);
    let _third = hecke::product(m, q, g, k, part, scratch);
    let _fourth = hecke::product(m, q, h, part, right, scratch);
}
