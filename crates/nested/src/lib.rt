// The product of elements by the nested method, into a lent result, for the parameters p. Where the rank and the sizes do not fit, the
// result stays as it was.

#![tactic(auto)]

ghost use Rattle.std.specs.Prelude.{◌≡◌, length};
ghost use Rattle.nested.specs.InPlace.{product_fits, product_in};

use element_calls::Parameters;

mod blocks;
mod multiply;

// h g in the place of result, for h and g of rank m. The work is in scratch, of m M words or more, and stays there.
// Example: of rank 1 with q = 3 and r = 2, 0 1 and 0 1 give 3 2.
pub fn product(res: &mut [u64], scratch: &mut [u64], h: &[u64], g: &[u64], m: usize, p: Parameters)
    ensures { res.new
        ≡ product_in p m (length scratch.old) res.old h.now g.now }
{
    if !product_fits(m, h.len(), g.len(), res.len(), scratch.len()) {
        return;
    }
    multiply::times(res, scratch, h, g, m, m, p);
}

// Whether h, g and out are the numbers of words of elements of rank m, at most 6, and n words of scratch suffice.
#[tactic(auto, using(ranks::proofs::Sizes::size_is, crate::proofs::Fits::scratch_small), unfolding(crate::specs::InPlace::product_fits, lists::specs::Lists::same, lists::specs::Lists::less))]
fn product_fits(m: usize, h: usize, g: usize, out: usize, n: usize) -> bool
    ensures { result ≡ product_fits m h g out n }
{
    if 6 < m {
        return false;
    }
    let size = ranks::size(m);
    h == size && g == size && out == size && m * size <= n
}
