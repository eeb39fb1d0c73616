// The product by the nested method, for the parameters p: the recursion over the rank of the right factor.

ghost use Rattle.std.specs.Prelude.{◌≡◌};
ghost use Rattle.nested.specs.Steps.{multiplied, FactorsPre, TimesPre, LayerPre, LayerPost};

use crate::blocks;
use block_loops::Forward;
use element_calls::Parameters;

// The parts of a product: its left factor has rank m and size words, a block of its right factor rank l and part words.
#[derive(Clone, Copy)]
struct Parts {
    m: usize,
    l: usize,
    size: usize,
    part: usize,
    p: Parameters,
}

// h g in the place of result, for h of rank m and g of rank l: the sum of a part for each block of g, from the last block to
// the first. The sum of the parts so far is in the first words of scratch; the last part needs no action, and stays in result.
#[cycle(layer_times)]
pub(crate) fn times(
    res: &mut [u64],
    scratch: &mut [u64],
    h: &[u64],
    g: &[u64],
    m: usize,
    l: usize,
    p: Parameters,
)
    requires { TimesPre m l res.old scratch.old h.now g.now }
    ensures { res.new ≡ multiplied p m l h.now g.now }
{
    if l == 0 {
        blocks::multiple(res, g[0], h, p);
        return;
    }
    if l == 1 {
        times_one(res, h, g, m, p);
        return;
    }
    let lower = l - 1;
    let parts = Parts {
        m,
        l: lower,
        size: ranks::size(m),
        part: ranks::size(lower),
        p,
    };
    parts.layer(res, scratch, h, g, l);
    word_lists::load(&mut scratch[0..parts.size], res, 0);
    for k in (1..l).rev() {
        parts.layer(res, scratch, h, g, k);
        block_loops::add_to(&mut scratch[0..parts.size], res, p);
    }
    parts.layer(res, scratch, h, g, 0);
    blocks::finish(res, scratch, p);
}

// h g in the place of result, for g of rank 1: (g_1 h) T_1 + g_0 h.
fn times_one(res: &mut [u64], h: &[u64], g: &[u64], m: usize, p: Parameters)
    requires { FactorsPre m 1 res.old h.now g.now }
    ensures { res.new ≡ multiplied p m 1 h.now g.now }
{
    blocks::multiple(res, g[1], h, p);
    letters::letter::<Forward>(res, m, 1, p);
    block_loops::add_multiple(res, g[0], h, p);
}

impl Parts {
    // (h g_k) T_a(l+1,k) in the place of result, for the block g_k of g. The first size words of scratch are kept.
    #[cycle(layer_times)]
    fn layer(self, res: &mut [u64], scratch: &mut [u64], h: &[u64], g: &[u64], k: usize)
        requires { LayerPre self.m self.l k self.size self.part res.old scratch.old h.now g.now }
        ensures { LayerPost self.p self.m self.l k self.size self.part h.now g.now scratch.old res.new scratch.new }
    {
        let at = k * self.part;
        let end = at + self.part;
        times(
            res,
            &mut scratch[self.size..],
            h,
            &g[at..end],
            self.m,
            self.l,
            self.p,
        );
        cycles::act(
            res,
            &mut scratch[self.size..],
            self.m,
            self.l + 1,
            k,
            self.p,
        );
    }
}
