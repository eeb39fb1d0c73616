// One level of the trace: an element of rank m + 1, as m + 2 blocks of rank m and b words, becomes one of rank m with the same trace.

ghost use Rattle.std.specs.Prelude.{◌≡◌, ℕ, ◌+◌, ◌-◌, take};
ghost use Rattle.lists.specs.Blocks.{block, blocks};
ghost use Rattle.perms.specs.Tower.{cycle};
ghost use Rattle.algebra.specs.Product.{act};
ghost use Rattle.markov_trace.specs.Trace.{lowered};
ghost use Rattle.element_calls.specs.Coefficients.{ring};
ghost use Rattle.traces.specs.Steps.{TurnPre, LevelPre};

use crate::blocks;
use block_loops::Forward;
use element_calls::Parameters;

// x T_a(m,l) in the place of x, of rank m: the letters m, m - 1, .., m - l + 1, by their number, which a falling range would bound twice.
fn turn(x: &mut [u64], m: usize, l: usize, p: Parameters)
    requires { TurnPre m l x.old }
    ensures { x.new ≡ act ℕ (ring p) p.q p.r m (cycle m l) x.old }
{
    for i in 0..l {
        letters::letter::<Forward>(x, m, m - i, p);
    }
}

// T_a(m,k-1) acts on each block k of x after the first, lent as the part from k b on, as document 01 asks.
fn turn_each(x: &mut [u64], m: usize, b: usize, p: Parameters)
    requires { LevelPre m b x.old }
    ensures { x.new ≡ blocks (m + 2) (λ k. act ℕ (ring p) p.q p.r m (cycle m (k - 1)) (block b k x.old)) }
{
    for k in 1..m + 2 {
        let at = k * b;
        let end = at + b;
        turn(&mut x[at..end], m, k - 1, p);
    }
}

// h_0 + z (h_1 + h_2 T_a(m,1) + .. + h_(m+1) T_a(m,m)) in the place of the first block of x, which has the blocks h_0, h_1, ..
// What the other blocks then hold is not said.
pub(crate) fn lower(x: &mut [u64], m: usize, b: usize, z: u64, p: Parameters)
    requires { LevelPre m b x.old }
    ensures { take b x.new ≡ lowered ℕ (ring p) p.q p.r z m x.old }
{
    turn_each(x, m, b, p);
    let (first, others) = x.split_at_mut(b);
    blocks::gather_each(others, b, m, p);
    block_loops::add_multiple(first, z, &others[..b], p);
}
