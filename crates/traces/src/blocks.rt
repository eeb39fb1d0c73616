// The sum of blocks of b words in the place of the first block, for the parameters p.

ghost use Rattle.std.specs.Prelude.{◌≡◌, ℕ, suc, ◌*◌, ◌++◌, length, drop};
ghost use Rattle.lists.specs.Blocks.{block};
ghost use Rattle.markov_trace.specs.Trace.{sums};
ghost use Rattle.element_calls.specs.Coefficients.{ring};

use element_calls::Parameters;

// The n blocks of x after the first are added to it. Pieces of b words would need b above 0, which no contract asks.
pub(crate) fn gather_each(x: &mut [u64], b: usize, n: usize, p: Parameters)
    requires { length x.old ≡ suc n * b }
    ensures { x.new ≡ sums ℕ (ring p) 0 n (λ k. block b k x.old) ++ drop b x.old }
{
    let (first, others) = x.split_at_mut(b);
    for k in 0..n {
        let at = k * b;
        block_loops::add_to(first, &others[at..at + b], p);
    }
}
