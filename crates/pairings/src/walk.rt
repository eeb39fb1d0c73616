// The walk over all permutations by falling place that knows the place of each inverse.

ghost use Rattle.std.specs.Prelude.{◌≡◌};
ghost use Rattle.pairings.specs.Walk.{WalkPre, walked};

// The sum over the permutations w of rank m of q to the power ℓ(w) times a_w times b at the index top less the fall of the inverse of
// w by the weights. Step c takes the w whose last image has c smaller ones beside it: the index falls by the weight c, c times, and the
// rest goes on without that weight.
pub(crate) fn walk(a: &[u64], b: &[u64], weights: &[usize; 7], m: usize, q: u64, top: usize) -> u64
    requires { WalkPre m top a.now b.now weights.now }
    ensures { result ≡ walked q m top a.now b.now weights.now }
{
    if m == 1 {
        let longer = ring::mul(q, ring::mul(a[1], b[top]));
        return ring::add(ring::mul(a[0], b[top - weights[1]]), longer);
    }
    let size = ranks::size(m - 1);
    let mut rest = [0; 7];
    rest[..6].copy_from_slice(&weights[1..]);
    let mut sum: u64 = 0;
    // c is the number of the step, of its weight and of its block from the last.
    for c in 0..m + 1 {
        let at = (m - c) * size;
        let part = walk(&a[at..at + size], b, &rest, m - 1, q, top - c * weights[c]);
        sum = ring::add(part, ring::mul(q, sum));
        rest[c] = weights[c];
    }
    sum
}
