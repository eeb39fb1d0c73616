// Lists of words on lent slices: cleared, copied, added, and multiplied by a word. Where the sizes do not fit, nothing is written.
// The loops go by index, since the prover knows nothing of a slice after an adapter of `iter_mut`.

#![tactic(auto)]

ghost use Rattle.std.specs.Prelude.{◌≡◌, length, replicate};
ghost use Rattle.word_lists.specs.Into.{load_into, sum_into, scale_into};

// Zeros in the place of d.
// Example: 2 3 becomes 0 0.
pub fn clear(d: &mut [u64])
    ensures { d.new ≡ replicate (length d.old) 0 }
{
    d.fill(0);
}

// The words of s from an index on, as many as d has, in the place of d.
// Example: for 2 3 4 5 and the index 1 a list of two words becomes 3 4.
#[tactic(auto, using(crate::proofs::Into::load_into_none))]
pub fn load(d: &mut [u64], s: &[u64], at: usize)
    ensures { d.new ≡ load_into d.old s.now at }
{
    if s.len() < d.len() || s.len() - d.len() < at {
        return;
    }
    for i in 0..d.len() {
        d[i] = s[at + i];
    }
}

// h + g in the place of d.
// Example: for 2 3 and 4 5 it becomes 6 8.
#[tactic(auto, using(crate::proofs::Into::sum_into_first, crate::proofs::Into::sum_into_last))]
pub fn sum_into(d: &mut [u64], h: &[u64], g: &[u64])
    ensures { d.new ≡ sum_into d.old h.now g.now }
{
    if d.len() != h.len() || h.len() != g.len() {
        return;
    }
    for i in 0..h.len() {
        d[i] = ring::add(h[i], g[i]);
    }
}

// c s in the place of d, from the end.
// Example: for 3 and 2 3 it becomes 6 9.
#[tactic(auto, using(crate::proofs::Into::scale_into_none))]
pub fn scale_into(d: &mut [u64], c: u64, s: &[u64])
    ensures { d.new ≡ scale_into d.old c s.now }
{
    if d.len() != s.len() {
        return;
    }
    for i in (0..s.len()).rev() {
        d[i] = ring::mul(c, s[i]);
    }
}
