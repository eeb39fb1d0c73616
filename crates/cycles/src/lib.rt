// The action of T_a(j,l) on an element, in the place of the element, for the parameters p. Where the rank, j, l and the sizes do not
// fit, the element stays as it was.

#![tactic(auto)]

ghost use Rattle.std.specs.Prelude.{◌≡◌, ◌≤◌, length};
ghost use Rattle.cycles.specs.InPlace.{act_fits, act_in};

use block_loops::Forward;
use element_calls::Parameters;

mod action;
mod blocks;

// x T_a(j,l) in the place of x, of rank m. For l of 2 and above the work is in `work`, of M words or more, and stays there.
// Example: of rank 2 with q = 3 and r = 2, T_a(2,2) makes 36 33 54 51 43 44 of 1 2 3 4 5 6.
pub fn act(x: &mut [u64], work: &mut [u64], m: usize, j: usize, l: usize, p: Parameters)
    ensures { x.new ≡ act_in p m j l (length work.old) x.old }
{
    if l == 1 {
        letters::letter::<Forward>(x, m, j, p);
        return;
    }
    if l == 0 {
        return;
    }
    if !level_fits(m, j, l, x.len(), work.len()) {
        return;
    }
    action::level(x, work, m, j, l, p);
}

// Whether, for l of 2 and above, l ≤ j ≤ m ≤ 6, n is the number of words of an element of rank m and w words of work suffice.
#[tactic(auto, using(ranks::proofs::Sizes::size_is), unfolding(crate::specs::InPlace::act_fits, lists::specs::Lists::same, lists::specs::Lists::less))]
fn level_fits(m: usize, j: usize, l: usize, n: usize, w: usize) -> bool
    requires { 2 ≤ l }
    ensures { result ≡ act_fits m j l n w }
{
    if 6 < m || m < j || j < l {
        return false;
    }
    let size = ranks::size(m);
    n == size && size <= w
}
