// The action of T_a(j,l) on an element, block by block (Proposition 3.2), for the parameters p. Block k is lent as the part from k b on,
// the form that document 01 asks for.

ghost use Rattle.std.specs.Prelude.{◌≡◌};
ghost use Rattle.lists.specs.Blocks.{block, blocks};
ghost use Rattle.cycles.specs.Steps.{acted, joint, ActPre, LevelPre, EachPre, MiddlePre, TwoPre};

use crate::blocks;
use block_loops::Forward;
use element_calls::Parameters;

// Blocks of rank m and b words, with the parameters p. j and l are no part of it: each call changes them by itself.
#[derive(Clone, Copy)]
struct Blocks {
    m: usize,
    b: usize,
    p: Parameters,
}

// x T_a(j,l) in the place of x, of rank m, for a block x that `middle` lends. `act` tests the sizes beside; the
// compiler puts only the smaller of the two in the place of its calls.
#[cycle(act_on_block_each_level_middle)]
fn act_on_block(x: &mut [u64], work: &mut [u64], m: usize, j: usize, l: usize, p: Parameters)
    requires { ActPre m j l x.old work.old }
    ensures { x.new ≡ acted p m j l x.old }
{
    if l == 1 {
        letters::letter::<Forward>(x, m, j, p);
        return;
    }
    if l == 0 {
        return;
    }
    level(x, work, m, j, l, p);
}

// The same for any x and l of 2 and above. The blocks m - j to m - j + l of the result depend on one another; on each other
// block T_a(j,l) or T_a(j-1,l) acts by itself.
#[cycle(act_on_block_each_level_middle)]
pub(crate) fn level(x: &mut [u64], work: &mut [u64], m: usize, j: usize, l: usize, p: Parameters)
    requires { LevelPre m j l x.old work.old }
    ensures { x.new ≡ acted p m j l x.old }
{
    if m == 2 {
        level_of_rank_two(x, work, p);
        return;
    }
    let lower = m - 1;
    let parts = Blocks {
        m: lower,
        b: ranks::size(lower),
        p,
    };
    let low = (m - j) * parts.b;
    let high = low + l * parts.b + parts.b;
    parts.each(&mut x[0..low], work, m - j, j, l);
    parts.middle(&mut x[low..high], work, j, l);
    parts.each(&mut x[high..], work, j - l, j - 1, l);
}

impl Blocks {
    // T_a(j,l) acts on each of the n blocks of x.
    #[cycle(act_on_block_each_level_middle)]
    fn each(self, x: &mut [u64], work: &mut [u64], n: usize, j: usize, l: usize)
        requires { EachPre self.m self.b n j l x.old work.old }
        ensures { x.new ≡ blocks n (λ k. acted self.p self.m j l (block self.b k x.old)) }
    {
        for k in 0..n {
            let at = k * self.b;
            let end = at + self.b;
            level(&mut x[at..end], work, self.m, j, l, self.p);
        }
    }

    // The action on the l + 1 blocks of x that depend on one another. The sum of the parts is made in the first b words of work.
    #[cycle(act_on_block_each_level_middle)]
    fn middle(self, x: &mut [u64], work: &mut [u64], j: usize, l: usize)
        requires { MiddlePre self.m self.b j l x.old work.old }
        ensures { x.new ≡ joint self.p self.m self.b j l x.old }
    {
        for i in 0..l {
            let k = i + 1;
            let at = k * self.b;
            let end = at + self.b;
            act_on_block(
                &mut x[at..end],
                &mut work[self.b..],
                self.m,
                j - 1,
                i,
                self.p,
            );
            blocks::collect(work, x, self.b, k, i, self.p);
            act_on_block(
                &mut x[at..end],
                &mut work[self.b..],
                self.m,
                j - k,
                l - k,
                self.p,
            );
        }
        blocks::shift(x, work, self.b, l, self.p);
    }
}

// x T_a(2,2) in the place of x, of rank 2: the steps of `middle` for its three blocks of two words.
fn level_of_rank_two(x: &mut [u64], work: &mut [u64], p: Parameters)
    requires { TwoPre x.old work.old }
    ensures { x.new ≡ acted p 2 2 2 x.old }
{
    word_lists::load(&mut work[0..2], &x[2..4], 0);
    block_loops::exchange::<Forward>(&mut x[2..4], 1, p);
    block_loops::exchange::<Forward>(&mut x[4..], 1, p);
    block_loops::add_to(&mut work[0..2], &x[4..], p);
    blocks::shift(x, work, 2, 2, p);
}
