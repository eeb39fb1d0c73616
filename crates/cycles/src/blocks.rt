// What a step of the action and its end do to blocks of an element, for the parameters p. Block k is lent as the part from k b on, the
// form that document 01 asks for.

ghost use Rattle.std.specs.Prelude.{◌≡◌, suc, ◌+◌, ◌*◌, ◌≤◌, length, take};
ghost use Rattle.lists.specs.Blocks.{block};
ghost use Rattle.cycles.specs.Steps.{collected, shifted};

use element_calls::Parameters;

// Block k of x is added to the first b words of sum; for i = 0 it replaces them.
pub(crate) fn collect(sum: &mut [u64], x: &[u64], b: usize, k: usize, i: usize, p: Parameters)
    requires { (b ≤ length sum.old) × (k * b + b ≤ length x.now) }
    ensures { take b sum.new ≡ collected p i (take b sum.old) (block b k x.now) }
{
    let at = k * b;
    let end = at + b;
    if i == 0 {
        word_lists::load(&mut sum[0..b], &x[at..end], 0);
        return;
    }
    block_loops::add_to(&mut sum[0..b], &x[at..end], p);
}

// The blocks of x after the first, times q, move one block down, each through a part that begins where it goes; the last block
// becomes the first one plus r times the first b words of sum.
pub(crate) fn shift(x: &mut [u64], sum: &mut [u64], b: usize, l: usize, p: Parameters)
    requires { (length x.old ≡ suc l * b) × (b ≤ length sum.old) }
    ensures { x.new ≡ shifted p b x.old (take b sum.old) }
{
    block_loops::fold_into(&mut sum[0..b], &x[0..b], p);
    for i in 0..l {
        let at = i * b;
        let end = at + b + b;
        block_loops::move_down(&mut x[at..end], b, p);
    }
    let top = l * b;
    word_lists::load(&mut x[top..], &sum[0..b], 0);
}
