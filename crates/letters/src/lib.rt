// One letter on an element, T_j or its inverse, in the place of the element, for the parameters p. Where the rank, the letter and the
// size do not fit, nothing is written.

#![tactic(auto)]

ghost use Rattle.std.specs.Prelude.{◌≡◌, suc, ◌+◌};
ghost use Rattle.lists.specs.Numbers.{factorial};
ghost use Rattle.lists.specs.Blocks.{block, blocks};
ghost use Rattle.letters.specs.Sizes.{two, three, four, five};
ghost use Rattle.letters.specs.Letters.{lettered, letter_fits, letter_in, LetterPre, EachLetterPre};

use block_loops::Direction;
use element_calls::Parameters;

// x T_j, or x times the inverse of T_j, for which p has q' and q' - 1, in the place of x, of rank m.
// Example: of rank 1 with q = 3 and r = 2, T_1 makes 12 10 of 2 4; its inverse with q' = 3 and q' - 1 = 2 makes 8 6.
pub fn letter<W: Direction>(x: &mut [u64], m: usize, j: usize, p: Parameters)
    ensures { x.new ≡ letter_in W.way p m j x.old }
{
    if !letter_fits(m, j, x.len()) {
        return;
    }
    match m {
        1 => block_loops::exchange::<W>(x, 1, p),
        2 => Two::letter::<W>(x, j, p),
        3 => by_blocks::<2, 6, Two, W>(x, j, p),
        4 => by_blocks::<3, 24, Three, W>(x, j, p),
        5 => by_blocks::<4, 120, Four, W>(x, j, p),
        _ => by_blocks::<5, 720, Five, W>(x, j, p),
    }
}

// Whether j is a letter of rank m, at most 6, and n the number of words of an element.
#[tactic(auto, using(ranks::proofs::Sizes::size_is), unfolding(crate::specs::Letters::letter_fits, lists::specs::Lists::same, lists::specs::Lists::less))]
fn letter_fits(m: usize, j: usize, n: usize) -> bool
    ensures { result ≡ letter_fits m j n }
{
    0 < j && j <= m && m <= 6 && n == ranks::size(m)
}

// A rank R of blocks as a type, with the number B of their words known when compiled.
trait Rank<const R: usize, const B: usize> {
    // The letter j on x.
    fn letter<W: Direction>(x: &mut [u64], j: usize, p: Parameters)
        requires { LetterPre R j x.old }
        ensures { x.new ≡ lettered W.way p R j x.old };

    ghost words: { B ≡ factorial (suc R) };
}

// A type for each rank, since a constant argument cannot be computed from the rank below.
struct Two;

struct Three;

struct Four;

struct Five;

impl Rank<2, 6> for Two {
    fn letter<W: Direction>(x: &mut [u64], j: usize, p: Parameters) {
        if j == 1 {
            block_loops::exchange::<W>(&mut x[0..2], 1, p);
            block_loops::exchange::<W>(&mut x[2..], 2, p);
            return;
        }
        block_loops::exchange::<W>(&mut x[0..4], 2, p);
        block_loops::exchange::<W>(&mut x[4..], 1, p);
    }

    ghost words = { two };
}

impl Rank<3, 24> for Three {
    fn letter<W: Direction>(x: &mut [u64], j: usize, p: Parameters) {
        by_blocks::<2, 6, Two, W>(x, j, p);
    }

    ghost words = { three };
}

impl Rank<4, 120> for Four {
    fn letter<W: Direction>(x: &mut [u64], j: usize, p: Parameters) {
        by_blocks::<3, 24, Three, W>(x, j, p);
    }

    ghost words = { four };
}

impl Rank<5, 720> for Five {
    fn letter<W: Direction>(x: &mut [u64], j: usize, p: Parameters) {
        by_blocks::<4, 120, Four, W>(x, j, p);
    }

    ghost words = { five };
}

// The letter j on x, of the rank R + 1. The blocks R + 1 - j and R + 2 - j change together; on each other block the letter j or j - 1
// acts by itself. Not inlined, since `letter` would then take 1.1 times as long at ranks 1 and 2.
#[inline(never)]
fn by_blocks<const R: usize, const B: usize, L: Rank<R, B>, W: Direction>(
    x: &mut [u64],
    j: usize,
    p: Parameters,
)
    requires { LetterPre (R + 1) j x.old }
    ensures { x.new ≡ lettered W.way p (R + 1) j x.old }
{
    let before = R + 1 - j;
    let low = before * B;
    let high = low + B + B;
    each::<R, B, L, W>(&mut x[0..low], before, j, p);
    block_loops::exchange::<W>(&mut x[low..high], B, p);
    each::<R, B, L, W>(&mut x[high..], j - 1, j - 1, p);
}

// The letter j acts on each of the n blocks of x, of rank R. Block k is lent as the part from k B on, as document 01 asks.
fn each<const R: usize, const B: usize, L: Rank<R, B>, W: Direction>(
    x: &mut [u64],
    n: usize,
    j: usize,
    p: Parameters,
)
    requires { EachLetterPre R B n j x.old }
    ensures { x.new ≡ blocks n (λ k. lettered W.way p R j (block B k x.old)) }
{
    for k in 0..n {
        let at = k * B;
        let end = at + B;
        L::letter::<W>(&mut x[at..end], j, p);
    }
}
