// The actions of words, plain and signed, on elements of the Iwahori-Hecke algebra of type A, of rank 0 to 6, on lent slices of 64-bit
// words.
//
// An element of rank m is M = (m + 1)! words, its coefficients modulo 2^64. A call checks all it is given before it writes,
// and a refusal leaves every lent word as it was.

#![tactic(auto)]

ghost use Rattle.std.specs.Prelude.{◌≡◌, ℕ, suc, ◌*◌, ◌/◌, ◌≤◌};
ghost use Rattle.lists.specs.Numbers.{factorial};
ghost use Rattle.perms.specs.Permutation.{Word};
ghost use Rattle.algebra.specs.Product.{act};
ghost use Rattle.signed_words.specs.Words.{SignedLetter, SignedWord};
ghost use Rattle.element_calls.specs.Coefficients.{ring};
ghost use Rattle.element_calls.specs.Calls.{act_word_call, act_signed_word_call};
ghost use Rattle.word_actions.specs.Steps.{signed_lettered, signed_acted, ActionPre};

use block_loops::{Backward, Forward};
use element_calls::Parameters;
use element_checks::{checks, signed};
use refusals::{Answer, Refusal};

// The word's generators T_i act on the element of rank m, left to right: 3M/2 ring operations a letter.
// Refused: 1 a rank above 6; 2 an element that is not M words; 4 a word of over 4,096 letters, or the first letter that is 0
// or above m.
// Example: of rank 1 with q = 3, the word 1 1 makes 3 2 of 1 0.
#[tactic(auto, unfolding(element_calls::specs::Calls::act_word_call, refusals::specs::Refusals::ended))]
pub fn act_word(m: usize, q: u64, word: &[u8], element: &mut [u64]) -> Result<Answer, Refusal>
    ensures { act_word_call m q word.now element.old ≡ record { answer = result; lent = element.new } }
{
    checks::rank(m)?;
    checks::sized(m, element.len())?;
    checks::word(m, word)?;
    act_letters(element, word, m, element_checks::parameters_of(q));
    Ok(Answer {
        count: count_of_letters(word.len(), m),
    })
}

// The word's signed letters act on the element of rank m, left to right: i stands for T_i and -i for its inverse, q' T_i + (q' - 1)
// for the inverse q' of q. 3M/2 ring operations a letter, either way.
// Refused: 1 a rank above 6; 2 an element that is not M words; 4 a word of over 4,096 letters, or the first letter that is 0
// or outside -m to m; 15 the first letter below 0, if q is even and so has no inverse.
// Example: of rank 1 with q = 3, the word 1 1 -1 makes 0 1 of 1 0.
#[tactic(auto, unfolding(element_calls::specs::Calls::act_signed_word_call, refusals::specs::Refusals::ended))]
pub fn act_signed_word(
    m: usize,
    q: u64,
    word: &[i8],
    element: &mut [u64],
) -> Result<Answer, Refusal>
    ensures { act_signed_word_call m q word.now element.old ≡ record { answer = result; lent = element.new } }
{
    signed::check(m, element.len(), q, word)?;
    let p = element_checks::parameters_of(q);
    let back = signed::inverse_parameters(q, word);
    act_signed_letters(element, word, m, p, back);
    Ok(Answer {
        count: count_of_letters(word.len(), m),
    })
}

// The ring operations of the action of n letters on an element of rank m.
fn count_of_letters(n: usize, m: usize) -> u64
    requires { (n ≤ 4096) × (m ≤ 6) }
    ensures { result ≡ n * (3 * factorial (suc m) / 2) }
{
    n as u64 * (3 * ranks::size(m) as u64 / 2)
}

// The letters act on x one by one.
fn act_letters(x: &mut [u64], word: &[u8], m: usize, p: Parameters)
    requires { ActionPre m (Word m word.now) x.old }
    ensures { x.new ≡ act ℕ (ring p) p.q p.r m word.now x.old }
{
    for letter in word {
        letters::letter::<Forward>(x, m, usize::from(*letter), p);
    }
}

// The letter z on x, of rank m: with p, or below 0 the inverse of its generator, with back.
fn signed_letter(x: &mut [u64], z: i8, m: usize, p: Parameters, back: Parameters)
    requires { ActionPre m (SignedLetter m z) x.old }
    ensures { x.new ≡ signed_lettered p back m z x.old }
{
    let j = signed::size_of(z);
    if z < 0 {
        letters::letter::<Backward>(x, m, j, back);
    } else {
        letters::letter::<Forward>(x, m, j, p);
    }
}

// The signed letters act on x one by one. Apart from `act_letters`, whose letters have no sign to test.
fn act_signed_letters(x: &mut [u64], word: &[i8], m: usize, p: Parameters, back: Parameters)
    requires { ActionPre m (SignedWord m word.now) x.old }
    ensures { x.new ≡ signed_acted p back m word.now x.old }
{
    for letter in word {
        signed_letter(x, *letter, m, p, back);
    }
}
