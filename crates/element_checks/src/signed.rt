// Words of signed letters, from -m to m: their checks, and the parameters of the inverse letters.

ghost use Rattle.std.specs.Prelude.{◌≡◌, nat_abs};
ghost use Rattle.std.specs.List.{position};
ghost use Rattle.signed_words.specs.Words.{is_below};
ghost use Rattle.element_calls.specs.Calls.{signed_word_verdict, inverse_verdict, signed_verdict};
ghost use Rattle.element_calls.specs.Steps.{asked_parameters};

use crate::{checks, parameters_of};
use checks::Letter;
use element_calls::Parameters;
use refusals::{Refusal, Verdict};

// The absolute value of a letter.
// Example: that of -128 is 128.
pub fn size_of(z: i8) -> usize
    ensures { result ≡ nat_abs z }
{
    usize::from(z.unsigned_abs())
}

impl Letter for i8 {
    ghost letter_size = { nat_abs };

    fn size(&self) -> usize {
        size_of(*self)
    }
}

// Check 4, on a word of signed letters.
fn letters(m: usize, word: &[i8]) -> Verdict
    ensures { result ≡ signed_word_verdict m word.now }
{
    checks::letters(m, word)
}

// The index of the first letter below 0.
#[tactic(auto, unfolding(signed_words::specs::Words::is_below))]
fn first_below(word: &[i8]) -> Option<usize>
    ensures { result ≡ position is_below word.now }
{
    word.iter().position(|z| *z < 0)
}

// Check 15, on a word of signed letters: no letter needs an inverse that q lacks.
fn invertible(q: u64, word: &[i8]) -> Verdict
    ensures { result ≡ inverse_verdict q word.now }
{
    if inverses::has_inverse(q) {
        return Ok(());
    }
    match first_below(word) {
        Some(i) => Err(Refusal::NoInverse(i)),
        None => Ok(()),
    }
}

// The checks of the action of a word on a slice of n words, for q.
// Example: of rank 1 with q = 2, the word 1 -1 is refused for its second letter, since 2 has no inverse.
pub fn check(m: usize, n: usize, q: u64, word: &[i8]) -> Verdict
    ensures { result ≡ signed_verdict m n q word.now }
{
    checks::rank(m)?;
    checks::sized(m, n)?;
    letters(m, word)?;
    invertible(q, word)
}

// The parameters of the inverse letters: q' and q' - 1, for the inverse q' of q. Where no letter of the word is below 0 or q has
// no inverse, they are those of q.
// Example: for the word 1 -1 and q = 3, q' is 0xaaaa_aaaa_aaaa_aaab.
pub fn inverse_parameters(q: u64, word: &[i8]) -> Parameters
    ensures { result ≡ asked_parameters q word.now }
{
    match first_below(word) {
        Some(_) => parameters_of(inverses::inverse_of(q).unwrap_or(q)),
        None => parameters_of(q),
    }
}
