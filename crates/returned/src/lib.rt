// What a call for C and Rust returns, by what it answers or why it is refused: one word, and words at the front of a lent answer.

#![tactic(auto, using(crate::proofs::Told::fill_one, crate::proofs::Told::fill_two), unfolding(crate::specs::Returned::word_of))]

ghost use Rattle.std.specs.Prelude.{◌≡◌, ℕ, List, set};
ghost use Rattle.refusals.specs.Refusals.{verdict_report};
ghost use Rattle.returned.specs.Returned.{word_of, fill, number_words, count_words, set_words, returns};

use perm_calls::Generators;
use refusals::{Answer, Refusal, Verdict};

// The word x at index i, where the answer has such a word.
fn put(answer: &mut [u64], i: usize, x: u64)
    ensures { answer.new ≡ set answer.old i x }
{
    if i < answer.len() {
        answer[i] = x;
    }
}

// What a call answers in words.
pub trait Words {
    // The words of the answer.
    ghost words: { Self → List ℕ };

    // The words at the front of the lent answer, as many as it has room for.
    // Example: of a set with the generator 2 alone, whose words are 2 and 1, an answer of one word takes the 2.
    fn put(self, answer: &mut [u64])
        ensures { answer.new ≡ fill (words self) answer.old };
}

impl Words for u64 {
    ghost words = { number_words };

    fn put(self, answer: &mut [u64]) {
        put(answer, 0, self)
    }
}

impl Words for usize {
    ghost words = { number_words };

    fn put(self, answer: &mut [u64]) {
        put(answer, 0, self as u64)
    }
}

impl Words for Answer {
    ghost words = { count_words };

    fn put(self, answer: &mut [u64]) {
        put(answer, 0, self.count)
    }
}

impl Words for Generators {
    ghost words = { set_words };

    fn put(self, answer: &mut [u64]) {
        put(answer, 0, self.mask);
        put(answer, 1, u64::from(self.count))
    }
}

// 0 where nothing is refused; else the number in the lowest 8 bits, and the place above them.
// Example: for an image at index 1 that is refused it returns 6 + 256.
pub fn word(verdict: Verdict) -> u64
    ensures { result ≡ word_of (verdict_report verdict) }
{
    match verdict {
        Ok(()) => 0,
        Err(why) => {
            u64::from(refusals::number_of(why)) + ((refusals::place_of(why) as u64) << 8)
        }
    }
}

// The word, and what a call answers at the front of the answer; a refusal leaves the answer as it was.
// Example: for the length 2 it returns 0 and answers 2.
pub fn returned<T: Words>(answered: Result<T, Refusal>, answer: &mut [u64]) -> u64
    ensures { returns T.words answered answer.old ≡ record { word = result; lent = answer.new } }
{
    match answered {
        Ok(x) => {
            x.put(answer);
            0
        }
        Err(why) => word(Err(why)),
    }
}
