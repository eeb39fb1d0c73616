// The checks of the element calls, one for each number of document 01's row.

ghost use Rattle.std.specs.Prelude.{◌≡◌, ◌||◌, ℕ, map};
ghost use Rattle.std.specs.List.{position};
ghost use Rattle.lists.specs.Lists.{same, less};
ghost use Rattle.element_calls.specs.Calls.{rank_verdict, size_verdict, scratch_verdict, word_verdict};

use refusals::{Refusal, Verdict};

// Check 1, on the rank.
// Example: 7 is refused.
#[tactic(auto, unfolding(element_calls::specs::Calls::rank_verdict, lists::specs::Lists::less))]
pub fn rank(m: usize) -> Verdict
    ensures { result ≡ rank_verdict m }
{
    if 6 < m {
        return Err(Refusal::Rank);
    }
    Ok(())
}

// Check 2 on a slice of n words.
// Example: of rank 1, a slice of 3 words is refused.
#[tactic(auto, unfolding(element_calls::specs::Calls::size_verdict, lists::specs::Lists::same))]
pub fn sized(m: usize, n: usize) -> Verdict
    ensures { result ≡ size_verdict m n }
{
    if n != ranks::size(m) {
        return Err(Refusal::Size);
    }
    Ok(())
}

// Check 3 on a slice of n words.
// Example: of rank 1, a slice of 13 words is refused, since 14 are needed.
#[tactic(auto, unfolding(element_calls::specs::Calls::scratch_verdict, lists::specs::Lists::less))]
pub fn scratch(m: usize, n: usize) -> Verdict
    ensures { result ≡ scratch_verdict m n }
{
    if n < ranks::scratch_size(m) {
        return Err(Refusal::Scratch);
    }
    Ok(())
}

// A letter of a word, plain or signed: check 4 asks for its size alone.
pub(crate) trait Letter {
    ghost letter_size: { Self → ℕ };

    fn size(&self) -> usize
        ensures { result ≡ letter_size self.now };
}

impl Letter for u8 {
    ghost letter_size = { λ x. x };

    fn size(&self) -> usize {
        usize::from(*self)
    }
}

// The index of the first letter that is of size 0 or above m.
#[tactic(auto, unfolding(lists::specs::Lists::same, lists::specs::Lists::less))]
fn first_bad<L: Letter>(word: &[L], m: usize) -> Option<usize>
    ensures { result ≡ position (λ n. same n 0 || less m n) (map L.letter_size word.now) }
{
    word.iter().map(|z| z.size()).position(|n| n == 0 || m < n)
}

// Check 4, on a word of letters of either kind, by their sizes.
pub(crate) fn letters<L: Letter>(m: usize, word: &[L]) -> Verdict
    ensures { result ≡ word_verdict m (map L.letter_size word.now) }
{
    if 4096 < word.len() {
        return Err(Refusal::Word);
    }
    match first_bad(word, m) {
        Some(i) => Err(Refusal::Letter(i)),
        None => Ok(()),
    }
}

// Check 4, on a word.
// Example: of rank 1, the word 1 2 is refused for its second letter.
pub fn word(m: usize, word: &[u8]) -> Verdict
    ensures { result ≡ word_verdict m word.now }
{
    letters(m, word)
}
