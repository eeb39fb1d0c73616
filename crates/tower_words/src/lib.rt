// What is read off a tower, on lent bytes: the length, the standard word and the descents.
//
// A tower is the inversion table of a permutation. A call checks all it is given before it writes, and a refusal leaves every
// lent byte as it was.

#![tactic(auto)]

ghost use Rattle.std.specs.Prelude.{◌≡◌};
ghost use Rattle.perm_calls.specs.Calls.{length_call, standard_word_call, descents_call};

use perm_calls::{Generators, checks};
use refusals::Refusal;

mod entry_loops;

// The length of a tower's permutation, the sum of the entries.
// Refused: 5 over 63 entries; 7 the first entry a_j above j.
// Example: 0 2 gives 2.
#[tactic(auto, using(perm_calls::proofs::Verdicts::tower_accepted, perms::proofs::Lengths::len_images_of), unfolding(perm_calls::specs::Calls::length_call))]
pub fn length(tower: &[u8]) -> Result<usize, Refusal>
    ensures { result ≡ length_call tower.now }
{
    checks::tower(tower)?;
    Ok(entry_loops::total(tower))
}

// The standard shortest word of a tower's permutation, and the number of its letters. Bytes after them stay.
// Refused: 5 over 63 entries; 7 the first entry a_j above j; 8 a buffer shorter than the word.
// Example: 0 2 gives the word 2 1.
#[tactic(auto, using(perm_calls::proofs::Verdicts::tower_accepted, perm_calls::proofs::Verdicts::room_accepted, perms::proofs::Lengths::len_images_of, perms::proofs::Lengths::length_standard), unfolding(perm_calls::specs::Calls::standard_word_call, refusals::specs::Refusals::ended))]
pub fn standard_word(tower: &[u8], word: &mut [u8]) -> Result<usize, Refusal>
    ensures { standard_word_call tower.now word.old ≡ record { answer = result; lent = word.new } }
{
    checks::tower(tower)?;
    let letters = entry_loops::total(tower);
    checks::room(word.len(), letters)?;
    entry_loops::fill_word(tower, word);
    Ok(letters)
}

// The descent set of a tower's permutation w, the s_i with a shorter s_i w.
// Refused: 5 over 63 entries; 7 the first entry a_j above j.
// Example: 0 2 gives the mask 2, with one generator.
#[tactic(auto, using(perm_calls::proofs::Verdicts::tower_accepted, perms::proofs::Mask::ones_mask), unfolding(perm_calls::specs::Calls::descents_call))]
pub fn descents(tower: &[u8]) -> Result<Generators, Refusal>
    ensures { result ≡ descents_call tower.now }
{
    checks::tower(tower)?;
    let mask = entry_loops::descent_mask(tower);
    Ok(Generators {
        mask,
        count: mask.count_ones(),
    })
}
