// The checks of towers and buffers: the first refusal in document 01's order. The search is a loop: in a closure of `position` the prover
// knows no bound of the index.

ghost use Rattle.std.specs.Prelude.{◌≡◌, length};
ghost use Rattle.perm_calls.specs.Calls.{found, first_bad_entry, entries_verdict, tower_verdict, towers_verdict, exact, room};

use refusals::{Refusal, Verdict};

// The index of the first entry a_j above j, if there is one.
fn first_bad_entry(tower: &[u8]) -> Option<usize>
    ensures { result ≡ found (first_bad_entry tower.now) (length tower.now) }
{
    for (i, a) in tower.iter().enumerate() {
        if i + 1 < usize::from(*a) {
            return Some(i);
        }
    }
    None
}

#[tactic(auto, unfolding(crate::specs::Calls::entries_verdict))]
fn entries(tower: &[u8]) -> Verdict
    ensures { result ≡ entries_verdict tower.now }
{
    match first_bad_entry(tower) {
        Some(i) => Err(Refusal::Entry(i)),
        None => Ok(()),
    }
}

// Checks 5 and 7 on a tower.
// Example: 0 3 is refused for its second entry.
#[tactic(auto, unfolding(crate::specs::Calls::tower_verdict, lists::specs::Lists::less))]
pub fn tower(tower: &[u8]) -> Verdict
    ensures { result ≡ tower_verdict tower.now }
{
    if 63 < tower.len() {
        return Err(Refusal::Length);
    }
    entries(tower)
}

// Checks 5 and 7 on two towers.
// Example: 0 and 0 0 are refused for their lengths.
#[tactic(auto, unfolding(crate::specs::Calls::towers_verdict, lists::specs::Lists::less, lists::specs::Lists::same))]
pub fn towers(left: &[u8], right: &[u8]) -> Verdict
    ensures { result ≡ towers_verdict left.now right.now }
{
    if 63 < left.len() {
        return Err(Refusal::Length);
    }
    if 63 < right.len() {
        return Err(Refusal::Length);
    }
    if left.len() != right.len() {
        return Err(Refusal::Length);
    }
    entries(left)?;
    entries(right)
}

// Check 8 on a buffer of some size for a result of n bytes.
// Example: a buffer of 3 bytes is refused for a result of 2.
#[tactic(auto, unfolding(crate::specs::Calls::exact, lists::specs::Lists::same))]
pub fn exact(size: usize, n: usize) -> Verdict
    ensures { result ≡ exact size n }
{
    if size != n {
        return Err(Refusal::Buffer);
    }
    Ok(())
}

// Check 8 on a buffer of some size for a word of n letters.
// Example: a buffer of 3 bytes has room for a word of 2 letters.
#[tactic(auto, unfolding(crate::specs::Calls::room, lists::specs::Lists::less))]
pub fn room(size: usize, n: usize) -> Verdict
    ensures { result ≡ room size n }
{
    if size < n {
        return Err(Refusal::Buffer);
    }
    Ok(())
}
