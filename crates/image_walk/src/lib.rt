// The tower of an image list, in one walk over the list: an image is read once, and vetted and counted together.

#![tactic(auto)]

ghost use Rattle.std.specs.Prelude.{◌≡◌, ◌≤◌, length};
ghost use Rattle.perm_calls.specs.Calls.{tower_of_call};
ghost use Rattle.image_walk.specs.Walk.{Walked, Vetted};

use perm_calls::checks;
use refusals::{Refusal, Verdict};

// The index of the first bad image, if there is one. Up to it, an image's entry of the tower goes to its index in `entries`,
// a_0 first. In the mask of the images seen, x is at bit x - 1; for 0 this is 255.
fn walk(images: &[u8], entries: &mut [u8; 64]) -> Option<usize>
    requires { length images.now ≤ 64 }
    ensures { Walked images.now entries.new result }
{
    let mut seen: u64 = 0;
    for (i, x) in images.iter().enumerate() {
        let bit = x.wrapping_sub(1);
        if images.len() <= usize::from(bit) {
            return Some(i);
        }
        let from = seen >> bit;
        if from % 2 == 1 {
            return Some(i);
        }
        entries[i] = from.count_ones() as u8;
        seen |= 1 << bit;
    }
    None
}

// Checks 5 and 6, and the entries of a list that passes them.
fn vet(images: &[u8], entries: &mut [u8; 64]) -> Verdict
    ensures { Vetted images.now entries.new result }
{
    if images.is_empty() || 64 < images.len() {
        return Err(Refusal::Length);
    }
    match walk(images, entries) {
        Some(i) => Err(Refusal::Image(i)),
        None => Ok(()),
    }
}

// The tower of an image list: for each point after the first, how many points before it have a larger image.
// Refused: 5 no image or over 64; 6 the first image that is 0, too large or already seen; 8 a buffer of another size.
// Example: 2 3 1 gives 0 2.
#[tactic(auto, using(crate::proofs::CallEnds::sized, crate::proofs::CallEnds::tower_left, perm_calls::proofs::Verdicts::exact_accepted), unfolding(perm_calls::specs::Calls::tower_of_call, refusals::specs::Refusals::ended))]
pub fn tower_of(images: &[u8], tower: &mut [u8]) -> Verdict
    ensures { tower_of_call images.now tower.old ≡ record { answer = result; lent = tower.new } }
{
    let mut entries = [0u8; 64];
    vet(images, &mut entries)?;
    checks::exact(tower.len() + 1, images.len())?;
    tower.copy_from_slice(&entries[1..images.len()]);
    Ok(())
}
