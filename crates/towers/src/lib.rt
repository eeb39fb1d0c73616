// Permutations of up to 64 points by their towers, on lent bytes: the image list of a tower, the inverse and the product.
//
// A permutation is the list of its images; a tower is its inversion table. A call checks all it is given before it
// writes, and a refusal leaves every lent byte as it was.

#![tactic(auto)]

ghost use Rattle.std.specs.Prelude.{◌≡◌};
ghost use Rattle.perm_calls.specs.Calls.{images_of_call, inverse_call, product_call};

use perm_calls::checks;
use refusals::Verdict;

mod image_lists;

// The image list of a tower.
// Refused: 5 over 63 entries; 7 the first entry a_j above j; 8 a buffer of another size.
// Example: 0 2 gives 2 3 1.
#[tactic(auto, using(perm_calls::proofs::Verdicts::tower_accepted, perm_calls::proofs::Verdicts::exact_accepted), unfolding(perm_calls::specs::Calls::images_of_call, refusals::specs::Refusals::ended))]
pub fn images_of(tower: &[u8], images: &mut [u8]) -> Verdict
    ensures { images_of_call tower.now images.old ≡ record { answer = result; lent = images.new } }
{
    checks::tower(tower)?;
    checks::exact(images.len(), tower.len() + 1)?;
    image_lists::fill_images(tower, images);
    Ok(())
}

// The tower of the inverse of a tower's permutation.
// Refused: 5 over 63 entries; 7 the first entry a_j above j; 8 a buffer of another size.
// Example: 0 2 gives 1 1.
#[tactic(auto, using(perm_calls::proofs::Verdicts::tower_accepted, perm_calls::proofs::Verdicts::exact_accepted), unfolding(perm_calls::specs::Calls::inverse_call, refusals::specs::Refusals::ended))]
pub fn inverse(tower: &[u8], res: &mut [u8]) -> Verdict
    ensures { inverse_call tower.now res.old ≡ record { answer = result; lent = res.new } }
{
    checks::tower(tower)?;
    checks::exact(res.len(), tower.len())?;
    image_lists::fill_tower_of_inverse(tower, res);
    Ok(())
}

// The tower of the product of two towers' permutations, the first of which acts first.
// Refused: 5 over 63 entries, or unequal sizes; 7 the first entry a_j above j, of the first tower, then of the second;
// 8 a buffer of another size.
// Example: 0 2 and 0 1 give 1 2.
#[tactic(auto, using(perm_calls::proofs::Verdicts::towers_accepted, perm_calls::proofs::Verdicts::exact_accepted), unfolding(perm_calls::specs::Calls::product_call, refusals::specs::Refusals::ended))]
pub fn product(left: &[u8], right: &[u8], res: &mut [u8]) -> Verdict
    ensures { product_call left.now right.now res.old ≡ record { answer = result; lent = res.new } }
{
    checks::towers(left, right)?;
    checks::exact(res.len(), left.len())?;
    image_lists::fill_tower_of_product(left, right, res);
    Ok(())
}
