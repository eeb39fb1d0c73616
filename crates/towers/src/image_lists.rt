// Image lists and towers made one from the other, and the inverse and the product of image lists. That a list is a tower is asked of each,
// since the checks of `perm_calls` answer for a slice.

ghost use Rattle.std.specs.Prelude.{◌≡◌, ◌++◌, ℕ, suc, pred, ◌≤◌, ◌<◌, length, get_or, take, drop};
ghost use Rattle.perms.specs.Permutation.{Perm, inverse, product};
ghost use Rattle.perms.specs.Tower.{tower_of, Tower, images_of};
ghost use Rattle.perms.specs.Extend.{extend};
ghost use Rattle.towers.specs.Steps.{OneTower, TwoTowers};

// In the mask of the images before, the image x is at bit x - 1. By index: of an adapter of `iter_mut` the prover knows nothing.
pub(crate) fn fill_tower(images: &[u8], tower: &mut [u8])
    requires { (length tower.old ≤ 63) × Perm (length tower.old) images.now }
    ensures { tower.new ≡ tower_of images.now }
{
    let mut seen: u64 = 0;
    for i in 0..tower.len() {
        seen += 1 << (images[i] - 1);
        tower[i] = (seen >> (images[i + 1] - 1)).count_ones() as u8;
    }
}

// Each of the first j images from x on becomes one more, and the image x is put after them.
fn extend_at(images: &mut [u8], j: usize, x: u8)
    requires { (j < length images.old) × ((i : ℕ) → i < j → get_or images.old i 0 < 255) }
    ensures { images.new ≡ extend x (take j images.old) ++ drop (suc j) images.old }
{
    for y in images[..j].iter_mut() {
        *y += u8::from(x <= *y);
    }
    images[j] = x;
}

pub(crate) fn fill_images(tower: &[u8], images: &mut [u8])
    requires { (length images.old ≡ suc (length tower.now)) × (length tower.now ≤ 63) × Tower (length tower.now) tower.now }
    ensures { images.new ≡ images_of tower.now }
{
    images[0] = 1;
    for (i, a) in tower.iter().enumerate() {
        extend_at(images, i + 1, (i + 2) as u8 - *a);
    }
}

fn fill_inverse(images: &[u8], points: &mut [u8])
    requires { (length points.old ≡ length images.now) × (length images.now ≤ 64) × Perm (pred (length images.now)) images.now }
    ensures { points.new ≡ inverse images.now }
{
    for (i, x) in images.iter().enumerate() {
        points[usize::from(*x) - 1] = (i + 1) as u8;
    }
}

fn compose(images: &mut [u8], next: &[u8])
    requires { (length images.old ≡ length next.now) × Perm (pred (length images.old)) images.old }
    ensures { images.new ≡ product images.old next.now }
{
    for x in images.iter_mut() {
        *x = next[usize::from(*x) - 1];
    }
}

// The tower of the inverse, by way of the two image lists.
pub(crate) fn fill_tower_of_inverse(tower: &[u8], res: &mut [u8])
    requires { OneTower tower.now res.old }
    ensures { res.new ≡ tower_of (inverse (images_of tower.now)) }
{
    let n = tower.len() + 1;
    let mut images = [0u8; 64];
    let mut points = [0u8; 64];
    let images = &mut images[..n];
    let points = &mut points[..n];
    fill_images(tower, images);
    fill_inverse(images, points);
    fill_tower(points, res);
}

// The tower of the product, by way of the two image lists.
pub(crate) fn fill_tower_of_product(left: &[u8], right: &[u8], res: &mut [u8])
    requires { TwoTowers left.now right.now res.old }
    ensures { res.new ≡ tower_of (product (images_of left.now) (images_of right.now)) }
{
    let n = left.len() + 1;
    let mut images = [0u8; 64];
    let mut seconds = [0u8; 64];
    let images = &mut images[..n];
    let seconds = &mut seconds[..n];
    fill_images(left, images);
    fill_images(right, seconds);
    compose(images, seconds);
    fill_tower(images, res);
}
