// The loops over the entries of a tower. That the entries are a tower is asked of each, since the checks of `perm_calls` answer for a slice.

ghost use Rattle.std.specs.Prelude.{◌≡◌, ◌++◌, ◌≤◌, length, drop};
ghost use Rattle.perms.specs.Permutation.{descent};
ghost use Rattle.perms.specs.Tower.{Tower, cycle, standard, images_of, total, mask};

pub(crate) fn total(tower: &[u8]) -> usize
    requires { length tower.now ≤ 63 }
    ensures { result ≡ total tower.now }
{
    tower.iter().map(|a| usize::from(*a)).sum()
}

// The letters of a(j, k), where k is the size of the slice. By index: of an adapter of `iter_mut` the prover knows nothing.
fn fill_cycle(word: &mut [u8], j: u8)
    requires { length word.old ≤ j }
    ensures { word.new ≡ cycle j (length word.old) }
{
    for i in 0..word.len() {
        word[i] = j - i as u8;
    }
}

pub(crate) fn fill_word(tower: &[u8], word: &mut [u8])
    requires { (length tower.now ≤ 63) × Tower (length tower.now) tower.now × (total tower.now ≤ length word.old) }
    ensures { word.new ≡ standard tower.now ++ drop (total tower.now) word.old }
{
    let mut at = 0;
    for (i, a) in tower.iter().enumerate() {
        let end = at + usize::from(*a);
        fill_cycle(&mut word[at..end], (i + 1) as u8);
        at = end;
    }
}

pub(crate) fn descent_mask(tower: &[u8]) -> u64
    requires { (length tower.now ≤ 63) × Tower (length tower.now) tower.now }
    ensures { result ≡ mask (descent (length tower.now) (images_of tower.now)) (length tower.now) }
{
    let mut mask: u64 = 0;
    // A shift by the index takes twice the time.
    let mut power: u64 = 1;
    let mut before: u8 = 0;
    for a in tower {
        mask += u64::from(before < *a) * power;
        power *= 2;
        before = *a;
    }
    mask
}
