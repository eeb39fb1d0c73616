// What a rank says, for the library and the sheets: the size of an element, the scratch and the count of a product.

#![tactic(auto)]

ghost use Rattle.std.specs.Prelude.{◌≡◌};
ghost use Rattle.ranks.specs.Ranks.{size, scratch_size, product_count};

// M, the number of words of an element of rank m; 0 above rank 6.
// Example: an element of rank 2 has 6 words.
#[tactic(auto, using(crate::proofs::Sizes::sizes, crate::proofs::Sizes::size_none))]
pub fn size(m: usize) -> usize
    ensures { result ≡ size m }
{
    match m {
        0 => 1,
        1 => 2,
        2 => 6,
        3 => 24,
        4 => 120,
        5 => 720,
        6 => 5040,
        _ => 0,
    }
}

// (m + 6) M, the number of words of scratch that a product of rank m needs; 0 above rank 6.
// Example: a product of rank 1 needs 14.
#[tactic(auto, using(crate::proofs::Sizes::scratch_size_none, crate::proofs::Sizes::scratch_fits, crate::proofs::Sizes::scratch_is))]
pub fn scratch_size(m: usize) -> usize
    ensures { result ≡ scratch_size m }
{
    if 6 < m {
        return 0;
    }
    (m + 6) * size(m)
}

// C(m, m), the ring operations of a product of rank m; 0 above rank 6.
// Example: a product of rank 1 takes 9.
#[tactic(auto, using(crate::proofs::Sizes::counts, crate::proofs::Sizes::product_count_none))]
pub fn product_count(m: usize) -> u64
    ensures { result ≡ product_count m }
{
    match m {
        0 => 1,
        1 => 9,
        2 => 118,
        3 => 2152,
        4 => 55840,
        5 => 2027640,
        6 => 99518160,
        _ => 0,
    }
}
