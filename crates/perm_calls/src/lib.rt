// What the seven permutation and tower calls share: the checks of towers and buffers, and the set of generators that one call answers. What a call
// answers and writes is defined in specs/Calls; the work itself is in `image_walk`, `towers` and `tower_words`.

#![tactic(auto)]

pub mod checks;

// A set of generators: s_i is at bit i - 1 of the mask, and count is their number.
#[derive(Clone, Copy)]
pub struct Generators {
    pub mask: u64,
    pub count: u32,
}
