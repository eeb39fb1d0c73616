// What the seven element calls check, answer and write, as definitions (specs/), and what is claimed of it. The checks are in
// `element_checks`, and the work itself in `linear`, `word_actions`, `hecke`, `pairings` and `traces`.

#![tactic(auto)]

// The parameters of the algebra: q, and r = q - 1.
#[derive(Clone, Copy)]
pub struct Parameters {
    pub q: u64,
    pub r: u64,
}
