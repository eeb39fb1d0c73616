// Loops over blocks of coefficients on lent slices, for the parameters p: added, multiplied, moved, exchanged. Where the sizes do not
// fit, nothing is written. Where there is one, d is the destination and s the source. The loops go by index, since the prover knows
// nothing of a slice after an adapter of `iter_mut`.

#![tactic(auto)]

ghost use Rattle.std.specs.Prelude.{◌≡◌};
ghost use Rattle.block_loops.specs.declared.Way.{Way};
ghost use Rattle.block_loops.specs.declared.Way.TheVariants;
ghost use Rattle.block_loops.specs.InPlace.{add_to, add_multiple, fold_into, move_down, exchanging, exchange_in};

use element_calls::Parameters;

// Which way a letter goes: T_j, with the parameters of q, or its inverse, with those of the inverse of q. Contracts speak of it by
// this value, and code by the types `Forward` and `Backward`.
#[derive(Clone, Copy)]
pub enum Way {
    Forward,
    Backward,
}

// A way as a type, so that the loops of each way are compiled by themselves.
// Example: for q = 3 and r = 2, `Forward::step` makes 12 10 of 2 4, and `Backward::step` 8 6.
pub trait Direction {
    ghost way: { Way };

    // What a letter makes of two words.
    fn step(s: u64, t: u64, p: Parameters) -> (u64, u64)
        ensures shorter { result.0 ≡ (exchanging way p).shorter s t }
        ensures longer { result.1 ≡ (exchanging way p).longer s t };
}

pub struct Forward;

pub struct Backward;

#[tactic(auto, unfolding(crate::specs::InPlace::exchanging, element_calls::specs::Coefficients::modulus))]
impl Direction for Forward {
    ghost way = { TheVariants.Forward };

    // q t and s + r t.
    fn step(s: u64, t: u64, p: Parameters) -> (u64, u64) {
        (ring::mul(p.q, t), ring::add(s, ring::mul(p.r, t)))
    }
}

#[tactic(auto, unfolding(crate::specs::InPlace::exchanging, element_calls::specs::Coefficients::modulus))]
impl Direction for Backward {
    ghost way = { TheVariants.Backward };

    // t + r s and q s.
    fn step(s: u64, t: u64, p: Parameters) -> (u64, u64) {
        (ring::add(t, ring::mul(p.r, s)), ring::mul(p.q, s))
    }
}

// d + s in the place of d.
// Example: for 2 3 and 4 5, 2 3 becomes 6 8.
#[tactic(auto, unfolding(crate::specs::InPlace::add_to, lists::specs::Lists::same))]
pub fn add_to(d: &mut [u64], s: &[u64], p: Parameters)
    ensures { d.new ≡ add_to p d.old s.now }
{
    if d.len() != s.len() {
        return;
    }
    for i in 0..s.len() {
        d[i] = ring::add(d[i], s[i]);
    }
}

// d + c s in the place of d, from the end.
// Example: for 2 3, the word 10 and 4 5, 2 3 becomes 42 53.
#[tactic(auto, unfolding(crate::specs::InPlace::add_multiple, lists::specs::Lists::same))]
pub fn add_multiple(d: &mut [u64], c: u64, s: &[u64], p: Parameters)
    ensures { d.new ≡ add_multiple p d.old c s.now }
{
    if d.len() != s.len() {
        return;
    }
    for i in (0..s.len()).rev() {
        d[i] = ring::add(d[i], ring::mul(c, s[i]));
    }
}

// s + r d in the place of d.
// Example: for r = 2, 2 3 and 4 5, 2 3 becomes 8 11.
#[tactic(auto, unfolding(crate::specs::InPlace::fold_into, lists::specs::Lists::same))]
pub fn fold_into(d: &mut [u64], s: &[u64], p: Parameters)
    ensures { d.new ≡ fold_into p d.old s.now }
{
    if d.len() != s.len() {
        return;
    }
    for i in 0..s.len() {
        d[i] = ring::add(s[i], ring::mul(p.r, d[i]));
    }
}

// q times the second of two blocks of b words in the place of the first, from the end.
// Example: for q = 3 and blocks of one word, 2 4 becomes 12 4.
#[tactic(auto, unfolding(crate::specs::InPlace::move_down, lists::specs::Lists::same))]
pub fn move_down(x: &mut [u64], b: usize, p: Parameters)
    ensures { x.new ≡ move_down p b x.old }
{
    if x.len() < b || x.len() - b != b {
        return;
    }
    for i in (0..b).rev() {
        x[i] = ring::mul(p.q, x[b + i]);
    }
}

// What a letter makes of two blocks of b words, from the end.
// Example: for q = 3, r = 2 and blocks of one word, 2 4 becomes 12 10; the other way 8 6.
#[tactic(auto, unfolding(crate::specs::InPlace::exchange_in, lists::specs::Lists::same))]
pub fn exchange<W: Direction>(x: &mut [u64], b: usize, p: Parameters)
    ensures { x.new ≡ exchange_in W.way p b x.old }
{
    if x.len() < b || x.len() - b != b {
        return;
    }
    for i in (0..b).rev() {
        let (s, t) = W::step(x[i], x[b + i], p);
        x[i] = s;
        x[b + i] = t;
    }
}
