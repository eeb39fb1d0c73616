// The inverse of a word modulo 2^64.

#![tactic(auto)]

ghost use Rattle.std.specs.Prelude.{◌≡◌};
ghost use Rattle.ring.specs.Modular.{word_modulus};
ghost use Rattle.inverses.specs.Inverses.{has_inverse, inverse_of};
ghost use Rattle.inverses.specs.Steps.{Closer};

// Whether a word has an inverse modulo 2^64: whether it is odd.
// Example: 3 has one, and 2 has none.
pub fn has_inverse(q: u64) -> bool
    ensures { result ≡ has_inverse word_modulus q }
{
    q % 2 == 1
}

// The word whose product with q is 1 modulo 2^64. An odd word has one, and an even word none.
// Example: 3 has the inverse 0xaaaa_aaaa_aaaa_aaab.
pub fn inverse_of(q: u64) -> Option<u64>
    ensures { result ≡ inverse_of word_modulus q }
{
    if q % 2 == 0 {
        return None;
    }
    // q itself is right in 3 bits, and each step makes twice as many right
    let mut x = q;
    for _ in 0..5u32 {
        x = closer(q, x);
    }
    Some(x)
}

// x (2 - q x): where q x is off 1 by e, this is off by e e.
fn closer(q: u64, x: u64) -> u64
    ensures { Closer q x result }
{
    let t = 2u64.wrapping_sub(ring::mul(q, x));
    ring::mul(x, t)
}
