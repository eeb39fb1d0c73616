// Arithmetic on 64-bit words, the integers modulo 2^64.

#![tactic(auto)]

ghost use Rattle.std.specs.Prelude.{◌≡◌};
ghost use Rattle.ring.specs.Modular.{words};

// The sum of two words, modulo 2^64.
// Example: 2^64 - 1 and 2 give 1.
#[tactic(auto, unfolding(crate::specs::Modular::modular))]
pub fn add(a: u64, b: u64) -> u64
    ensures { result ≡ words.add a b }
{
    a.wrapping_add(b)
}

// The product of two words, modulo 2^64, by halves of 32 bits, as a claim demands. A product of two halves fits a word; that of
// the two high halves counts 2^64 times, and so falls away.
// Example: 2^32 + 1 and 2^33 + 1 give 3 * 2^32 + 1.
#[tactic(auto, using(crate::proofs::Halves::mul_by_halves), unfolding(crate::specs::Modular::modular))]
pub fn mul(a: u64, b: u64) -> u64
    ensures { result ≡ words.mul a b }
{
    let a0 = a & 0xffff_ffff;
    let a1 = a >> 32;
    let b0 = b & 0xffff_ffff;
    let b1 = b >> 32;
    let low = a0 * b0;
    let left = a1 * b0;
    let right = a0 * b1;
    let middle = add(left, right);
    add((middle & 0xffff_ffff) * 0x1_0000_0000, low)
}
