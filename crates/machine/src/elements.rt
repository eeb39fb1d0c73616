// What the commands do to the element of a register. The library refuses none of their calls, since they give it elements of M words.
// A command has its registers as plain numbers, of which each function asks that they are below 4.

ghost use Rattle.std.specs.Prelude.{◌≡◌, true, [], ◌∷◌, ℕ, suc, ◌+◌, ◌*◌, ◌≤◌, ◌<◌, set};
ghost use Rattle.lists.specs.Numbers.{factorial};
ghost use Rattle.ring.specs.Modular.{word_modulus, words};
ghost use Rattle.inverses.specs.Inverses.{has_inverse};
ghost use Rattle.algebra.specs.Element.{plus, scale, unit};
ghost use Rattle.algebra.specs.Product.{act, times};
ghost use Rattle.signed_words.specs.InverseLetter.{inverse_letter};
ghost use Rattle.element_calls.specs.Coefficients.{ring, parameters_of, inverse_parameters};
ghost use Rattle.machine.specs.Registers.{element, put, zeros};

use crate::{Registers, register};
use std::ops::Range;

// The element of rank m in register r.
#[derive(Clone, Copy)]
pub(crate) struct Element {
    pub(crate) m: usize,
    pub(crate) r: usize,
    ghost low: { m ≤ 5 },
    ghost one: { r < 4 },
}

impl Element {
    // M, the number of its words.
    fn size(self) -> usize
        ensures value { result ≡ factorial (suc self.m) }
        ensures small { result ≤ 720 }
    {
        ranks::size(self.m)
    }

    // Where its words stand.
    fn indices(self) -> Range<usize>
        ensures start { result.start ≡ 720 * self.r }
        ensures end { result.end ≡ 720 * self.r + factorial (suc self.m) }
        ensures inside { result.end ≤ 2880 }
    {
        let at = 720 * self.r;
        at..at + self.size()
    }

    pub(crate) fn make_zero(self, x: &mut Registers)
        ensures { x.new ≡ put self.r (zeros self.m) x.old }
    {
        x[self.indices()].fill(0);
    }

    pub(crate) fn make_unit(self, x: &mut Registers)
        ensures { x.new ≡ put self.r (unit ℕ words self.m) x.old }
    {
        self.make_zero(x);
        x[self.indices().start] = 1;
    }

    pub(crate) fn set_coefficient(self, x: &mut Registers, i: usize, v: u64)
        requires { i < factorial (suc self.m) }
        ensures { x.new ≡ put self.r (set (element self.m self.r x.old) i v) x.old }
    {
        x[self.indices().start + i] = v;
    }

    pub(crate) fn letter(self, x: &mut Registers, q: u64, i: u8)
        requires { (0 < i) × (i ≤ self.m) }
        ensures { let p = parameters_of q in
            x.new ≡ put self.r (act ℕ (ring p) p.q p.r self.m (i ∷ []) (element self.m self.r x.old)) x.old }
    {
        let _ = word_actions::act_word(self.m, q, &[i], &mut x[self.indices()]);
    }

    pub(crate) fn inverse_letter(self, x: &mut Registers, q: u64, i: u8)
        requires { (0 < i) × (i ≤ self.m) × (has_inverse word_modulus q ≡ true) }
        ensures { let p = parameters_of q in let p' = inverse_parameters q in x.new
            ≡ put self.r (inverse_letter ℕ (ring p) p.q p.r p'.q p'.r self.m i (element self.m self.r x.old)) x.old }
    {
        // i is at most 5, so the cast loses nothing
        let word = [-(i as i8)];
        let _ = word_actions::act_signed_word(self.m, q, &word, &mut x[self.indices()]);
    }

    pub(crate) fn product(self, x: &mut Registers, q: u64, a: usize, b: usize)
        requires { (a < 4) × (b < 4) }
        ensures { let p = parameters_of q in x.new
            ≡ put self.r (times ℕ (ring p) p.q p.r self.m self.m (element self.m a x.old) (element self.m b x.old)) x.old }
    {
        let left = register(x, a);
        let right = register(x, b);
        let n = self.size();
        let mut scratch = [0; 7920];
        let res = &mut x[self.indices()];
        let _ = hecke::product(self.m, q, &left[..n], &right[..n], res, &mut scratch);
    }

    pub(crate) fn sum(self, x: &mut Registers, a: usize, b: usize)
        requires { (a < 4) × (b < 4) }
        ensures { x.new ≡ put self.r (plus ℕ words (element self.m a x.old) (element self.m b x.old)) x.old }
    {
        let left = register(x, a);
        let right = register(x, b);
        let n = self.size();
        let _ = linear::sum(self.m, &left[..n], &right[..n], &mut x[self.indices()]);
    }

    pub(crate) fn multiple(self, x: &mut Registers, v: u64)
        ensures { x.new ≡ put self.r (scale ℕ words v (element self.m self.r x.old)) x.old }
    {
        let old = register(x, self.r);
        let n = self.size();
        let _ = linear::scale(self.m, v, &old[..n], &mut x[self.indices()]);
    }
}
