// Lines of text in a lent buffer.

ghost use Rattle.std.specs.Prelude.{[], ◌∷◌, ◌+◌, ◌*◌, ◌≤◌, length};
ghost use Rattle.output.specs.Text.{decimal, pair_line, line, tagged_pair, coefficients};
ghost use Rattle.output.specs.Steps.{Overwritten, Room, Puts};

// A lent buffer, and how many bytes of text stand at its front. Its bytes are put one by one, since `write!` may fail, and says nothing then.
// Its room is required where it is used, since a ghost field beside a `&mut` gets no generated proof.
#[derive(Drop)]
pub(crate) struct Text<'a> {
    pub(crate) bytes: &'a mut [u8],
    pub(crate) size: usize,
}

impl Text<'_> {
    fn put_byte(&mut self, b: u8)
        requires { Room 1 self.old }
        ensures { Puts (b ∷ []) self.old self.new }
    {
        self.bytes[self.size] = b;
        self.size += 1;
    }

    // The number in base ten.
    fn put_number(&mut self, n: u64)
        requires { Room (length (decimal n)) self.old }
        ensures { Puts (decimal n) self.old self.new }
    {
        self.size = write_digits(self.bytes, self.size, n);
    }

    // A space and a number.
    fn put_field(&mut self, n: u64)
        requires { Room (1 + length (decimal n)) self.old }
        ensures { Puts (32 ∷ decimal n) self.old self.new }
    {
        self.put_byte(b' ');
        self.put_number(n);
    }

    // A letter, a number and a newline.
    #[tactic(auto, using(crate::proofs::LineLengths::length_line))]
    pub(crate) fn put_line(&mut self, tag: u8, a: u64)
        requires { Room (length (line tag a)) self.old }
        ensures { Puts (line tag a) self.old self.new }
    {
        self.put_byte(tag);
        self.put_field(a);
        self.put_byte(b'\n');
    }

    // A letter, two numbers and a newline.
    #[tactic(auto, using(crate::proofs::LineLengths::length_tagged_pair))]
    pub(crate) fn put_tagged_pair(&mut self, tag: u8, a: u64, b: u64)
        requires { Room (length (tagged_pair tag a b)) self.old }
        ensures { Puts (tagged_pair tag a b) self.old self.new }
    {
        self.put_byte(tag);
        self.put_field(a);
        self.put_field(b);
        self.put_byte(b'\n');
    }

    // Index and value of a coefficient, and a newline.
    #[tactic(auto, using(crate::proofs::LineLengths::length_pair_line))]
    fn put_coefficient(&mut self, i: usize, x: u64)
        requires { Room (length (pair_line i x)) self.old }
        ensures { Puts (pair_line i x) self.old self.new }
    {
        self.put_number(i as u64);
        self.put_field(x);
        self.put_byte(b'\n');
    }

    // A line for each nonzero coefficient of h, which has at most 720.
    pub(crate) fn put_coefficients(&mut self, h: &[u64])
        requires { (length h.now ≤ 720) × Room (25 * length h.now) self.old }
        ensures { Puts (coefficients 0 h.now) self.old self.new }
    {
        for (i, x) in h.iter().enumerate() {
            if *x != 0 {
                self.put_coefficient(i, *x);
            }
        }
    }
}

// The digits of n from an index on: those but the last, and then the last. The answer is the index after them. The index is a value
// here, since behind a `&mut` it would be read and written again for each digit.
fn write_digits(bytes: &mut [u8], at: usize, n: u64) -> usize
    requires { at + length (decimal n) ≤ length bytes.old }
    ensures { Overwritten at (decimal n) bytes.old bytes.new result }
{
    if n < 10 {
        bytes[at] = b'0' + n as u8;
        return at + 1;
    }
    let last = write_digits(bytes, at, n / 10);
    bytes[last] = b'0' + (n % 10) as u8;
    last + 1
}
