// What the test programs share: numbers read from an input, and fields printed.

#![tactic(auto)]

ghost use Rattle.std.specs.Prelude.{◌≡◌, ℕ, ◌^◌, ◌<◌, drop, IfSome};
ghost use Rattle.vector_io.specs.Numbers.{number, Below, Front};

use std::io;

// The number of eight bytes, the lowest first. Where those from n on are zeros, it is below 256^n.
fn word_of(bytes: &[u8; 8]) -> u64
    ensures value { result ≡ number bytes.now }
    ensures below { (n : ℕ) → number (drop n bytes.now) ≡ 0 → result < 256 ^ n }
{
    u64::from_le_bytes(*bytes)
}

// The number that the next bytes make, at most eight of them, the lowest first.
// Example: the bytes 2 1, with size 2, make 258.
pub fn read_number(input: &mut impl io::Read, size: usize) -> Option<u64>
    ensures { Below size result }
{
    if 8 < size {
        return None;
    }
    let mut space = [0u8; 8];
    input.read_exact(&mut space[0..size]).ok()?;
    Some(word_of(&space))
}

// The next bytes, as many as the size says, which are put at the front of the space.
// Example: of the bytes 2 1 3, with size 2, they are 2 1.
pub fn read_front<'a, R: io::Read>(
    input: &mut R,
    size: usize,
    space: &'a mut [u8],
) -> Option<&'a [u8]>
    ensures { IfSome result (λ bytes. Front size (R.remaining input.old) (R.remaining input.new) bytes.now) }
{
    let bytes = space.get_mut(..size)?;
    input.read_exact(bytes).ok()?;
    Some(bytes)
}

// A space and the number.
// Example: for 258 it prints a space and 258.
pub fn print_field(rt: &impl Print, n: u64) -> io::Result<()> {
    print!(rt; " {n}")
}
