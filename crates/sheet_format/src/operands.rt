// The operands of a command: bytes, and numbers of several bytes, the lowest first.

ghost use Rattle.std.specs.Prelude.{◌≡◌, ◌+◌, ◌≤◌, ◌<◌, ◌^◌};
ghost use Rattle.sheet_format.specs.Format.{byte, number};

// Byte i, or 0 past the end.
#[tactic(auto, unfolding(crate::specs::Format::byte))]
pub(crate) fn byte(x: &[u8], i: usize) -> u8
    ensures { result ≡ byte x.now i }
{
    x.get(i).copied().unwrap_or(0)
}

// The number of the n bytes from i on.
pub(crate) fn number(x: &[u8], i: usize, n: usize) -> u64
    requires { (n ≤ 8) × (i + n < 2 ^ 64) }
    ensures { result ≡ number x.now i n }
{
    let mut value = 0;
    for k in (0..n).rev() {
        value = value * 256 + u64::from(byte(x, i + k));
    }
    value
}
