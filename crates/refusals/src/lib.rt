// Document 01's table of refusals, and 15 of document 02, Ticket 1, for all calls and sheets: why something is refused, its
// number and its place, and the answers that carry it.

#![tactic(auto)]

ghost use Rattle.std.specs.Prelude.{◌≡◌};
ghost use Rattle.refusals.specs.Refusals.{refusal_number, refusal_place, count_of};

use std::fmt;

// Why a call or a sheet is refused.
#[derive(Clone, Copy)]
pub enum Refusal {
    // A rank above 6.
    Rank,
    // An element's slice of another size than M words.
    Size,
    // A scratch slice that is too short.
    Scratch,
    // A word of over 4,096 letters.
    Word,
    // A letter, the first by its index, that is 0 or above the rank; of signed letters, 0 or outside -m to m.
    Letter(usize),
    // An image list or a tower of a length that is not allowed, or two of unequal length.
    Length,
    // An image, the first by its index, that is 0, too large or already seen.
    Image(usize),
    // An entry of a tower, the first by its index, that is too large.
    Entry(usize),
    // A result buffer of another size than the result; for a word, shorter than the word.
    Buffer,
    // A sheet that is empty or over 4,096 bytes.
    Bytes,
    // An unknown command, by its offset.
    Unknown(usize),
    // A command whose operands are cut off, by its offset.
    CutOff(usize),
    // A first command that is not begin, or begin later, by its offset.
    Order(usize),
    // A command with an operand out of range, by its offset.
    Range(usize),
    // The first byte after the end command, or the sheet's length where no end command stands.
    Ending(usize),
    // A letter or a command, the first by its index or offset, that needs an inverse of q, which has none.
    NoInverse(usize),
}

// The table's number of a refusal.
// Example: an image that is seen twice has the number 6.
pub fn number_of(why: Refusal) -> u8
    ensures { result ≡ refusal_number why }
{
    match why {
        Refusal::Rank => 1,
        Refusal::Size => 2,
        Refusal::Scratch => 3,
        Refusal::Word => 4,
        Refusal::Letter(_) => 4,
        Refusal::Length => 5,
        Refusal::Image(_) => 6,
        Refusal::Entry(_) => 7,
        Refusal::Buffer => 8,
        Refusal::Bytes => 9,
        Refusal::Unknown(_) => 10,
        Refusal::CutOff(_) => 11,
        Refusal::Order(_) => 12,
        Refusal::Range(_) => 13,
        Refusal::Ending(_) => 14,
        Refusal::NoInverse(_) => 15,
    }
}

// The table's place of a refusal.
// Example: the second image, of index 1, has the place 1.
pub fn place_of(why: Refusal) -> usize
    ensures { result ≡ refusal_place why }
{
    match why {
        Refusal::Rank => 0,
        Refusal::Size => 0,
        Refusal::Scratch => 0,
        Refusal::Word => 4096,
        Refusal::Letter(i) => i,
        Refusal::Length => 0,
        Refusal::Image(i) => i,
        Refusal::Entry(i) => i,
        Refusal::Buffer => 0,
        Refusal::Bytes => 0,
        Refusal::Unknown(at) => at,
        Refusal::CutOff(at) => at,
        Refusal::Order(at) => at,
        Refusal::Range(at) => at,
        Refusal::Ending(at) => at,
        Refusal::NoInverse(at) => at,
    }
}

// The number and the place, as the line of a refused sheet has them.
impl fmt::Display for Refusal {
    fn fmt<W: fmt::Write>(&self, f: &mut fmt::Formatter<W>) -> fmt::Result {
        write!(f, "{} {}", number_of(*self), place_of(*self))
    }
}

// Whether what was given passes its checks. A call that writes has then written its result.
pub type Verdict = Result<(), Refusal>;

// The answer of a call that counts its ring operations.
#[derive(Clone, Copy)]
pub struct Answer {
    pub count: u64,
}

// The ring operations of a call; a refusal counts 0.
// Example: a sum of rank 1 counts 2.
pub fn count_of(answered: Result<Answer, Refusal>) -> u64
    ensures { result ≡ count_of answered }
{
    match answered {
        Ok(answer) => answer.count,
        Err(_) => 0,
    }
}
