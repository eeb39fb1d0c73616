// The format of run sheets: the commands that stand in the bytes of a sheet, and the reader.

#![tactic(auto)]

ghost use Rattle.std.specs.Prelude.{◌≡◌};
ghost use Rattle.sheet_format.specs.Format.{decode, header};

mod decoder;
mod operands;

pub use decoder::decode;

// What the begin command says of a sheet.
#[derive(Clone, Copy, Default)]
pub struct Header {
    // The rank m of every element.
    pub rank: usize,
    // The word q.
    pub q: u64,
}

// A command that changes a register.
#[derive(Clone, Copy)]
pub enum Update {
    // A register becomes the unit.
    Unit(usize),
    // In a register, the coefficient of an index becomes a word.
    Set(usize, usize, u64),
    // A register times a generator T_i.
    Letter(usize, u8),
    // A register times the inverse of a generator T_i.
    InverseLetter(usize, u8),
    // The first register becomes the product of the second and the third.
    Product(usize, usize, usize),
    // The first register becomes the sum of the second and the third.
    Sum(usize, usize, usize),
    // A register times a word.
    Scale(usize, u64),
}

// What a command shows.
#[derive(Clone, Copy)]
pub enum Query {
    // A register.
    Register(usize),
    // The pairing of two registers.
    Pairing(usize, usize),
    // Whether two registers have equal words.
    Equality(usize, usize),
    // The trace of a register, with a word z.
    Trace(usize, u64),
}

// A command with its operands.
#[derive(Clone, Copy)]
pub enum Command {
    // The last command.
    End,
    // The first command: the element of each register becomes zero.
    Begin(Header),
    // A register changes.
    Change(Update),
    // Something is shown, and nothing changes.
    Show(Query),
}

// Why no command stands at an offset of a sheet.
#[derive(Clone, Copy, PartialEq, Eq)]
pub enum Missing {
    // A byte that is the code of no command.
    NoCommand,
    // A command whose operands are cut off.
    Short,
    // No byte.
    Nothing,
}

// What stands at an offset of a sheet: a command and the offset after it, or why there is none.
pub type Decoded = Result<(Command, usize), Missing>;

// A sheet's bytes, and the offset of the next command.
#[derive(Clone, Copy)]
pub struct Reader<'a> {
    pub sheet: &'a [u8],
    pub at: usize,
}

impl<'a> Reader<'a> {
    // The reader of a sheet from an offset on.
    // Example: at 0 its next command is the sheet's first.
    pub fn new(sheet: &'a [u8], at: usize) -> Reader<'a>
        ensures { (result.sheet ≡ sheet.entry) × (result.at ≡ at) }
    {
        Reader { sheet, at }
    }

    // What the reader's next command is.
    // Example: for a reader of 0x20 0x03 at 0 it is the unit into register 3.
    pub fn next(self) -> Decoded
        ensures { result ≡ decode self.entry.sheet.now self.entry.at }
    {
        decode(self.sheet, self.at)
    }

    // The reader of the same sheet from another offset on: a caller who keeps a reader goes on with it so.
    // Example: after the unit at 0 the reader goes on at 2.
    pub fn moved(self, at: usize) -> Reader<'a>
        ensures { (result.sheet ≡ self.entry.sheet) × (result.at ≡ at) }
    {
        Reader { at, ..self }
    }
}

// What a reader finds at an offset of a sheet. It says the same as `decode`: callers have both names.
// Example: in 0x20 0x03, at 0, it is the unit into register 3, and the offset after it is 2.
pub fn read(sheet: &[u8], at: usize) -> Decoded
    ensures { result ≡ decode sheet.now at }
{
    Reader::new(sheet, at).next()
}

// What the sheet's begin command says; zeros where the sheet begins with none.
// Example: 0x10 0x02 0x03 and seven zero bytes begin a sheet of rank 2 with q = 3.
#[tactic(auto, unfolding(crate::specs::Format::header))]
pub fn header_of(sheet: &[u8]) -> Header
    ensures { result ≡ header sheet.now }
{
    match decode(sheet, 0) {
        Ok((Command::Begin(header), _)) => header,
        _ => Header::default(),
    }
}
