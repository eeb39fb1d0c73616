// What the run of a sheet prints, as text into lent buffers.

#![tactic(auto)]

ghost use Rattle.std.specs.Prelude.{◌≡◌, true, suc, ◌≤◌, ◌<◌, length};
ghost use Rattle.lists.specs.Numbers.{factorial};
ghost use Rattle.sheet_format.specs.declared.Command.TheVariants.{Show};
ghost use Rattle.sheet_format.specs.declared.Query.TheVariants.{Register, Pairing, Equality, Trace};
ghost use Rattle.operands.specs.Operands.{in_range};
ghost use Rattle.machine.specs.Registers.{element};
ghost use Rattle.output.specs.Text.{text_room};
ghost use Rattle.output.specs.Printed.{shown, text, text_call, error_call};
ghost use Rattle.output.specs.Steps.{Room, Puts};

use lines::Text;
use refusals::Refusal;
use runner::Cursor;
use sheet_format::{Command, Header, Query};

mod lines;

// Bytes enough for what any command prints: 4 for a register's line, and 25 for each of 720 coefficients.
pub const ROOM: usize = 18004;

// Bytes enough for the line of any refusal.
pub const ERROR_ROOM: usize = 26;

// The header of a sheet, and its registers.
#[derive(Clone, Copy)]
struct Registers<'a> {
    header: Header,
    x: &'a [u64],
    ghost low: { header.rank ≤ 5 },
    ghost four: { length x.now ≡ 2880 },
}

impl<'a> Registers<'a> {
    // The element in a register.
    fn element(self, r: usize) -> &'a [u64]
        requires { r < 4 }
        ensures is { result.now ≡ element self.entry.header.rank r self.entry.x.now }
        ensures size { length result.now ≡ factorial (suc self.entry.header.rank) }
        ensures few { length result.now ≤ 720 }
    {
        let from = 720 * r;
        &self.x[from..from + ranks::size(self.header.rank)]
    }
}

// A register's line, and a line for each of its nonzero coefficients. A command has its registers as plain numbers, of which each
// function asks that they are below 4.
#[tactic(auto, using(crate::proofs::LineLengths::digit_line))]
fn put_register(out: &mut Text, registers: Registers, r: usize)
    requires { Room text_room out.old × (r < 4) }
    ensures { Puts (shown registers.entry.header (Register r) registers.entry.x.now) out.old out.new }
{
    out.put_line(b'R', r as u64);
    out.put_coefficients(registers.element(r));
}

// The call is not refused for registers of a sheet, so that the 0 is never put.
#[tactic(auto, using(crate::proofs::LineLengths::line_short))]
fn put_pairing(out: &mut Text, registers: Registers, a: usize, b: usize)
    requires { Room text_room out.old × (a < 4) × (b < 4) }
    ensures { Puts (shown registers.entry.header (Pairing a b) registers.entry.x.now) out.old out.new }
{
    let header = registers.header;
    let left = registers.element(a);
    let right = registers.element(b);
    let paired = pairings::pairing(header.rank, header.q, left, right);
    out.put_line(b'P', paired.unwrap_or(0));
}

#[tactic(auto, using(crate::proofs::LineLengths::line_short))]
fn put_equality(out: &mut Text, registers: Registers, a: usize, b: usize)
    requires { Room text_room out.old × (a < 4) × (b < 4) }
    ensures { Puts (shown registers.entry.header (Equality a b) registers.entry.x.now) out.old out.new }
{
    let left = registers.element(a);
    let right = registers.element(b);
    let same = left == right;
    out.put_line(b'Q', u64::from(same));
}

// The call is not refused for registers of a sheet, so that the 0 is never put.
#[tactic(auto, using(crate::proofs::LineLengths::line_short))]
fn put_trace(out: &mut Text, registers: Registers, r: usize, z: u64)
    requires { Room text_room out.old × (r < 4) }
    ensures { Puts (shown registers.entry.header (Trace r z) registers.entry.x.now) out.old out.new }
{
    let header = registers.header;
    let mut scratch = [0u64; 7920];
    let traced = traces::trace(header.rank, header.q, z, registers.element(r), &mut scratch);
    out.put_line(b'T', traced.unwrap_or(0));
}

// What a query in range shows.
fn put_shown(out: &mut Text, registers: Registers, query: Query)
    requires { Room text_room out.old × (in_range registers.header.rank (Show query) ≡ true) }
    ensures { Puts (shown registers.entry.header query registers.entry.x.now) out.old out.new }
{
    match query {
        Query::Register(r) => put_register(out, registers, r),
        Query::Pairing(a, b) => put_pairing(out, registers, a, b),
        Query::Equality(a, b) => put_equality(out, registers, a, b),
        Query::Trace(r, z) => put_trace(out, registers, r, z),
    }
}

// What a command in range prints.
#[tactic(auto, using(crate::proofs::LineLengths::line_short, crate::proofs::LineLengths::tagged_pair_short, crate::proofs::Putting::puts_none), unfolding(crate::specs::Printed::text))]
fn put_text(out: &mut Text, registers: Registers, count: u64, command: Command)
    requires { Room text_room out.old × (in_range registers.header.rank command ≡ true) }
    ensures { Puts (text registers.entry.header command (record { contents = registers.entry.x.now; count = count })) out.old out.new }
{
    match command {
        Command::End => out.put_line(b'N', count),
        Command::Begin(begun) => out.put_tagged_pair(b'H', begun.rank as u64, begun.q),
        Command::Change(_) => {}
        Command::Show(query) => put_shown(out, registers, query),
    }
}

// What the next command of a sheet prints, at the front of a lent buffer of 18,004 bytes or more: the command stands at the cursor, and x
// holds the registers before it. The answer is the size of the text. Nothing is written where the buffer is shorter, x is not 4 x 720
// words, or no command in range stands there.
// Example: the end of a sheet after 6 ring operations prints N 6 and a newline, 4 bytes.
pub fn text(sheet: &[u8], x: &[u64], buffer: &mut [u8], header: Header, cursor: Cursor) -> usize
    ensures { text_call sheet.now x.now header cursor buffer.old ≡ record { answer = result; lent = buffer.new } }
{
    if buffer.len() < ROOM {
        return 0;
    }
    if x.len() != 2880 {
        return 0;
    }
    let Ok((command, _)) = sheet_format::read(sheet, cursor.at) else {
        return 0;
    };
    if !operands::in_range(header.rank, command) {
        return 0;
    }
    let mut out = Text {
        bytes: buffer,
        size: 0,
    };
    put_text(&mut out, Registers { header, x }, cursor.count, command);
    out.size
}

// The line of a refused sheet, at the front of a lent buffer of 26 bytes or more. The answer is its size. Nothing is written where
// the buffer is shorter.
// Example: for an empty sheet it is E 9 0 and a newline, 6 bytes.
pub fn error(why: Refusal, buffer: &mut [u8]) -> usize
    ensures { error_call why buffer.old ≡ record { answer = result; lent = buffer.new } }
{
    if buffer.len() < ERROR_ROOM {
        return 0;
    }
    let mut out = Text {
        bytes: buffer,
        size: 0,
    };
    let number = u64::from(refusals::number_of(why));
    out.put_tagged_pair(b'E', number, refusals::place_of(why) as u64);
    out.size
}
