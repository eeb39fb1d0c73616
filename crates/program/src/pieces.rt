// What a sheet prints, one full buffer after another.

ghost use Rattle.std.specs.Prelude.{◌≡◌, ◌+◌, ◌<◌, ◌^◌, length, replicate, IfOk, is_ok, Ok};
ghost use Rattle.runner.specs.Turn.{begin_call, Along};
ghost use Rattle.output.specs.Printed.{printed};
ghost use Rattle.program.specs.Pieces.{Piece, PartOf, WritesFront, Printed};

use runner::Cursor;
use sheet_format::Header;
use std::io;

// Room for the text of three commands or more, on the stack, since nothing here allocates.
type Buffer = [u8; 65536];

// A write failed, or took nothing.
#[derive(Clone, Copy)]
pub(crate) struct Unwritten;

// A sheet that passed its check.
#[derive(Clone, Copy)]
struct Sheet<'a> {
    bytes: &'a [u8],
    header: Header,
}

// Where the run of a sheet stands, and the registers there.
#[derive(Drop)]
struct Place {
    cursor: Cursor,
    x: [u64; 2880],
}

// The size of a piece of text, and whether the run has ended with it: every piece has both, and neither hangs on the other.
#[derive(Clone, Copy)]
struct Filled {
    used: usize,
    ended: bool,
}

impl Place {
    // Obeys the commands of the sheet from the cursor on, and puts what they print at the front of the buffer, until the sheet ends or
    // less than the room for one more command is left.
    fn fill(&mut self, sheet: Sheet, buffer: &mut Buffer) -> Filled
        requires { Along sheet.bytes.now sheet.header self.old.cursor self.old.x }
        ensures { Piece sheet.entry.bytes.now sheet.entry.header self.old.cursor self.old.x buffer.new
            result.used result.ended self.new.cursor self.new.x }
    {
        let Sheet { bytes, header } = sheet;
        let mut used = 0;
        while output::ROOM <= buffer.len() - used {
            used += output::text(bytes, &self.x, &mut buffer[used..], header, self.cursor);
            let Ok(Some(next)) = runner::turn(bytes, &mut self.x, header, self.cursor) else {
                return Filled { used, ended: true };
            };
            self.cursor = next;
        }
        Filled { used, ended: false }
    }

    // Obeys the commands of the sheet, and prints, one full buffer after another. It stops where a write fails.
    fn print_all<W: io::Write>(
        &mut self,
        out: &mut W,
        sheet: Sheet,
        buffer: &mut Buffer,
    ) -> Result<usize, Unwritten>
        requires { (begin_call sheet.bytes.now ≡ Ok (sheet.header, self.old.cursor)) × (self.old.x ≡ replicate 2880 0) }
        ensures printed { Printed sheet.entry.bytes.now sheet.entry.header self.new.x self.new.cursor result }
        ensures bytes { WritesFront (W.contents out.old) (W.contents out.new) (printed sheet.entry.bytes.now) (is_ok result) }
    {
        let mut sent = 0;
        loop {
            let filled = self.fill(sheet, buffer);
            sent = hand_over(out, sheet.bytes, &buffer[..filled.used], sent)?;
            if filled.ended {
                return Ok(sent);
            }
        }
    }
}

// Writes a part, one write after another, until one fails or takes nothing, or all is taken. The `write_all` of a writer does not say what
// it wrote where it fails.
fn write_whole<W: io::Write>(out: &mut W, part: &[u8]) -> Result<(), Unwritten>
    ensures { WritesFront (W.contents out.old) (W.contents out.new) part.now (is_ok result) }
{
    let mut done = 0;
    while done < part.len() {
        let Ok(n) = out.write(&part[done..]) else {
            return Err(Unwritten);
        };
        if n == 0 {
            return Err(Unwritten);
        }
        done += n;
    }
    Ok(())
}

// Hands a part of what the sheet prints to the write call: the one that begins `sent` bytes after its front. The answer is where the next
// part begins.
fn hand_over<W: io::Write>(
    out: &mut W,
    sheet: &[u8],
    part: &[u8],
    sent: usize,
) -> Result<usize, Unwritten>
    requires { PartOf sheet.now sent part.now × (sent + length part.now < 2 ^ 64) }
    ensures sent { IfOk result (λ n. n ≡ sent + length part.now) }
    ensures bytes { WritesFront (W.contents out.old) (W.contents out.new) part.now (is_ok result) }
{
    write_whole(out, part)?;
    Ok(sent + part.len())
}

// Runs a sheet and prints. Where every write took its part, all that the sheet prints was handed over: so many bytes.
pub(crate) fn run<W: io::Write>(out: &mut W, sheet: &[u8]) -> Result<usize, Unwritten>
    ensures sent { IfOk result (λ n. n ≡ length (printed sheet.now)) }
    ensures bytes { WritesFront (W.contents out.old) (W.contents out.new) (printed sheet.now) (is_ok result) }
{
    let mut buffer = [0u8; 65536];
    match runner::begin(sheet) {
        Err(why) => {
            let n = output::error(why, &mut buffer);
            hand_over(out, sheet, &buffer[..n], 0)
        }
        Ok((header, cursor)) => {
            let mut place = Place {
                cursor,
                x: [0; 2880],
            };
            place.print_all(
                out,
                Sheet {
                    bytes: sheet,
                    header,
                },
                &mut buffer,
            )
        }
    }
}
