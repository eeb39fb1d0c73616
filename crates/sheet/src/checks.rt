// The check of a sheet's commands: the first refusal by rising offset.

ghost use Rattle.std.specs.Prelude.{◌≡◌, length};
ghost use Rattle.sheet_format.specs.Format.{decode, header};
ghost use Rattle.sheet.specs.Check.{in_order, placed, first_refusal};
ghost use Rattle.sheet.specs.Steps.{judged};

use refusals::{Refusal, Verdict};
use sheet_format::{Command, Header, Missing, Reader};

// Whether the first command is begin, or a later one is not.
#[tactic(auto, unfolding(crate::specs::Check::in_order, lists::specs::Lists::same))]
fn in_order(at: usize, command: Command) -> bool
    ensures { result ≡ in_order at command }
{
    (at == 0) == matches!(command, Command::Begin(_))
}

// What is judged where a reader stands, in a sheet that begins with a header: the offset after a command that is not the end, or none
// after the end; or why the sheet is refused.
#[tactic(auto, unfolding(crate::specs::Steps::judged_command, lists::specs::Lists::less))]
fn judge(reader: Reader, head: Header) -> Result<Option<usize>, Refusal>
    ensures { result ≡ judged (length reader.entry.sheet.now) head reader.entry.at (decode reader.entry.sheet.now reader.entry.at) }
{
    let at = reader.at;
    let (command, after) = match reader.next() {
        Ok(found) => found,
        Err(Missing::NoCommand) => return Err(Refusal::Unknown(at)),
        Err(Missing::Short) => return Err(Refusal::CutOff(at)),
        Err(Missing::Nothing) => return Err(Refusal::Ending(at)),
    };
    if !in_order(at, command) {
        return Err(Refusal::Order(at));
    }
    if !operands::in_range(head.rank, command) {
        return Err(Refusal::Range(at));
    }
    if !operands::invertible(head.q, command) {
        return Err(Refusal::NoInverse(at));
    }
    match command {
        Command::End if after < reader.sheet.len() => Err(Refusal::Ending(after)),
        Command::End => Ok(None),
        _ => Ok(Some(after)),
    }
}

// The first refusal of the commands of a sheet that begins with the header.
pub(crate) fn commands(sheet: &[u8], head: Header) -> Verdict
    requires { head ≡ header sheet.now }
    ensures { result ≡ first_refusal sheet.now (placed sheet.now) }
{
    let mut reader = Reader::new(sheet, 0);
    while let Some(after) = judge(reader, head)? {
        reader = reader.moved(after);
    }
    Ok(())
}
