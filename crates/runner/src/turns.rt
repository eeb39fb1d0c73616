// One command of a sheet.

ghost use Rattle.std.specs.Prelude.{◌≡◌};
ghost use Rattle.runner.specs.Turn.{begin_call, onward, turn_call};

use crate::Cursor;
use machine::NotObeyed;
use refusals::Refusal;
use sheet_format::{Command, Header};

// How a run of a sheet begins: with its header and the first cursor. The sheet is checked whole.
// Refused: 9 to 15 as the check of a sheet.
// Example: document 01's sheet begins with rank 1 and q = 3, at offset 0 and the count 0.
#[tactic(auto, unfolding(crate::specs::Turn::begin_call))]
pub fn begin(sheet: &[u8]) -> Result<(Header, Cursor), Refusal>
    ensures { result ≡ begin_call sheet.now }
{
    sheet::check(sheet)?;
    Ok((sheet_format::header_of(sheet), Cursor { at: 0, count: 0 }))
}

// The next cursor after a command that is obeyed, where `next` is the cursor after it: none after the end command.
fn onward(command: Command, next: Cursor) -> Option<Cursor>
    ensures { result ≡ onward command next }
{
    match command {
        Command::End => None,
        Command::Begin(_) | Command::Change(_) | Command::Show(_) => Some(next),
    }
}

// The next command of a sheet that passes its check, on registers of 4 x 720 words: it stands at the cursor and is obeyed. The
// answer is the next cursor, and none after the end command, which counts nothing. Nothing is done where no command stands there,
// it is out of range, the registers have another size, or the count would pass 2^64 - 1.
// Example: the first turn of document 01's sheet makes the element of each register zero and goes on at offset 10 with the count 0.
pub fn turn(
    sheet: &[u8],
    x: &mut [u64],
    header: Header,
    cursor: Cursor,
) -> Result<Option<Cursor>, NotObeyed>
    ensures { turn_call sheet.now header cursor x.old ≡ record { answer = result; lent = x.new } }
{
    let (command, after) = sheet_format::read(sheet, cursor.at)?;
    let n = costs::cost(header.rank, command);
    let count = cursor.count.checked_add(n).ok_or(NotObeyed)?;
    machine::step(x, header, command)?;
    Ok(onward(command, Cursor { at: after, count }))
}
