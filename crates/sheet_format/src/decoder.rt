// What stands at an offset of a sheet.

ghost use Rattle.std.specs.Prelude.{◌≡◌};
ghost use Rattle.sheet_format.specs.Format.{row, decode};

use crate::operands::{byte, number};
use crate::{Command, Decoded, Header, Missing, Query, Update};

// What a code means: its command, with the operands at the front of x, and how many bytes they take; or none.
// The codes are numbers of document 01's format, so the match is on the byte.
#[tactic(auto, unfolding(crate::specs::Format::row, lists::specs::Lists::same))]
fn row_of(code: u8, x: &[u8]) -> Option<(Command, usize)>
    ensures { result ≡ row code x.now }
{
    let first = usize::from(byte(x, 0));
    let letter = byte(x, 1);
    let second = usize::from(letter);
    let third = usize::from(byte(x, 2));
    Some(match code {
        0x00 => (Command::End, 0),
        0x10 => (
            Command::Begin(Header {
                rank: first,
                q: number(x, 1, 8),
            }),
            9,
        ),
        0x20 => (Command::Change(Update::Unit(first)), 1),
        0x21 => (
            Command::Change(Update::Set(first, number(x, 1, 2) as usize, number(x, 3, 8))),
            11,
        ),
        0x30 => (Command::Change(Update::Letter(first, letter)), 2),
        0x31 => (Command::Change(Update::Product(first, second, third)), 3),
        0x32 => (Command::Change(Update::Sum(first, second, third)), 3),
        0x33 => (Command::Change(Update::Scale(first, number(x, 1, 8))), 9),
        0x34 => (Command::Change(Update::InverseLetter(first, letter)), 2),
        0x40 => (Command::Show(Query::Register(first)), 1),
        0x41 => (Command::Show(Query::Pairing(first, second)), 2),
        0x42 => (Command::Show(Query::Equality(first, second)), 2),
        0x43 => (Command::Show(Query::Trace(first, number(x, 1, 8))), 9),
        _ => return None,
    })
}

// What stands at an offset of a sheet.
// Example: in 0x20 0x03, at 1, there is a byte that is the code of no command.
#[tactic(auto, unfolding(crate::specs::Format::decode, crate::specs::Format::byte, lists::specs::Lists::less))]
pub fn decode(sheet: &[u8], at: usize) -> Decoded
    ensures { result ≡ decode sheet.now at }
{
    let code = sheet.get(at).copied().ok_or(Missing::Nothing)?;
    let after = at + 1;
    let operands = &sheet[after..];
    let (command, wide) = row_of(code, operands).ok_or(Missing::NoCommand)?;
    if operands.len() < wide {
        return Err(Missing::Short);
    }
    Ok((command, after + wide))
}
