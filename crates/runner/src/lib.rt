// The run of a sheet, on four registers of 720 words each. The sheet is checked whole before anything runs.

#![tactic(auto)]

ghost use Rattle.std.specs.Prelude.{◌≡◌, Ok};
ghost use Rattle.sheet.specs.Check.{placed, commands};
ghost use Rattle.runner.specs.Turn.{begin_call};
ghost use Rattle.runner.specs.Run.{obey_all, run_call, run_sheet};

use machine::Registers;
use refusals::{Answer, Refusal};
use sheet_format::Header;

mod turns;

pub use turns::{begin, turn};

// Where a run stands.
#[derive(Clone, Copy)]
pub struct Cursor {
    // The offset of the next command.
    pub at: usize,
    // The ring operations of the commands before it.
    pub count: u64,
}

// What the run of a sheet gives back: the registers, and how the run ended, with the ring operations of all commands.
#[derive(Clone, Copy)]
pub struct Finished {
    pub registers: [[u64; 720]; 4],
    pub ending: Result<Answer, Refusal>,
}

// The commands of a sheet from its first cursor on. The answer is their count.
fn obey_all(sheet: &[u8], x: &mut Registers, header: Header, first: Cursor) -> u64
    requires { begin_call sheet.now ≡ Ok (header, first) }
    ensures { obey_all header (commands (placed sheet.now)) (record { contents = x.old; count = 0 })
        ≡ record { contents = x.new; count = result } }
{
    let mut cursor = first;
    while let Ok(Some(next)) = turn(sheet, x, header, cursor) {
        cursor = next;
    }
    cursor.count
}

// The run of a sheet on lent registers of 4 x 720 words, register r from 720 r on, whatever they held: the element of rank m
// at the front of each, and zeros past it; the count of all commands.
// Refused: 9 to 15 as the check of a sheet; 8 registers of another size.
// Example: document 01's sheet makes 3 2 and zeros of register 0, and counts 6.
pub fn run_into(sheet: &[u8], x: &mut [u64]) -> Result<Answer, Refusal>
    ensures { run_call sheet.now x.old ≡ record { answer = result; lent = x.new } }
{
    let (header, first) = begin(sheet)?;
    let Some(registers) = x.as_mut_array() else {
        return Err(Refusal::Buffer);
    };
    registers.fill(0);
    let count = obey_all(sheet, registers, header, first);
    Ok(Answer { count })
}

// The run of a sheet: the registers, zero past M, and the ending with the count. The registers of a refused sheet are zero.
// Example: document 01's sheet ends with 3 2 at the front of register 0 and the count 6.
pub fn run(sheet: &[u8]) -> Finished
    ensures { result ≡ run_sheet sheet.now }
{
    let mut x = [0u64; 2880];
    let ending = run_into(sheet, &mut x);
    Finished {
        registers: machine::registers(&x),
        ending,
    }
}
