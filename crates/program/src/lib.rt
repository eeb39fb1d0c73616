// The program: it runs the sheet that stands in an input, and prints what document 01 says.

#![tactic(auto)]

ghost use Rattle.std.specs.Prelude.{◌≡◌};
ghost use Rattle.program.specs.declared.Failure.TheVariants.{Unwritten};
ghost use Rattle.program.specs.Pieces.{Runs};

use pieces::Unwritten;
use std::{fmt, io};

mod input;
mod pieces;

// How a run failed: at a write; or at a read, with nothing written.
#[derive(Clone, Copy)]
pub enum Failure {
    Unwritten,
    Unread,
}

impl From<Unwritten> for Failure {
    ghost from_gives = { λ _ failure. failure ≡ Unwritten };

    fn from(_: Unwritten) -> Failure {
        Failure::Unwritten
    }
}

impl fmt::Display for Failure {
    fn fmt<W: fmt::Write>(&self, f: &mut fmt::Formatter<W>) -> fmt::Result {
        match self {
            Failure::Unwritten => write!(f, "the output is not whole"),
            Failure::Unread => write!(f, "standard input cannot be read"),
        }
    }
}

// Runs the sheet in an input, the first 4,097 bytes of it or all, and writes what it prints. It is Ok where all of that is written.
#[tactic(auto, using(crate::proofs::Reading::failed, crate::proofs::Reading::unwritten))]
pub fn run<R: io::Read, W: io::Write>(input: &mut R, out: &mut W) -> Result<(), Failure>
    ensures { Runs (R.remaining input.old) (W.contents out.old) (W.contents out.new) result }
{
    // document 01 names the buffer and its size
    let mut bytes = [0u8; 4097];
    let Ok(n) = input::read(input, &mut bytes) else {
        return Err(Failure::Unread);
    };
    pieces::run(out, &bytes[..n])?;
    Ok(())
}

// Runs the sheet in an input, and prints. Where that cannot be read, or what is printed cannot be written, it says so on standard error.
pub fn run_input(input: &mut impl io::Read, rt: &(impl Print + Eprint)) {
    if let Err(failure) = run(input, &mut io::writer(rt)) {
        let _ = eprintln!(rt; "run_sheet: {failure}");
    }
}
