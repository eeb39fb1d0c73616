// One command of a sheet, on four registers of 720 words each.

#![tactic(auto)]

ghost use Rattle.std.specs.Prelude.{◌≡◌, true, ◌≤◌, ◌<◌};
ghost use Rattle.sheet_format.specs.declared.Command.TheVariants.{Change};
ghost use Rattle.operands.specs.Operands.{may_run};
ghost use Rattle.machine.specs.Registers.{register, registers};
ghost use Rattle.machine.specs.Steps.{cleared};
ghost use Rattle.machine.specs.Step.{updated, obey, step_call};

use elements::Element;
use sheet_format::{Command, Header, Missing, Update};

mod elements;

// Four registers of 720 words each, register r from 720 r on. The element of rank m stands in the first M words of a register.
pub type Registers = [u64; 2880];

// Nothing is done: an operand is out of range, an inverse letter stands while q has no inverse, or the registers are not 4 x 720 words.
#[derive(Clone, Copy)]
pub struct NotObeyed;

// Where no command stands, none is obeyed.
impl From<Missing> for NotObeyed {
    fn from(_: Missing) -> NotObeyed {
        NotObeyed
    }
}

// A register's 720 words.
#[tactic(auto, unfolding(crate::specs::Registers::register))]
fn register(x: &Registers, r: usize) -> [u64; 720]
    requires { r < 4 }
    ensures { result ≡ register r x.now }
{
    let mut words = [0; 720];
    words.copy_from_slice(&x[720 * r..720 * r + 720]);
    words
}

// The words of the four registers, one register after another.
// Example: of registers that hold 1 to 2,880 the second holds 721 to 1,440.
pub fn registers(x: &Registers) -> [[u64; 720]; 4]
    ensures { result ≡ registers x.now }
{
    [
        register(x, 0),
        register(x, 1),
        register(x, 2),
        register(x, 3),
    ]
}

// An update that may run.
#[tactic(auto, unfolding(crate::specs::Step::updated))]
fn update(x: &mut Registers, header: Header, update: Update)
    requires { may_run header (Change update) ≡ true }
    ensures { x.new ≡ updated header update x.old }
{
    let Header { rank: m, q } = header;
    match update {
        Update::Unit(r) => Element { m, r }.make_unit(x),
        Update::Set(r, i, v) => Element { m, r }.set_coefficient(x, i, v),
        Update::Letter(r, i) => Element { m, r }.letter(x, q, i),
        Update::InverseLetter(r, i) => Element { m, r }.inverse_letter(x, q, i),
        Update::Product(r, a, b) => Element { m, r }.product(x, q, a, b),
        Update::Sum(r, a, b) => Element { m, r }.sum(x, a, b),
        Update::Scale(r, v) => Element { m, r }.multiple(x, v),
    }
}

// The element of each register becomes zero.
#[tactic(auto, unfolding(crate::specs::Steps::cleared))]
fn begin(x: &mut Registers, m: usize)
    requires { m ≤ 5 }
    ensures { x.new ≡ cleared m 4 x.old }
{
    for r in 0..4 {
        Element { m, r }.make_zero(x);
    }
}

// A command that may run.
#[tactic(auto, unfolding(crate::specs::Step::obey, crate::specs::Steps::cleared))]
fn obey(x: &mut Registers, header: Header, command: Command)
    requires { may_run header command ≡ true }
    ensures { x.new ≡ obey header command x.old }
{
    match command {
        Command::Begin(_) => begin(x, header.rank),
        Command::Change(change) => update(x, header, change),
        Command::End | Command::Show(_) => {}
    }
}

// One command, in a sheet that begins with the header, on registers of 4 x 720 words: the count of its ring operations. A show
// changes nothing.
// Example: of rank 1, the unit into register 0 makes the first two words 1 0.
#[tactic(auto, using(crate::proofs::Unsized::step_unsized))]
pub fn step(x: &mut [u64], header: Header, command: Command) -> Result<u64, NotObeyed>
    ensures { step_call header command x.old ≡ record { answer = result; lent = x.new } }
{
    let Some(registers) = x.as_mut_array() else {
        return Err(NotObeyed);
    };
    if !operands::may_run(header, command) {
        return Err(NotObeyed);
    }
    obey(registers, header, command);
    Ok(costs::cost(header.rank, command))
}
