// What is judged of one command of a sheet: whether its operands are in range, and whether q has an inverse if it needs one. The rank is a
// plain number, as it stands in the sheet.

#![tactic(auto)]

ghost use Rattle.std.specs.Prelude.{◌≡◌, not, ◌||◌, ◌≤◌};
ghost use Rattle.lists.specs.Lists.{same, less};
ghost use Rattle.operands.specs.Operands.{is_register, update_in_range, query_in_range, operands_in_range, in_range, invertible, may_run};

use sheet_format::{Command, Header, Query, Update};

#[tactic(auto, unfolding(crate::specs::Operands::is_register, lists::specs::Lists::less))]
fn is_register(r: usize) -> bool
    ensures { result ≡ is_register r }
{
    r < 4
}

#[tactic(auto, unfolding(lists::specs::Lists::same, lists::specs::Lists::less))]
fn is_letter(m: usize, i: u8) -> bool
    ensures { result ≡ not (same i 0 || less m i) }
{
    i != 0 && usize::from(i) <= m
}

#[tactic(auto, using(ranks::proofs::Sizes::size_is), unfolding(crate::specs::Operands::update_in_range, lists::specs::Lists::less))]
fn update_in_range(m: usize, update: Update) -> bool
    requires { m ≤ 6 }
    ensures { result ≡ update_in_range m update }
{
    match update {
        Update::Unit(r) | Update::Scale(r, _) => is_register(r),
        Update::Set(r, i, _) => is_register(r) && i < ranks::size(m),
        Update::Letter(r, i) | Update::InverseLetter(r, i) => is_register(r) && is_letter(m, i),
        Update::Product(d, a, b) | Update::Sum(d, a, b) => is_register(d)
            && is_register(a)
            && is_register(b),
    }
}

#[tactic(auto, unfolding(crate::specs::Operands::query_in_range))]
fn query_in_range(query: Query) -> bool
    ensures { result ≡ query_in_range query }
{
    match query {
        Query::Register(r) | Query::Trace(r, _) => is_register(r),
        Query::Pairing(a, b) | Query::Equality(a, b) => is_register(a) && is_register(b),
    }
}

// Whether the operands are in range in a sheet of rank m.
#[tactic(auto, unfolding(crate::specs::Operands::operands_in_range, lists::specs::Lists::same))]
fn operands_in_range(m: usize, command: Command) -> bool
    requires { m ≤ 6 }
    ensures { result ≡ operands_in_range m command }
{
    match command {
        Command::End => true,
        Command::Begin(header) => header.rank == m,
        Command::Change(update) => update_in_range(m, update),
        Command::Show(query) => query_in_range(query),
    }
}

// Whether m is the rank of a sheet, and the operands are in range in a sheet of rank m.
// Example: a letter 3 is out of range at rank 2.
#[tactic(auto, unfolding(crate::specs::Operands::in_range, lists::specs::Lists::less))]
pub fn in_range(m: usize, command: Command) -> bool
    ensures { result ≡ in_range m command }
{
    m <= 5 && operands_in_range(m, command)
}

// Whether q has an inverse modulo 2^64 if the command needs one.
// Example: with q = 2 a letter needs none, and an inverse letter has none.
#[tactic(auto, unfolding(crate::specs::Operands::invertible))]
pub fn invertible(q: u64, command: Command) -> bool
    ensures { result ≡ invertible q command }
{
    match command {
        Command::Change(Update::InverseLetter(..)) => inverses::has_inverse(q),
        _ => true,
    }
}

// Whether a sheet that begins with the header may have the command: its operands are in range, and q has an inverse modulo 2^64 if
// the command needs one.
// Example: with q = 2 an inverse letter may not run, and with q = 3 it may.
#[tactic(auto, unfolding(crate::specs::Operands::may_run))]
pub fn may_run(header: Header, command: Command) -> bool
    ensures { result ≡ may_run header command }
{
    in_range(header.rank, command) && invertible(header.q, command)
}
