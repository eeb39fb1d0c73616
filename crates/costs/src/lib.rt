// What a command counts: a function of the rank and of the kind of command.

#![tactic(auto)]

ghost use Rattle.std.specs.Prelude.{◌≡◌, ◌≤◌};
ghost use Rattle.costs.specs.Costs.{update_cost, cost_call};

use sheet_format::{Command, Update};

// The ring operations of an update.
#[tactic(auto, using(ranks::proofs::Sizes::size_is, ranks::proofs::Sizes::product_count_is, ranks::proofs::Sizes::sheet_size_small), unfolding(crate::specs::Costs::update_cost))]
fn update_cost(m: usize, update: Update) -> u64
    requires { m ≤ 5 }
    ensures { result ≡ update_cost m update }
{
    let size = ranks::size(m) as u64;
    match update {
        Update::Unit(_) | Update::Set(..) => 0,
        Update::Letter(..) | Update::InverseLetter(..) => 3 * size / 2,
        Update::Product(..) => ranks::product_count(m),
        Update::Sum(..) | Update::Scale(..) => size,
    }
}

// The ring operations that a command counts in a sheet of the rank if it is obeyed; 0 where it is not in range (whether q has an
// inverse is not judged here).
// Example: a product of rank 1 counts 9.
#[tactic(auto, using(operands::proofs::InRange::low), unfolding(crate::specs::Costs::cost_call, crate::specs::Costs::cost))]
pub fn cost(rank: usize, command: Command) -> u64
    ensures { result ≡ cost_call rank command }
{
    match command {
        Command::Change(update) if operands::in_range(rank, command) => update_cost(rank, update),
        _ => 0,
    }
}
