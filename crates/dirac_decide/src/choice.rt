ghost use Rattle.std.specs.Prelude.{◌≡◌, ℕ, ◌≤◌};
ghost use Rattle.dirac_block_table.specs.Tables.{IsBlock};
ghost use Rattle.dirac_costs.specs.Least.{IsToldBelow};
ghost use Rattle.dirac_decide.specs.Choosing.{cheaper, costing};

use dirac_block_table::Block;

/// How the blocks of a unit may be predicted, and what it costs.
#[derive(Clone, Copy)]
pub struct Choice {
    pub cost: u64,
    pub block: Block,
}

/// The choice, unless this block costs less. What it costs is told where it is below the choice's.
pub fn unless_cheaper(choice: Choice, told: u64, block: Block) -> Choice
    ensures value { (cost : ℕ) → IsToldBelow choice.cost cost told → result ≡ cheaper choice (costing cost block) }
    ensures no_more { result.cost ≤ choice.cost }
    ensures block { (refs : ℕ) → IsBlock refs choice.block → IsBlock refs block → IsBlock refs result.block }
{
    if told < choice.cost {
        Choice { cost: told, block }
    } else {
        choice
    }
}
