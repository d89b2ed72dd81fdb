//! The probabilities of contexts.
ghost use Rattle.std.specs.Prelude.{◌≡◌, ◌+◌, ◌-◌, ◌*◌, ◌/◌, ◌^◌, ◌<◌, ◌≤◌, ℕ, List, slice_index, if◌then◌else◌};
ghost use Rattle.dirac_arith.specs.Interval.{adapted};
ghost use Rattle.dirac_arith.specs.StepTable.{probability_step};

use crate::tables::STEPS;

/// By how much a decision moves a probability of this upper byte.
#[tactic(auto, unfolding(crate::specs::StepTable::probability_step, crate::specs::StepTable::step_table))]
fn step(upper: u16) -> u16
    requires { upper < 256 }
    ensures { result ≡ probability_step upper }
{
    STEPS[upper as usize]
}

/// An amount where the decision is true, else 0: without a branch.
#[inline(always)]
fn amount_if(truth: bool, amount: u32) -> u32
    requires { amount < 65536 }
    ensures { result ≡ (if truth then amount else 0) }
{
    u32::from(truth) * amount
}

/// The probability of a context after a decision of this truth.
pub fn adapt(probability: u16, truth: bool) -> u16
    requires at_least_254 { 254 ≤ probability }
    requires at_most_65281 { probability ≤ 65281 }
    ensures exact { result ≡ adapted probability truth }
    ensures at_least_254_result { 254 ≤ result }
    ensures at_most_65281_result { result ≤ 65281 }
{
    let down = u32::from(step(probability / 256));
    let up = u32::from(step(255 - probability / 256));
    (u32::from(probability) + up - amount_if(truth, up + down)) as u16
}
