ghost use Rattle.std.specs.Prelude.{◌≡◌, ◌≤◌, OnOk};
ghost use Rattle.dirac_types.specs.Settings.{IsAccepted, verdict};
ghost use Rattle.dirac_command_line.specs.Checks.{bad_workers, first_bad_for_make, first_bad_for_rate};

use dirac_types::{BadSetting, Name, Settings};

// The most workers that decode a stream.
const MOST_WORKERS: u32 = 64;

/// The most pictures that are made.
const MOST_PICTURES: u32 = 1000;

/// The least budget: a unit's parse info, and one byte of payload.
const LEAST_BUDGET: u32 = 14;

/// Whether a number of workers is from 1 to 64. An `Err` names it.
#[tactic(auto, using(crate::proofs::Ranges::accepted, crate::proofs::Ranges::none, crate::proofs::Ranges::many))]
pub fn check_workers(workers: u32) -> Result<(), BadSetting>
    ensures exact { result ≡ verdict (bad_workers workers) }
    ensures accepted { OnOk result ((1 ≤ workers) × (workers ≤ 64)) }
{
    if 1 <= workers && workers <= MOST_WORKERS {
        return Ok(());
    }
    Err(BadSetting {
        name: Name::Workers,
        value: workers as u64,
    })
}

/// Whether each setting is in its range, and the number of pictures too. An `Err` names the first that isn't.
pub fn check_make(settings: &Settings, count: u32) -> Result<(), BadSetting>
    ensures exact { result ≡ verdict (first_bad_for_make settings.now count) }
    ensures accepted { OnOk result (IsAccepted settings.now) }
    ensures count { OnOk result (count ≤ 1000) }
{
    match settings.check() {
        Ok(()) if count <= MOST_PICTURES => Ok(()),
        Ok(()) => Err(BadSetting {
            name: Name::Count,
            value: count as u64,
        }),
        Err(bad) => Err(bad),
    }
}

/// Whether each setting is in its range, and the budget too. An `Err` names the first that isn't.
pub fn check_rate(settings: &Settings, budget: u32) -> Result<(), BadSetting>
    ensures exact { result ≡ verdict (first_bad_for_rate settings.now budget) }
    ensures accepted { OnOk result (IsAccepted settings.now) }
{
    match settings.check() {
        Ok(()) if LEAST_BUDGET <= budget => Ok(()),
        Ok(()) => Err(BadSetting {
            name: Name::Budget,
            value: u64::from(budget),
        }),
        Err(bad) => Err(bad),
    }
}
