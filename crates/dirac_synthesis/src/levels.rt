//! One level of the synthesis: from an LL band and the three coded bands beside it to the LL band of the next level.
ghost use Rattle.std.specs.Prelude.{◌≡◌, IfOk};
ghost use Rattle.dirac_synthesis.specs.Levels.{IsLevel, level_plane, next_low};

use crate::bands::{LevelBands, Synthesis, have_one_index};
use crate::held::Residual;
use crate::join::join_restored;
use crate::narrow::{are_narrow, narrow_level};
use crate::restore::restore_band;
use dirac_bands::join_bands;
use dirac_common::{Narrow, NoMemory, Wide};
use dirac_lift::{Held, is_narrow, synth_level};
use std::alloc::Global;

/// The plane of a level, wide: its four bands interleaved.
fn wide_plane(alloc: Global, by: Synthesis, low: &Wide, bands: LevelBands) -> Result<Wide, NoMemory>
    requires { IsLevel by low.now bands }
    ensures { IfOk result (λ t. t ≡ level_plane by low.now bands.entry) }
{
    if have_one_index(bands, by.counts) {
        return join_restored(alloc, by, low, bands);
    }
    let right = restore_band(alloc, bands.hl, by.counts, by.kind)?;
    let below = restore_band(alloc, bands.lh, by.counts, by.kind)?;
    let corner = restore_band(alloc, bands.hh, by.counts, by.kind)?;
    let plane = join_bands(alloc, low, &right, &below, &corner)?;
    Ok(plane)
}

/// The LL band of the next level by wide numbers, held in 32 bits where these are enough for it.
pub fn wide_level(
    alloc: Global,
    by: Synthesis,
    low: &Wide,
    bands: LevelBands,
) -> Result<Residual, NoMemory>
    requires { IsLevel by low.now bands }
    ensures { IfOk result (λ t. t ≡ next_low by low.now bands.entry) }
{
    let mut plane = wide_plane(alloc, by, low, bands)?;
    synth_level(by.wavelet, &mut plane);
    Residual::try_of(alloc, plane)
}

/// The LL band of the next level, where this one is in 32 bits: so is that, where the codeblocks of each band have its
/// index and all coefficients allow it.
fn level_of_narrow(
    alloc: Global,
    by: Synthesis,
    low: &Narrow,
    bands: LevelBands,
) -> Result<Residual, NoMemory>
    requires { IsLevel by low.now bands }
    ensures { IfOk result (λ t. t ≡ next_low by low.now bands.entry) }
{
    if is_narrow(low.values()) && are_narrow(bands, by.kind) && have_one_index(bands, by.counts) {
        let next = narrow_level(alloc, by, low, bands)?;
        return Ok(Residual::of_narrow(next));
    }
    let wide = low.try_wide(alloc)?;
    wide_level(alloc, by, &wide, bands)
}

/// The LL band of the next level.
pub fn next_level(
    alloc: Global,
    by: Synthesis,
    low: &Residual,
    bands: LevelBands,
) -> Result<Residual, NoMemory>
    requires { IsLevel by low.now bands }
    ensures { IfOk result (λ t. t ≡ next_low by low.now bands.entry) }
{
    match low.held() {
        Held::Narrow(low) => level_of_narrow(alloc, by, low, bands),
        Held::Wide(low) => wide_level(alloc, by, low, bands),
    }
}
