//! The last level of a plane whose coefficients are at most 4,095, of which rows are made as they are asked for.
ghost use Rattle.std.specs.Prelude.{◌≡◌, ◌+◌, ◌*◌, ◌<◌, ◌≤◌, ◌==◌, IfOk};
ghost use Rattle.dirac_common.specs.Limits.{IsWavelet};
ghost use Rattle.dirac_lift.specs.Windows.{AreInsideWindow, window_half};
ghost use Rattle.dirac_lift.specs.Windows as windows;
ghost use Rattle.dirac_synthesis.specs.Codeblocks.{restored_by_one};
ghost use Rattle.dirac_synthesis.specs.Halves.{beside};
ghost use Rattle.dirac_synthesis.specs.LastLevel.{HasMade, IsLastLevel, even_halves, last_residual};
ghost use Rattle.dirac_synthesis.specs.LastLevel.{odd_halves};
ghost use Rattle.dirac_synthesis.specs.NarrowLevels.{IsNarrowLevel};
ghost use Rattle.dirac_synthesis.specs.Residual.{rows_between};

use crate::bands::LevelBands;
use crate::cut::cut_narrow;
use crate::held::Residual;
use crate::narrow::RestoredRows;
use dirac_common::{Kind, LARGEST_SIDE, LARGEST_TABLE_SIDE, Narrow, NoMemory};
use dirac_lift::{LinesAtWork, RowPairs, synth_level_by_lines};
use std::alloc::Global;

/// The last level of a plane of `width` by `height` samples before any of its rows is made. The codeblocks of each
/// band have its index.
#[derive(Drop)]
pub struct LastLevel<'a> {
    pub low: Narrow,
    pub bands: LevelBands<'a>,
    pub kind: Kind,
    pub wavelet: u8,
    pub width: u32,
    pub height: u32,
}

impl RowPairs for LastLevel<'_> {
    ghost lawful = { λ l. IsNarrowLevel l.kind l.low l.bands };

    ghost columns = { λ l. 2 * l.low.width };

    ghost pairs = { λ l. l.low.height };

    ghost evens = { λ l. even_halves l };

    ghost odds = { λ l. odd_halves l };

    #[inline(always)]
    fn put_pair(&self, pair: u32, even: &mut [i32], odd: &mut [i32]) {
        let rows = RestoredRows {
            low: &self.low,
            bands: self.bands,
            kind: self.kind,
        };
        rows.put_pair(pair, even, odd);
    }
}

/// Pairs of rows of a level: so many from the first on.
#[derive(Clone, Copy)]
pub struct Pairs {
    pub first: u32,
    pub count: u32,
}

/// A window of a level: some pairs of its rows.
#[derive(Clone, Copy)]
struct Window<'a> {
    rows: RestoredRows<'a>,
    pairs: Pairs,
}

impl RowPairs for Window<'_> {
    ghost lawful = { λ w. IsNarrowLevel w.rows.kind w.rows.low.now w.rows.bands
        × (w.pairs.first + w.pairs.count ≤ w.rows.low.now.height) };

    ghost columns = { λ w. 2 * w.rows.low.now.width };

    ghost pairs = { λ w. w.pairs.count };

    ghost evens = { λ w. window_half (2 * w.rows.low.now.width) w.pairs.first (w.pairs.first + w.pairs.count)
        (beside w.rows.low.now (restored_by_one w.rows.kind w.rows.bands.hl.now)).values };

    ghost odds = { λ w. window_half (2 * w.rows.low.now.width) w.pairs.first (w.pairs.first + w.pairs.count)
        (beside (restored_by_one w.rows.kind w.rows.bands.lh.now)
        (restored_by_one w.rows.kind w.rows.bands.hh.now)).values };

    #[inline(always)]
    fn put_pair(&self, pair: u32, even: &mut [i32], odd: &mut [i32]) {
        let _pairs = self.rows.low.height();
        self.rows.put_pair(self.pairs.first + pair, even, odd);
    }
}

/// How many pairs of rows at an end of a window come out otherwise than in the level.
fn margin(wavelet: u8) -> u32
    requires { IsWavelet wavelet }
    ensures value { result ≡ windows.margin wavelet }
    ensures at_most_7 { result ≤ 7 }
{
    if wavelet == 5 { 7 } else { 3 }
}

/// The pairs, among `half`, that rows `from` to `to` need.
fn pairs_for(wavelet: u8, half: u32, from: u32, to: u32) -> Pairs
    requires wavelet { IsWavelet wavelet }
    requires half { half ≤ LARGEST_SIDE }
    requires some { from < to }
    requires inside { to ≤ 2 * half }
    ensures { AreInsideWindow wavelet half result.first (result.first + result.count) from to }
{
    let margin = margin(wavelet);
    let first = (from / 2).saturating_sub(margin);
    let end = ((to + 1) / 2 + margin).min(half);
    Pairs {
        first,
        count: end - first,
    }
}

/// A last level at work, before its first row.
pub fn lines_of(alloc: Global, level: &LastLevel<'_>) -> Result<LinesAtWork, NoMemory>
    requires { IsLastLevel level.now }
    ensures { IfOk result (HasMade level.now 0) }
{
    let low = &level.low;
    LinesAtWork::begin(alloc, level.wavelet, level, 2 * low.width(), low.height())
}

/// Rows `from` to `to` of the residual that a last level comes to.
pub fn last_rows(
    alloc: Global,
    level: &LastLevel<'_>,
    from: u32,
    to: u32,
) -> Result<Residual, NoMemory>
    requires level { IsLastLevel level.now }
    requires across { level.now.width ≤ LARGEST_TABLE_SIDE }
    requires down { level.now.height ≤ LARGEST_TABLE_SIDE }
    requires some { from < to }
    requires inside { to ≤ level.now.height }
    ensures { IfOk result (λ t. t ≡ rows_between from to (last_residual level.now)) }
{
    let low = &level.low;
    let rows = RestoredRows {
        low,
        bands: level.bands,
        kind: level.kind,
    };
    let pairs = pairs_for(level.wavelet, low.height(), from, to);
    let window = Window { rows, pairs };
    let across = 2 * low.width();
    let made = synth_level_by_lines(alloc, level.wavelet, &window, across, pairs.count)?;
    let above = from - 2 * pairs.first;
    let part = cut_narrow(alloc, &made, above, level.width, to - from)?;
    Ok(Residual::of_narrow(part))
}
