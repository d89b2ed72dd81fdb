//! The bands of a level, and how they are synthesised.
ghost use Rattle.std.specs.Prelude.{◌≡◌, true};
ghost use Rattle.dirac_common.specs.declared.formats.Kind.{Kind as TheKind};
ghost use Rattle.dirac_synthesis.specs.Codeblocks.{HasIndices, restored_band, restored_by_one};

use crate::codeblocks::has_one_index;
use dirac_coeffs::CodedBand;
use dirac_common::Kind;

/// How the bands of a level are restored and synthesised: by which wavelet, in which kind of picture, and how many
/// codeblocks, across and down, each band has.
#[derive(Clone, Copy)]
pub struct Synthesis {
    pub wavelet: u8,
    pub kind: Kind,
    pub counts: (u32, u32),
}

/// The three coded bands of a level that stand beside its LL band.
#[derive(Clone, Copy)]
pub struct LevelBands<'a> {
    pub hl: &'a CodedBand,
    pub lh: &'a CodedBand,
    pub hh: &'a CodedBand,
}

/// A level: how it is synthesised, and the bands beside its LL band.
#[derive(Clone, Copy)]
pub struct Level<'a> {
    pub by: Synthesis,
    pub bands: LevelBands<'a>,
}

/// Whether the codeblocks of each of the bands have its index: then this restores all its values.
pub fn have_one_index(bands: LevelBands, counts: (u32, u32)) -> bool
    requires hl { HasIndices counts bands.hl.now }
    requires lh { HasIndices counts bands.lh.now }
    requires hh { HasIndices counts bands.hh.now }
    ensures hl { result ≡ true → (kind : TheKind) → restored_band kind counts bands.entry.hl.now
        ≡ restored_by_one kind bands.entry.hl.now }
    ensures lh { result ≡ true → (kind : TheKind) → restored_band kind counts bands.entry.lh.now
        ≡ restored_by_one kind bands.entry.lh.now }
    ensures hh { result ≡ true → (kind : TheKind) → restored_band kind counts bands.entry.hh.now
        ≡ restored_by_one kind bands.entry.hh.now }
{
    has_one_index(bands.hl, counts)
        && has_one_index(bands.lh, counts)
        && has_one_index(bands.hh, counts)
}
