use crate::analysed::AnalysedBand;
use dirac_lift::Held;

/// The four bands of one level, all of one size.
#[derive(Drop)]
pub struct SplitLevel {
    pub ll: Held,
    pub hl: AnalysedBand,
    pub lh: AnalysedBand,
    pub hh: AnalysedBand,
}
