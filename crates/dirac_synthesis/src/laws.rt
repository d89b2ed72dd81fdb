//! What holds of the residuals of all planes, as the contracts of functions that do nothing.
ghost use Rattle.dirac_synthesis.specs.Codeblocks.{EachPlaceHasACodeblock, OneIndexRestoresAll};
ghost use Rattle.dirac_synthesis.specs.Zeros.{ZerosStandForZeros};

/// Bands of zeros stand for a residual of zeros, so an inter picture whose bands all have zeros alone needs none.
pub fn zero_bands_stand_for_zeros()
    ensures zeros { ZerosStandForZeros }
{}

/// Codeblocks part the columns and rows of a band: each lies in just one, the one whose edges hold it.
pub fn each_place_has_a_codeblock()
    ensures codeblock { EachPlaceHasACodeblock }
{}

/// A band all of whose codeblocks have its index, as in codeblock mode 0, is restored with this alone.
pub fn one_index_restores_all()
    ensures values { OneIndexRestoresAll }
{}
