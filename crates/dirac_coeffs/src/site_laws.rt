//! What holds of all subbands whose blocks were found, as the contract of a function that does nothing.
ghost use Rattle.dirac_coeffs.specs.Sites.{BandsAreReadAtSites};

/// A subband is read as its block is found, and is then read there.
pub fn a_band_is_read_where_its_block_is_found()
    ensures { BandsAreReadAtSites }
{}
