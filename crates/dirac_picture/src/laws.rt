//! What holds of all planes, as the contract of a function that does nothing.
ghost use Rattle.dirac_picture.specs.Chains.{PlanesAreReadByChains};

/// A plane whose blocks were found is read as the bands of its orientations are, each apart from the others.
pub fn planes_are_read_by_chains()
    ensures { PlanesAreReadByChains }
{}
