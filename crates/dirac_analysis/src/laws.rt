//! What holds of the subbands of all planes, as the contract of a function that does nothing.
ghost use Rattle.dirac_analysis.specs.Laws.{PlanesAreKept, PlanesFit};

/// The subbands of a plane fit what codes them, and hold all of the plane.
pub fn planes_are_coded()
    // Each band has the sizes of its level, and its coefficients stay below 2^38.
    ensures fits { PlanesFit }
    // At index 0 nothing is lost.
    ensures kept { PlanesAreKept }
{}
