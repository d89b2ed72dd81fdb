//! What holds of all vectors that keep inside, as the contract of a function that does nothing.

ghost use Rattle.dirac_inside_laws.specs.Alike.{ClampingExtends, ExtensionsPredictAlike, WeightedPositionsAreInside};

/// Where the vectors of a block table keep inside, each position that counts in a prediction takes half samples of the
/// reference alone, so that the prediction hangs on nothing that a decoder puts round its references.
pub fn vectors_that_keep_inside_predict_alike()
    // All positions that have a weight take nothing outside.
    ensures positions { WeightedPositionsAreInside }
    // The prediction of a plane is the same under every way to extend the references.
    ensures planes { ExtensionsPredictAlike }
    // The prediction that decoders make is the one by clamped positions.
    ensures clamped { ClampingExtends }
{}
