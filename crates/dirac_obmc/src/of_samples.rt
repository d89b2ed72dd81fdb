ghost use Rattle.dirac_obmc.specs.OfSamples.{PlanesOfSamples, SamplesPredictSamples};

/// With the default weights, references of samples and DC values that are samples predict samples, since the weights
/// of the blocks at a sample sum to 64 and each rounding keeps a mean between what it is the mean of.
pub fn samples_predict_samples()
    ensures samples { SamplesPredictSamples }
    ensures planes { PlanesOfSamples }
{}
