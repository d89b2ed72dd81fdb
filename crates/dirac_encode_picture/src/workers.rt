//! The planes of a picture, made by one worker or by several.

ghost use Rattle.std.specs.Prelude.{◌≡◌, [], None, IfOk, IfSome};
ghost use Rattle.dirac_picture.specs.Texts.{AreTexts};
ghost use Rattle.dirac_content.specs.Content.{rebuilt};
ghost use Rattle.dirac_encode_planes.specs.Analysing.{AreAnalysedPlanes, AreQuantisedBands, CanBeAnalysed};
ghost use Rattle.dirac_encode_planes.specs.Analysing.{CanBeQuantised};
ghost use Rattle.dirac_reconstruct.specs.Finishing.{IsFinishable};
ghost use Rattle.dirac_encode_picture.specs.Predicting.{PlanesArePredicted, CanBePredicted};

use crate::predictions::{Predicting, predict_planes, predict_side_by_side};
use dirac_common::NoMemory;
use dirac_encode_planes::{
    AnalysedPlanes, Analysing, Planes, Predictions, Quantising, analyse_planes,
    analyse_side_by_side, quantise_planes, quantise_side_by_side,
};
use dirac_picture::PlaneBands;
use dirac_reconstruct::{Finished, Finishing, finish, finish_side_by_side};
use std::alloc::Global;
use std::marker::Sync;
use std::thread::Threads;

/// Those who make the planes of a picture.
pub(crate) trait Workers {
    /// Threads may share what they work with.
    ghost are_shared: { Self → Type 0 };

    /// Predicts the planes of an inter picture as decoders do.
    fn predict(&self, alloc: Global, from: &Predicting<'_>) -> Result<Predictions, NoMemory>
        requires shared { are_shared self.now }
        requires from { CanBePredicted from.now }
        ensures { IfOk result (PlanesArePredicted from.now) };

    /// The planes of a picture, or what is left of them, analysed.
    fn analyse(&self, alloc: Global, from: &Analysing<'_, '_>) -> Result<AnalysedPlanes, NoMemory>
        requires shared { are_shared self.now }
        requires from { CanBeAnalysed from.now }
        ensures { IfOk result (AreAnalysedPlanes from.now) };

    /// The subbands of analysed planes, quantised.
    fn quantise(&self, alloc: Global, from: &Quantising<'_>) -> Result<Planes<PlaneBands>, NoMemory>
        requires shared { are_shared self.now }
        requires from { CanBeQuantised from.now }
        ensures { IfOk result (AreQuantisedBands from.now) };

    /// Writes the bands of a coded picture, and shows it.
    fn finish(&self, alloc: Global, from: &Finishing<'_>) -> Result<Finished, NoMemory>
        requires shared { are_shared self.now }
        requires from { IsFinishable from.now }
        ensures texts { IfOk result (λ f. IfSome from.now.coded.now.residual
            (λ r. AreTexts from.now.sequence.now r f.texts)) }
        ensures none { from.now.coded.now.residual ≡ None → IfOk result (λ f. (f.texts.y.items ≡ [])
            × (f.texts.u.items ≡ []) × (f.texts.v.items ≡ [])) }
        ensures shown { IfOk result (λ f. f.shown
            ≡ rebuilt from.now.sequence.now from.now.refs.now from.now.coded.now) };
}

/// One worker makes one plane after the other.
#[derive(Drop)]
pub(crate) struct OneWorker;

impl Workers for OneWorker {
    ghost are_shared = { λ w. Unit {0} };

    fn predict(&self, alloc: Global, from: &Predicting<'_>) -> Result<Predictions, NoMemory> {
        predict_planes(alloc, from)
    }

    fn analyse(&self, alloc: Global, from: &Analysing<'_, '_>) -> Result<AnalysedPlanes, NoMemory> {
        analyse_planes(alloc, from)
    }

    fn quantise(
        &self,
        alloc: Global,
        from: &Quantising<'_>,
    ) -> Result<Planes<PlaneBands>, NoMemory> {
        quantise_planes(alloc, from)
    }

    fn finish(&self, alloc: Global, from: &Finishing<'_>) -> Result<Finished, NoMemory> {
        finish(alloc, from)
    }
}

/// So many workers make the planes side by side, in threads of their own where threads can be had.
#[derive(Drop)]
pub(crate) struct SeveralWorkers<'a, R: Threads + Sync> {
    pub(crate) rt: &'a R,
    pub(crate) count: u32,
}

impl<'a, R: Threads + Sync> Workers for SeveralWorkers<'a, R> {
    ghost use Rattle.std.specs.Thread.{IsSync};

    ghost are_shared = { λ w. IsSync R.row };

    fn predict(&self, alloc: Global, from: &Predicting<'_>) -> Result<Predictions, NoMemory> {
        if self.count <= 1 {
            return predict_planes(alloc, from);
        }
        predict_side_by_side(self.rt, alloc, from, self.count)
    }

    fn analyse(&self, alloc: Global, from: &Analysing<'_, '_>) -> Result<AnalysedPlanes, NoMemory> {
        if self.count <= 1 {
            return analyse_planes(alloc, from);
        }
        analyse_side_by_side(self.rt, alloc, from, self.count)
    }

    fn quantise(
        &self,
        alloc: Global,
        from: &Quantising<'_>,
    ) -> Result<Planes<PlaneBands>, NoMemory> {
        if self.count <= 1 {
            return quantise_planes(alloc, from);
        }
        quantise_side_by_side(self.rt, alloc, from, self.count)
    }

    fn finish(&self, alloc: Global, from: &Finishing<'_>) -> Result<Finished, NoMemory> {
        if self.count <= 1 {
            return finish(alloc, from);
        }
        finish_side_by_side(self.rt, alloc, from, self.count)
    }
}
