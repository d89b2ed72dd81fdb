//! What the blocks of an inter picture predict for one of its planes, some rows at a time.
ghost use Rattle.std.specs.Prelude.{◌≡◌};
ghost use Rattle.dirac_obmc.specs.Compensation.{IsPredictable, predicted_plane};
ghost use Rattle.dirac_obmc.specs.Directions.{columns_of};
ghost use Rattle.dirac_obmc.specs.Given.{compensation_of};

use dirac_common::NoMemory;
use dirac_obmc::{ColumnWeights, Motion, Predicted, predict_rows_with};
use dirac_synthesis::PredictsRows;
use std::alloc::Global;

/// The motion of a plane, with the weights of its columns, which are made once for all its rows.
#[derive(Drop)]
pub(crate) struct MotionRows<'a> {
    pub motion: Motion<'a>,
    pub weights: ColumnWeights,
}

impl PredictsRows for MotionRows<'_> {
    ghost lawful = { λ r. IsPredictable (compensation_of r.motion)
        × (r.weights ≡ columns_of (compensation_of r.motion)) };

    ghost predicted = { λ r. predicted_plane (compensation_of r.motion) };

    fn rows(&self, alloc: Global, from: u32, to: u32) -> Result<Predicted, NoMemory> {
        let _first = self.motion.up1.width();
        predict_rows_with(alloc, &self.motion, &self.weights, from, to)
    }
}
