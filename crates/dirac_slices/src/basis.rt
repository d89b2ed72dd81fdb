//! What the samples of a picture are made from.
ghost use Rattle.std.specs.Prelude.{◌≡◌, ◌<◌, ◌≤◌, IfOk};
ghost use Rattle.dirac_sequence_header.specs.Lawful.{IsSequence};
ghost use Rattle.dirac_content.specs.Content as content;
ghost use Rattle.dirac_slices.specs.Basis.{planes_of, basis_sequence, IsBasis};
ghost use Rattle.dirac_slices.specs.Places as places;
ghost use Rattle.dirac_slices.specs.Samples.{samples_between};

use crate::inter::Inter;
use crate::intra::Intra;
use crate::prepared::Prepared;
use crate::weights::PlaneWeights;
use crate::{intra, predict};
use dirac_common::{NoMemory, Plane};
use dirac_sequence_header::Sequence;
use dirac_synthesis::Unfinished;
use std::alloc::Global;

/// An intra picture with the residuals of its planes.
#[derive(Clone, Copy)]
pub struct IntraBasis<'r, 'a> {
    pub intra: &'r Intra<'a>,
    pub residuals: &'r [Unfinished<'a>],
}

/// An inter picture with what its samples are made from, and the weights of its columns.
#[derive(Clone, Copy)]
pub struct InterBasis<'r, 'a> {
    pub inter: &'r Inter<'a>,
    pub prepared: &'r [Prepared<'a>],
    pub weights: &'r PlaneWeights,
}

/// What the samples of a picture are made from.
#[derive(Clone, Copy)]
pub enum Basis<'r, 'a> {
    Intra(IntraBasis<'r, 'a>),
    Inter(InterBasis<'r, 'a>),
}

/// What the samples of a picture are made from, and the memory for the work on them. Workers share it.
#[derive(Clone, Copy)]
pub struct Making<'r, 'a> {
    pub alloc: Global,
    pub basis: Basis<'r, 'a>,
}

/// Lends the sequence of the picture.
pub(crate) fn lent_sequence<'a>(making: &Making<'_, 'a>) -> &'a Sequence
    requires { IsBasis making.now.basis }
    ensures value { result.now ≡ basis_sequence making.now.basis }
    ensures lawful { IsSequence result.now }
{
    match &making.basis {
        Basis::Intra(basis) => basis.intra.sequence,
        Basis::Inter(basis) => basis.inter.sequence,
    }
}

/// The samples of rows `from` to `to` of the plane of this number.
pub(crate) fn samples_of(
    making: &Making<'_, '_>,
    plane: u32,
    from: u32,
    to: u32,
) -> Result<Plane, NoMemory>
    requires basis { IsBasis making.now.basis }
    requires plane { plane < 3 }
    requires some { from < to }
    requires inside { to ≤ content.height_of (basis_sequence making.now.basis) (places.component_at plane) }
    ensures { IfOk result (λ t. t ≡ samples_between (basis_sequence making.now.basis) (planes_of making.now.basis)
        (places.component_at plane) from to) }
{
    let alloc = making.alloc;
    match &making.basis {
        Basis::Intra(basis) => {
            intra::samples_at(alloc, basis.intra, basis.residuals, plane, from, to)
        }
        Basis::Inter(basis) => predict::samples_at(
            alloc,
            basis.inter,
            basis.prepared,
            basis.weights,
            plane,
            from,
            to,
        ),
    }
}
