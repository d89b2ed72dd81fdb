//! What the coding of a picture shares between all quantiser indices: its prediction, and the analysis of what is left.

ghost use Rattle.std.specs.Prelude.{◌≡◌, false, true, None, Some, IfOk};
ghost use Rattle.std.specs.Option.{ForSome, option_copied};
ghost use Rattle.dirac_picture.specs.Grammar.{is_intra};
ghost use Rattle.dirac_encode_laws.specs.Laws.{IsWholePicture};
ghost use Rattle.dirac_motion.specs.Chosen.{IsChosen};
ghost use Rattle.dirac_encode_picture.specs.Asked.{CanBeCoded, HasBlocks, IsMoving, blocks_of};
ghost use Rattle.dirac_encode_picture.specs.Prepared.{IsPreparedFor, blocks_in};

use crate::asked::Asked;
use crate::motion::motion_of;
use crate::predictions::Predicting;
use crate::transform::transform_of;
use crate::workers::{OneWorker, Workers};
use dirac_block_table::BlockData;
use dirac_common::{NoMemory, Picture};
use dirac_content::named_reference;
use dirac_encode_planes::{AnalysedPlanes, Analysing};
use dirac_motion::{Lumas, References};
use dirac_rebuild::Moved;
use dirac_reconstruct::Compensated;
use dirac_sequence::sequence_of;
use std::alloc::Global;

/// What an inter picture is predicted from, and the block table by which it is.
#[derive(Clone, Copy)]
pub(crate) struct Moving<'a> {
    pub(crate) references: &'a References<'a>,
    pub(crate) blocks: &'a BlockData,
}

/// A planned picture, ready to be coded at any quantiser index: what it is predicted by, and the analysis of what is
/// left of its planes.
#[derive(Drop)]
pub struct Prepared {
    /// Just inter pictures have it.
    pub(crate) compensated: Option<Compensated>,
    pub(crate) left: AnalysedPlanes,
}

/// The planes of a picture have as many samples as their sizes tell.
fn are_whole(picture: &Picture)
    ensures { IsWholePicture picture.now }
{
    let _y = picture.y.width();
    let _u = picture.u.width();
    let _v = picture.v.width();
}

/// Prepares an intra picture.
fn prepare_intra<W: Workers>(
    workers: &W,
    alloc: Global,
    asked: &Asked<'_>,
) -> Result<Prepared, NoMemory>
    requires shared { W.are_shared workers.now }
    requires asked { CanBeCoded asked.now }
    requires as_many_samples { IsWholePicture asked.now.source.now }
    requires intra { is_intra asked.now.planned.now.code ≡ true }
    ensures prepared { IfOk result (IsPreparedFor asked.now) }
    ensures blocks { IfOk result (λ x. blocks_in x ≡ None) }
{
    let transform = transform_of(asked.settings);
    let from = Analysing {
        transform: &transform,
        source: asked.source,
        predictions: None,
    };
    let left = workers.analyse(alloc, &from)?;
    Ok(Prepared {
        compensated: None,
        left,
    })
}

/// Prepares an inter picture, predicted by this block table from these references, which are among the listed pictures.
fn prepare_inter<W: Workers>(
    workers: &W,
    alloc: Global,
    asked: &Asked<'_>,
    moving: Moving<'_>,
) -> Result<Prepared, NoMemory>
    requires shared { W.are_shared workers.now }
    requires asked { CanBeCoded asked.now }
    requires as_many_samples { IsWholePicture asked.now.source.now }
    requires inter { is_intra asked.now.planned.now.code ≡ false }
    requires moving { IsMoving asked.now.settings.now asked.now.refs.now asked.now.planned.now moving }
    requires blocks { IsChosen asked.now.settings.now asked.now.planned.now.code moving.blocks.now }
    ensures prepared { IfOk result (IsPreparedFor asked.now) }
    ensures blocks { IfOk result (λ x. blocks_in x ≡ Some moving.entry.blocks.now) }
{
    let motion = motion_of(alloc, asked.settings, moving.blocks)?;
    let sequence = sequence_of(asked.settings);
    let moved = Moved {
        code: asked.planned.code,
        sequence: &sequence,
        motion: &motion,
    };
    let from = Predicting {
        moved,
        references: moving.references,
    };
    let predictions = workers.predict(alloc, &from)?;
    let predicted = Some(&predictions);
    let transform = transform_of(asked.settings);
    let rest = Analysing {
        transform: &transform,
        source: asked.source,
        predictions: predicted,
    };
    let left = workers.analyse(alloc, &rest)?;
    let compensated = Compensated {
        motion,
        predictions,
    };
    Ok(Prepared {
        compensated: Some(compensated),
        left,
    })
}

/// Prepares a picture as it is planned, an inter picture predicted by this block table from these references.
pub(crate) fn prepare_by<W: Workers>(
    workers: &W,
    alloc: Global,
    asked: &Asked<'_>,
    moving: Option<Moving<'_>>,
) -> Result<Prepared, NoMemory>
    requires shared { W.are_shared workers.now }
    requires asked { CanBeCoded asked.now }
    requires moving { ForSome moving (IsMoving asked.now.settings.now asked.now.refs.now asked.now.planned.now) }
    requires blocks { HasBlocks asked.now.settings.now asked.now.planned.now.code (blocks_of moving) }
    ensures prepared { IfOk result (IsPreparedFor asked.now) }
    ensures blocks { IfOk result (λ x. blocks_in x ≡ blocks_of moving.entry) }
{
    are_whole(asked.source);
    match moving {
        None => prepare_intra(workers, alloc, asked),
        Some(moving) => prepare_inter(workers, alloc, asked, moving),
    }
}

/// Prepares an inter picture by this block table. Its references are looked up, and their luma is upconverted where it
/// isn't kept.
fn prepare_looked_up(
    alloc: Global,
    asked: &Asked<'_>,
    blocks: &BlockData,
) -> Result<Prepared, NoMemory>
    requires asked { CanBeCoded asked.now }
    requires inter { is_intra asked.now.planned.now.code ≡ false }
    requires blocks { IsChosen asked.now.settings.now asked.now.planned.now.code blocks.now }
    ensures prepared { IfOk result (IsPreparedFor asked.now) }
    ensures blocks { IfOk result (λ x. blocks_in x ≡ Some blocks.now) }
{
    let second = named_reference(asked.refs, asked.planned.ref2);
    match named_reference(asked.refs, asked.planned.ref1) {
        None => unreachable!(),
        Some(first) => {
            let lumas = Lumas::of(alloc, first, second, asked.settings)?;
            let references = lumas.lend(first, second);
            let moving = Moving {
                references: &references,
                blocks,
            };
            let moving = Some(moving);
            prepare_by(&OneWorker, alloc, asked, moving)
        }
    }
}

/// Prepares a picture as it is planned, an inter picture predicted by this block table: `code_prepared` then codes it
/// at any quantiser index.
pub fn prepare(
    alloc: Global,
    asked: &Asked<'_>,
    blocks: Option<&BlockData>,
) -> Result<Prepared, NoMemory>
    requires asked { CanBeCoded asked.now }
    requires blocks { HasBlocks asked.now.settings.now asked.now.planned.now.code (option_copied blocks) }
    ensures prepared { IfOk result (IsPreparedFor asked.now) }
    ensures blocks { IfOk result (λ x. blocks_in x ≡ option_copied blocks.entry) }
{
    match blocks {
        None => prepare_by(&OneWorker, alloc, asked, None),
        Some(blocks) => prepare_looked_up(alloc, asked, blocks),
    }
}
