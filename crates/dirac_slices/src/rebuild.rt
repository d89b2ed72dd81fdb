ghost use Rattle.std.specs.Prelude.{◌≡◌, ◌≤◌, IfOk, Some};
ghost use Rattle.dirac_sequence_header.specs.Lawful.{IsSequence};
ghost use Rattle.dirac_picture.specs.Fits.{FitsSequence};
ghost use Rattle.dirac_content.specs.Content.{AreReferences, IsPicture, rebuilt};
ghost use Rattle.dirac_content.specs.Predicting as predicting;
ghost use Rattle.dirac_slices.specs.Given.{lent_inter, IsInter};

use crate::basis::{Basis, InterBasis, Making};
use crate::filled::filled_picture;
use crate::inter::{Inter, inter_of};
use crate::intra::{Intra, intra_picture};
use crate::prepared::prepare_rows;
use crate::room::picture_room;
use crate::small::workers_for;
use crate::weights::plane_weights;
use dirac_common::{NoMemory, Picture, RowGate};
use dirac_header::PictureHeader;
use dirac_picture::CodedPicture;
use dirac_refs::RefBuffer;
use dirac_sequence_header::Sequence;
use std::alloc::Global;
use std::marker::Sync;
use std::thread::Threads;

/// An inter picture: what its samples are made from is made by workers, and then its planes, in parts. The weights of
/// their columns are made between, once for all.
fn inter_picture<R: Threads + Sync, G: RowGate>(
    rt: &R,
    alloc: Global,
    header: &PictureHeader,
    inter: &Inter<'_>,
    workers: u32,
    gate: &G,
) -> Result<Picture, NoMemory>
    requires inter { IsInter (lent_inter inter.now) }
    requires workers { (1 ≤ workers) × (workers ≤ 64) }
    ensures { IfOk result
        (λ p. p ≡ predicting.inter_picture (lent_inter inter.now).sequence (Some (lent_inter inter.now).first)
        (lent_inter inter.now).second header.now (lent_inter inter.now).motion (lent_inter inter.now).residual) }
{
    let prepared = prepare_rows(rt, alloc, inter, workers, gate)?;
    let weights = plane_weights(alloc, inter, prepared.as_slice())?;
    let basis = Basis::Inter(InterBasis {
        inter,
        prepared: prepared.as_slice(),
        weights: &weights,
    });
    let room = picture_room(alloc, inter.sequence)?;
    let making = Making { alloc, basis };
    filled_picture(rt, gate, &making, header.number, room, workers)
}

/// The picture that a coded picture stands for, made by that many workers. A map of rows makes the residual planes, but
/// for a last level that can wait, and those upconverted planes of its references that aren't kept. Then each worker
/// makes its share of the rows of each plane, and writes it where it belongs. Each worker passes the gate before it
/// works on a row of the map, and before its share, whose number is the worker's. Threads are started for both, so
/// twice for a picture, and once more where `read_planes_rows` reads its subbands. A small intra picture has one map
/// alone, whose rows are its planes.
pub fn rebuild_rows<R: Threads + Sync, G: RowGate>(
    rt: &R,
    alloc: Global,
    coded: &CodedPicture,
    sequence: &Sequence,
    refs: &RefBuffer,
    workers: u32,
    gate: &G,
) -> Result<Picture, NoMemory>
    requires sequence { IsSequence sequence.now }
    requires fits { FitsSequence coded.now.code sequence.now coded.now }
    requires refs { AreReferences sequence.now refs.now coded.now.header }
    requires workers { (1 ≤ workers) × (workers ≤ 64) }
    ensures value { IfOk result (λ p. p ≡ rebuilt sequence.now refs.now coded.now) }
    ensures fits { IfOk result (IsPicture sequence.now) }
{
    let workers = workers_for(sequence, workers);
    match &coded.motion {
        None => {
            let intra = Intra {
                sequence,
                residual: &coded.residual,
            };
            intra_picture(rt, alloc, coded.header.number, &intra, workers, gate)
        }
        Some(motion) => {
            let inter = inter_of(coded, motion, sequence, refs);
            inter_picture(rt, alloc, &coded.header, &inter, workers, gate)
        }
    }
}
