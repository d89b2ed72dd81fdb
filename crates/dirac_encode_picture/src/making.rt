//! From a prepared picture to its coded picture.

ghost use Rattle.std.specs.Prelude.{◌≡◌, None, Some, IfOk};
ghost use Rattle.dirac_encode_laws.specs.Codable.{IsCodable};
ghost use Rattle.dirac_encode_laws.specs.Coded as coding;
ghost use Rattle.dirac_encode_planes.specs.Analyses.{AreQuantisablePlanes};
ghost use Rattle.dirac_encode_picture.specs.Prepared.{IsPreparedFor, blocks_in, coded_for, quantised_planes};

use crate::asked::Asked;
use crate::left_out::unless_left_out;
use crate::motion::motion_of;
use crate::prepared::Prepared;
use crate::transform::transform_of;
use crate::workers::Workers;
use dirac_common::{Kind, NoMemory};
use dirac_encode_planes::{AnalysedPlanes, Planes, Quantising};
use dirac_header::PictureHeader;
use dirac_picture::{CodedPicture, CodedResidual};
use dirac_plan::Planned;
use dirac_reconstruct::Compensated;
use dirac_types::Settings;
use std::alloc::Global;

/// The header of a planned picture.
fn header_of(planned: &Planned) -> PictureHeader
    ensures { result ≡ coding.header_of planned.now }
{
    PictureHeader {
        number: planned.number,
        ref1: planned.ref1,
        ref2: planned.ref2,
        retire: planned.retire,
    }
}

/// The coded residual of analysed planes, quantised at the index of these settings.
fn residual_at<W: Workers>(
    workers: &W,
    alloc: Global,
    settings: &Settings,
    kind: Kind,
    planes: &AnalysedPlanes,
) -> Result<CodedResidual, NoMemory>
    requires shared { W.are_shared workers.now }
    requires codable { IsCodable settings.now }
    requires fits { AreQuantisablePlanes settings.now.depth planes.now }
    ensures { IfOk result (λ r. r ≡ quantised_planes settings.now kind planes.now) }
{
    let transform = transform_of(settings);
    let from = Quantising {
        transform: &transform,
        finer: settings.finer as u8,
        index: settings.index as u8,
        kind,
        planes,
    };
    let bands = workers.quantise(alloc, &from)?;
    let Planes { y, u, v } = bands;
    Ok(CodedResidual { transform, y, u, v })
}

/// Codes an intra picture.
fn coded_intra<W: Workers>(
    workers: &W,
    alloc: Global,
    asked: &Asked<'_>,
    prepared: &Prepared,
) -> Result<CodedPicture, NoMemory>
    requires shared { W.are_shared workers.now }
    requires prepared { IsPreparedFor asked.now prepared.now }
    requires intra { prepared.now.compensated ≡ None }
    ensures { IfOk result (λ c. c ≡ coded_for asked.now None) }
{
    let residual = residual_at(workers, alloc, asked.settings, Kind::Intra, &prepared.left)?;
    Ok(CodedPicture {
        code: asked.planned.code,
        header: header_of(asked.planned),
        motion: None,
        residual: Some(residual),
    })
}

/// Codes an inter picture.
fn coded_inter<W: Workers>(
    workers: &W,
    alloc: Global,
    asked: &Asked<'_>,
    prepared: &Prepared,
    compensated: &Compensated,
) -> Result<CodedPicture, NoMemory>
    requires shared { W.are_shared workers.now }
    requires prepared { IsPreparedFor asked.now prepared.now }
    requires inter { prepared.now.compensated ≡ Some compensated.now }
    ensures { IfOk result (λ c. c ≡ coded_for asked.now (Some compensated.now.motion.blocks)) }
{
    let motion = motion_of(alloc, asked.settings, &compensated.motion.blocks)?;
    let residual = residual_at(workers, alloc, asked.settings, Kind::Inter, &prepared.left)?;
    Ok(CodedPicture {
        code: asked.planned.code,
        header: header_of(asked.planned),
        motion: Some(motion),
        residual: unless_left_out(asked.settings, residual),
    })
}

/// The coded picture of a planned source.
pub(crate) fn coded_picture<W: Workers>(
    workers: &W,
    alloc: Global,
    asked: &Asked<'_>,
    prepared: &Prepared,
) -> Result<CodedPicture, NoMemory>
    requires shared { W.are_shared workers.now }
    requires prepared { IsPreparedFor asked.now prepared.now }
    ensures { IfOk result (λ c. c ≡ coded_for asked.now (blocks_in prepared.now)) }
{
    match &prepared.compensated {
        None => coded_intra(workers, alloc, asked, prepared),
        Some(compensated) => coded_inter(workers, alloc, asked, prepared, compensated),
    }
}
