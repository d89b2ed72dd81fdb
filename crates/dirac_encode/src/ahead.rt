//! Intra pictures, coded before they are asked for.

ghost use Rattle.std.specs.Prelude.{◌≡◌, true, None, IfSome};
ghost use Rattle.dirac_types.specs.Settings.{IsAccepted};
ghost use Rattle.dirac_picture.specs.Grammar.{is_intra};
ghost use Rattle.dirac_plan_laws.specs.Headers.{IsPlanned};
ghost use Rattle.dirac_encode_laws.specs.Coded.{IsSource};
ghost use Rattle.dirac_encode.specs.Ahead.{IsCodedAlone};

use crate::same::{are_planned_alike, are_same_pictures, are_same_settings};
use dirac_common::{NoMemory, Picture};
use dirac_encode_laws::Coded;
use dirac_encode_picture::code_with_blocks;
use dirac_plan::Planned;
use dirac_refs::RefBuffer;
use dirac_types::Settings;
use std::alloc::Global;

/// A picture that was coded ahead, what it was coded as, and what came of it.
#[derive(Drop)]
pub(crate) struct CodedAhead {
    settings: Settings,
    planned: Planned,
    source: Picture,
    coded: Coded,
    ghost coded_alone: { IsCodedAlone settings planned source coded },
}

/// The plan of a picture that is a group by itself.
fn planned_alone(settings: &Settings, number: u32) -> Planned
    ensures planned { IsPlanned result }
    ensures intra { is_intra result.code ≡ true }
    ensures references { (result.ref1 ≡ None) × (result.ref2 ≡ None) }
{
    let retire = if settings.alike == 0 || number == 0 {
        None
    } else {
        Some(number - 1)
    };
    Planned {
        retire,
        ..Planned::opening(number)
    }
}

/// Codes a picture that is a group by itself, by one worker.
pub(crate) fn code_ahead(
    alloc: Global,
    settings: &Settings,
    source: &Picture,
) -> Result<CodedAhead, NoMemory>
    requires accepted { IsAccepted settings.now }
    requires source { IsSource settings.now source.now }
{
    let planned = planned_alone(settings, source.number);
    let refs = RefBuffer::new();
    let coded = code_with_blocks(alloc, &planned, source, &refs, settings, None)?;
    let source = source.try_copy(alloc)?;
    Ok(CodedAhead {
        settings: *settings,
        planned,
        source,
        coded,
    })
}

impl CodedAhead {
    /// What came of it, if it is this picture that was coded.
    pub(crate) fn result_for(
        self,
        settings: &Settings,
        planned: &Planned,
        source: &Picture,
    ) -> Option<Coded>
        ensures { IfSome result (IsCodedAlone settings.now planned.now source.now) }
    {
        if are_same_settings(&self.settings, settings)
            && are_planned_alike(&self.planned, planned)
            && are_same_pictures(&self.source, source)
        {
            return Some(self.coded);
        }
        None
    }
}
