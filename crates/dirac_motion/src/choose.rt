ghost use Rattle.std.specs.Prelude.{◌≡◌, IfOk, false, is_none};
ghost use Rattle.std.specs.Option.{ForSome};
ghost use Rattle.dirac_types.specs.Settings.{IsAccepted};
ghost use Rattle.dirac_sequence.specs.Written.{sequence_of};
ghost use Rattle.dirac_picture.specs.Grammar.{is_intra as is_intra_code};
ghost use Rattle.dirac_content.specs.Content.{IsPicture};
ghost use Rattle.dirac_motion.specs.Chosen.{IsChoosing, IsChosen, IsChosenAtEachIndex, blocks_from, chosen};
ghost use Rattle.dirac_motion.specs.Chosen.{chosen_unless_intra};
ghost use Rattle.dirac_motion.specs.Lent.{AreLent, first_of, second_of};

use crate::lent::{Lumas, Reference, References};
use crate::search::{SearchedFor, SearchedInTwo, vectors_in, vectors_in_both};
use dirac_block_table::BlockData;
use dirac_common::{NoMemory, Picture, RowGate};
use dirac_content::named_reference;
use dirac_decide::{RefView, decide_by_workers};
use dirac_picture::is_intra;
use dirac_plan::Planned;
use dirac_pyramid::Pyramid;
use dirac_refs::RefBuffer;
use dirac_search::Field;
use dirac_types::Settings;
use std::alloc::Global;
use std::marker::Sync;
use std::thread::Threads;

/// A reference as it is decided with: its luma, and the vectors that are found in it.
fn view<'a>(reference: Reference<'a>, field: &'a Field) -> RefView<'a>
    ensures up { result.up.now ≡ reference.entry.luma.now }
    ensures field { result.field.now ≡ field.now }
{
    RefView {
        up: reference.luma,
        field,
    }
}

/// The block table of a picture with these references, whose luma is upconverted already.
///
/// The gate is called before each row of superblocks of each stage of the search. With four workers or more two
/// references are searched side by side, each by half of them; with fewer one after the other.
pub fn choose_from<R: Threads + Sync, G: RowGate>(
    rt: &R,
    alloc: Global,
    source: &Picture,
    references: &References<'_>,
    settings: &Settings,
    gate: &G,
) -> Result<BlockData, NoMemory>
    requires settings { IsAccepted settings.now }
    requires source { IsPicture (sequence_of settings.now) source.now }
    requires references { AreLent (sequence_of settings.now) references.now }
    ensures { IfOk result (λ t. t
        ≡ blocks_from settings.now source.now (first_of references.now) (second_of references.now)) }
{
    let pyramid = Pyramid::build(alloc, &source.y, settings.pyramid as u8)?;
    let searched = SearchedFor {
        picture: source,
        pyramid: &pyramid,
    };
    let first = references.first;
    match references.second {
        None => {
            let field = vectors_in(rt, alloc, searched, first, settings, settings.workers, gate)?;
            decide_by_workers(rt, alloc, source, settings, view(first, &field), None)
        }
        Some(second) => {
            let searched = SearchedInTwo {
                source: searched,
                first,
                second,
                settings,
            };
            let fields = vectors_in_both(rt, alloc, searched, gate)?;
            let view1 = view(first, &fields.first);
            let view2 = view(second, &fields.second);
            decide_by_workers(rt, alloc, source, settings, view1, Some(view2))
        }
    }
}

/// The block table of a planned inter picture.
fn choose_for<R: Threads + Sync, G: RowGate>(
    rt: &R,
    alloc: Global,
    planned: &Planned,
    source: &Picture,
    refs: &RefBuffer,
    settings: &Settings,
    gate: &G,
) -> Result<BlockData, NoMemory>
    requires asked { IsChoosing settings.now refs.now planned.now source.now }
    requires inter { is_intra_code planned.now.code ≡ false }
    ensures { IfOk result (λ t. t ≡ chosen settings.now refs.now planned.now source.now) }
{
    let second = named_reference(refs, planned.ref2);
    match named_reference(refs, planned.ref1) {
        None => unreachable!(),
        Some(first) => {
            let lumas = Lumas::by_workers(rt, alloc, first, second, settings)?;
            let references = lumas.lend(first, second);
            choose_from(rt, alloc, source, &references, settings, gate)
        }
    }
}

/// The block table of a planned picture, whose references are listed: `None` exactly for an intra picture.
///
/// The gate is called before each row of superblocks of each stage of the search, as `choose_from` has it.
pub fn choose_blocks<R: Threads + Sync, G: RowGate>(
    rt: &R,
    alloc: Global,
    planned: &Planned,
    source: &Picture,
    refs: &RefBuffer,
    settings: &Settings,
    gate: &G,
) -> Result<Option<BlockData>, NoMemory>
    requires { IsChoosing settings.now refs.now planned.now source.now }
    ensures value { IfOk result (λ o. o ≡ chosen_unless_intra settings.now refs.now planned.now source.now) }
    ensures fits { IfOk result (λ o. ForSome o (IsChosen settings.now planned.now.code)) }
    ensures none_exactly_for_intra { IfOk result (λ o. is_none o ≡ is_intra_code planned.now.code) }
    ensures without_index { IfOk result (IsChosenAtEachIndex settings.now refs.now planned.now source.now) }
{
    if is_intra(planned.code) {
        return Ok(None);
    }
    let blocks = choose_for(rt, alloc, planned, source, refs, settings, gate)?;
    Ok(Some(blocks))
}
