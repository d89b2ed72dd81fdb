ghost use Rattle.std.specs.Prelude.{◌≡◌, ◌*◌, ◌^◌, ◌<◌, ◌≤◌, [], IfOk};
ghost use Rattle.std.specs.List.{All, filter};
ghost use Rattle.dirac_inside.specs.Inside.{vector_times};
ghost use Rattle.dirac_inside.specs.Ranges.{AreBlocks, IsRange, is_in};
ghost use Rattle.dirac_search.specs.Candidates.{IsWithinReach};
ghost use Rattle.dirac_search.specs.Costs.{level_of_stage};
ghost use Rattle.dirac_search.specs.Fields.{IsSearch, IsStage};
ghost use Rattle.dirac_search.specs.Given.{searched_of};
ghost use Rattle.dirac_search.specs.Kept.{searched_blocks, precision_of as the_precision, stage_keeps};

use crate::candidate_list::CandidateList;
use crate::stage::{Search, Stage, Staged};
use crate::window_costs::level_of;
use dirac_common::NoMemory;
use dirac_inside::{PictureBlocks, VectorRange, inside_range};
use dirac_types::{Settings, step_across, step_down};

/// The blocks of the picture that is searched, and its planes, which are as large as those of the reference.
fn blocks_of(search: &Search<'_>, settings: &Settings) -> PictureBlocks
    requires { IsSearch (searched_of search.now) settings.now }
    ensures value { result ≡ searched_blocks (searched_of search.now) settings.now }
    ensures blocks { AreBlocks result }
{
    PictureBlocks {
        grid: search.grid,
        width: search.up.width(),
        height: search.up.height(),
        across_ratio: step_across(settings.chroma),
        down_ratio: step_down(settings.chroma),
    }
}

/// In 2 to this power parts of a sample the vectors of a stage count.
fn precision_of(stage: Stage) -> u8
    ensures { result ≡ the_precision stage }
{
    match stage {
        Stage::Coarse(_) | Stage::Finer(_) => 0,
        Stage::Sub(precision) => precision,
    }
}

/// How many samples of the picture a sample of a stage's level stands for in each direction.
fn samples_of(stage: Stage) -> u32
    requires { level_of_stage stage ≤ 4 }
    ensures value { result ≡ 2 ^ level_of_stage stage }
    ensures at_most_16 { result ≤ 16 }
{
    1 << u32::from(level_of(stage))
}

/// Appends those of these vectors that lie in a range, where each counts as so many times itself.
fn push_inside(
    range: VectorRange,
    count: u32,
    list: &CandidateList,
    kept: &mut CandidateList,
) -> Result<(), NoMemory>
    requires range { IsRange range }
    requires at_most_16 { count ≤ 16 }
    requires within { All (IsWithinReach (2 ^ 24)) list.now }
    requires empty { kept.old ≡ [] }
    ensures { IfOk result (λ _. kept.new ≡ filter (λ v. is_in range (vector_times count v)) list.now) }
{
    for k in 0..list.len() {
        let vector = list.at(k);
        if range.has(vector, count) {
            kept.push(vector)?;
        }
    }
    Ok(())
}

/// Appends those candidates of block `i` of row `j` that keep inside.
pub(crate) fn push_kept(
    staged: &Staged<'_, '_, '_, '_>,
    i: u32,
    j: u32,
    list: &CandidateList,
    kept: &mut CandidateList,
) -> Result<(), NoMemory>
    requires search { IsSearch (searched_of staged.now.search.now) staged.now.settings.now }
    requires stage { IsStage staged.now.settings.now staged.now.stage }
    requires column { i < 4 * staged.now.search.now.across }
    requires row { j < 4 * staged.now.search.now.down }
    requires within { All (IsWithinReach (2 ^ 24)) list.now }
    requires empty { kept.old ≡ [] }
    ensures value { IfOk result (λ _. kept.new ≡ filter (stage_keeps (searched_of staged.now.search.now)
        staged.now.settings.now staged.now.stage i j) list.now) }
    ensures within { IfOk result (λ _. All (IsWithinReach (2 ^ 24)) kept.new) }
{
    let blocks = blocks_of(staged.search, staged.settings);
    let range = inside_range(blocks, precision_of(staged.stage), i, j);
    push_inside(range, samples_of(staged.stage), list, kept)?;
    Ok(())
}
