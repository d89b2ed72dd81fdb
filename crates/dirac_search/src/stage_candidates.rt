ghost use Rattle.std.specs.Prelude.{◌≡◌, pos, ◌+◌, ◌*◌, ◌^◌, ◌<◌, ◌≤◌, ◌*ℤ◌, unsigned_abs, true, [], ◌++◌, Some, IfOk};
ghost use Rattle.std.specs.List.{All};
ghost use Rattle.dirac_search.specs.Candidates.{HasFormer, IsFormer, IsWithinReach, candidates_of, centre_if, centres};
ghost use Rattle.dirac_search.specs.Candidates.{finer_candidates, further_candidates, sub_candidates, twice};
ghost use Rattle.dirac_search.specs.Candidates.{field_vector};
ghost use Rattle.dirac_search.specs.Choices.{ChoosesAs};
ghost use Rattle.dirac_search.specs.Given.{lent};

use crate::around::{push_around, push_round_all, push_round_each};
use crate::candidate_list::CandidateList;
use crate::field::Field;
use crate::stage::Stage;
use dirac_common::{NoMemory, Vector};
use dirac_types::Settings;
use std::alloc::Global;

/// Twice a component of a vector.
#[inline(always)]
fn doubled_component(component: i32) -> i32
    requires { unsigned_abs component ≤ 2 ^ 22 }
    ensures { result ≡ pos 2 *ℤ component }
{
    2 * component
}

/// The same motion on a plane of twice the size, or in parts of half the size.
#[inline(always)]
fn doubled(v: Vector) -> Vector
    requires { IsWithinReach (2 ^ 22) v }
    ensures { result ≡ twice v }
{
    Vector {
        x: doubled_component(v.x),
        y: doubled_component(v.y),
    }
}

/// Twice the vector of block `i` of row `j`.
fn centre(field: &Field, i: u32, j: u32) -> Vector
    requires column { i < 4 * field.now.across }
    requires row { j < 4 * field.now.down }
    requires within { All (IsWithinReach (2 ^ 22)) field.now.vectors }
    ensures { result ≡ twice (field_vector field.now i j) }
{
    doubled(field.at(i, j))
}

/// Appends twice the vector of block `i` of row `j`, where there is such a block.
fn push_centre(
    list: &mut CandidateList,
    is_block: bool,
    field: &Field,
    i: u32,
    j: u32,
) -> Result<(), NoMemory>
    requires column { is_block ≡ true → i < 4 * field.now.across }
    requires row { is_block ≡ true → j < 4 * field.now.down }
    requires within { All (IsWithinReach (2 ^ 22)) field.now.vectors }
    ensures { IfOk result (λ _. list.new ≡ list.old ++ centre_if is_block field.now i j) }
{
    if is_block {
        list.push(centre(field, i, j))?;
    }
    Ok(())
}

/// Twice the vectors of a block and of those left of it, right of it, above and below.
fn push_centres(list: &mut CandidateList, field: &Field, i: u32, j: u32) -> Result<(), NoMemory>
    requires empty { list.old ≡ [] }
    requires former { IsFormer field.now i j }
    ensures { IfOk result (λ _. list.new ≡ centres field.now i j) }
{
    let across = 4 * field.across();
    let down = 4 * field.down();
    list.push(centre(field, i, j))?;
    push_centre(list, 0 < i, field, i.saturating_sub(1), j)?;
    push_centre(list, i + 1 < across, field, i + 1, j)?;
    push_centre(list, 0 < j, field, i, j.saturating_sub(1))?;
    push_centre(list, j + 1 < down, field, i, j + 1)?;
    Ok(())
}

/// Appends the candidates round the vectors of a coarser level; `room` is room for their centres.
fn push_finer(
    list: &mut CandidateList,
    room: &mut CandidateList,
    field: &Field,
    i: u32,
    j: u32,
) -> Result<(), NoMemory>
    requires former { IsFormer field.now i j }
    ensures { IfOk result (λ _. list.new ≡ list.old ++ finer_candidates (Some field.now) i j) }
{
    room.clear();
    push_centres(room, field, i, j)?;
    push_round_all(list, room)
}

/// Appends candidates round the vectors of a coarser level, among which every cost chooses as among all of them.
fn push_finer_choice(
    list: &mut CandidateList,
    room: &mut CandidateList,
    field: &Field,
    i: u32,
    j: u32,
) -> Result<(), NoMemory>
    requires empty { list.old ≡ [] }
    requires former { IsFormer field.now i j }
    ensures chooses_as_all { IfOk result (λ _. ChoosesAs list.new (finer_candidates (Some field.now) i j)) }
    ensures within { IfOk result (λ _. All (IsWithinReach (2 ^ 24)) list.new) }
{
    room.clear();
    push_centres(room, field, i, j)?;
    push_round_each(list, room)
}

/// Appends twice the block's former vector, and the candidates round it.
fn push_sub(list: &mut CandidateList, field: &Field, i: u32, j: u32) -> Result<(), NoMemory>
    requires former { IsFormer field.now i j }
    ensures { IfOk result (λ _. list.new ≡ list.old ++ sub_candidates (Some field.now) i j) }
{
    let centre = centre(field, i, j);
    list.push(centre)?;
    push_around(list, centre, 1)
}

/// Appends the candidates of block `i` of row `j` behind the vector of no motion. `room` is room for the centres of a
/// finer level.
pub fn push_further(
    list: &mut CandidateList,
    room: &mut CandidateList,
    stage: Stage,
    range: u8,
    before: Option<&Field>,
    i: u32,
    j: u32,
) -> Result<(), NoMemory>
    requires at_most_16 { range ≤ 16 }
    requires former { HasFormer stage (lent before) i j }
    ensures value { IfOk result (λ _. list.new ≡ list.old ++ further_candidates stage range
        (lent before.entry) i j) }
    ensures within { All (IsWithinReach (2 ^ 24))
        (further_candidates stage range (lent before.entry) i j) }
{
    match (stage, before) {
        (Stage::Finer(_), Some(field)) => push_finer(list, room, field, i, j),
        (Stage::Sub(_), Some(field)) => push_sub(list, field, i, j),
        _ => push_around(list, Vector { x: 0, y: 0 }, range),
    }
}

/// The candidates of block `i` of row `j` at a stage, in the order in which they are tried. `before` has the former
/// stage's vectors; the first stage has none.
pub fn candidates(
    alloc: Global,
    stage: Stage,
    settings: &Settings,
    before: Option<&Field>,
    i: u32,
    j: u32,
) -> Result<CandidateList, NoMemory>
    requires at_most_16 { settings.now.range ≤ 16 }
    requires former { HasFormer stage (lent before) i j }
    ensures { IfOk result (λ list. list ≡ candidates_of stage settings.now.range (lent before.entry) i j) }
{
    let mut list = CandidateList::new(alloc);
    let mut room = CandidateList::new(alloc);
    list.push(Vector { x: 0, y: 0 })?;
    let range = settings.range as u8;
    push_further(&mut list, &mut room, stage, range, before, i, j)?;
    Ok(list)
}

/// Appends candidates of block `i` of row `j` behind the vector of no motion, among which every cost chooses as among
/// all of them. `room` is room for the centres of a finer level.
pub fn push_choice(
    list: &mut CandidateList,
    room: &mut CandidateList,
    stage: Stage,
    range: u8,
    before: Option<&Field>,
    i: u32,
    j: u32,
) -> Result<(), NoMemory>
    requires empty { list.old ≡ [] }
    requires at_most_16 { range ≤ 16 }
    requires former { HasFormer stage (lent before) i j }
    ensures chooses_as_all { IfOk result (λ _. ChoosesAs list.new
        (further_candidates stage range (lent before.entry) i j)) }
    ensures within { IfOk result (λ _. All (IsWithinReach (2 ^ 24)) list.new) }
{
    match (stage, before) {
        (Stage::Finer(_), Some(field)) => push_finer_choice(list, room, field, i, j),
        _ => push_further(list, room, stage, range, before, i, j),
    }
}
