ghost use Rattle.std.specs.Prelude.{◌≡◌, pos, ◌+◌, ◌*◌, ◌^◌, ◌<◌, ◌≤◌, ◌+ℤ◌, ◌-ℤ◌, unsigned_abs, length, [], ◌++◌};
ghost use Rattle.std.specs.Prelude.{IsTrue, IfOk};
ghost use Rattle.std.specs.List.{All, flat_map};
ghost use Rattle.dirac_search.specs.ByRows.{row_values};
ghost use Rattle.dirac_search.specs.Candidates.{IsWithinReach, around, near};
ghost use Rattle.dirac_search.specs.Choices.{ChoosesAs, Recurs};

use crate::candidate_list::CandidateList;
use dirac_common::{NoMemory, Vector};

/// The component of a vector at place `place` of those at most `reach` from a centre.
#[inline(always)]
fn part_at(centre: i32, place: u8, reach: u8) -> i32
    requires centre { unsigned_abs centre ≤ 2 ^ 24 }
    ensures { result ≡ (centre +ℤ pos place) -ℤ pos reach }
{
    centre + i32::from(place) - i32::from(reach)
}

/// The vector in column `x` of row `y` of those at most `reach` from a centre.
#[inline(always)]
fn neighbour(centre: Vector, reach: u8, x: u8, y: u8) -> Vector
    requires centre { IsWithinReach (2 ^ 23) centre }
    ensures { result ≡ near centre reach x y }
{
    Vector {
        x: part_at(centre.x, x, reach),
        y: part_at(centre.y, y, reach),
    }
}

/// Appends row `y` of the vectors at most `reach` from a centre.
fn push_row(list: &mut CandidateList, centre: Vector, reach: u8, y: u8) -> Result<(), NoMemory>
    requires centre { IsWithinReach (2 ^ 23) centre }
    requires at_most_16 { reach ≤ 16 }
    ensures { IfOk result (λ _. list.new ≡ list.old ++ row_values (2 * reach + 1) (near centre reach) y) }
{
    for x in 0..2 * reach + 1 {
        list.push(neighbour(centre, reach, x, y))?;
    }
    Ok(())
}

/// Appends the vectors at most `reach` from a centre in each direction, by rows from the top left.
pub fn push_around(list: &mut CandidateList, centre: Vector, reach: u8) -> Result<(), NoMemory>
    requires centre { IsWithinReach (2 ^ 23) centre }
    requires at_most_16 { reach ≤ 16 }
    ensures { IfOk result (λ _. list.new ≡ list.old ++ around centre reach) }
{
    for y in 0..2 * reach + 1 {
        push_row(list, centre, reach, y)?;
    }
    Ok(())
}

/// Appends the vectors at most 1 from these centres, one centre after another.
pub fn push_round_all(list: &mut CandidateList, centres: &CandidateList) -> Result<(), NoMemory>
    requires { All (IsWithinReach (2 ^ 23)) centres.now }
    ensures { IfOk result (λ _. list.new ≡ list.old ++ flat_map (λ c. around c 1) centres.now) }
{
    for k in 0..centres.len() {
        push_around(list, centres.at(k), 1)?;
    }
    Ok(())
}

/// Whether a centre is also an earlier one.
fn is_repeated(centres: &CandidateList, k: usize) -> bool
    requires { k < length centres.now }
    ensures { IsTrue result → Recurs centres.now k }
{
    let centre = centres.at(k);
    for j in 0..k {
        let before = centres.at(j);
        if before.x == centre.x && before.y == centre.y {
            return true;
        }
    }
    false
}

/// Appends the vectors at most 1 from these centres, without those of centres that come again: behind the vector of no
/// motion, the first of least cost is the same for every cost.
pub fn push_round_each(list: &mut CandidateList, centres: &CandidateList) -> Result<(), NoMemory>
    requires empty { list.old ≡ [] }
    requires centres { All (IsWithinReach (2 ^ 23)) centres.now }
    ensures chooses_as_all { IfOk result (λ _. ChoosesAs list.new (flat_map (λ c. around c 1) centres.now)) }
    ensures within { IfOk result (λ _. All (IsWithinReach (2 ^ 24)) list.new) }
{
    for k in 0..centres.len() {
        if !is_repeated(centres, k) {
            push_around(list, centres.at(k), 1)?;
        }
    }
    Ok(())
}
