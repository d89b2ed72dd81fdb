ghost use Rattle.std.specs.Prelude.{◌≡◌, ◌*◌, ◌^◌, ◌<◌, ◌≤◌, IfOk, IfSome, IfNone};
ghost use Rattle.std.specs.List.{All};
ghost use Rattle.dirac_costs.specs.Least.{first_least};
ghost use Rattle.dirac_search.specs.Candidates.{HasFormer, IsWithinReach, no_motion};
ghost use Rattle.dirac_search.specs.Costs.{IsCostBelow};
ghost use Rattle.dirac_search.specs.Fields.{IsSearch, IsStage, best_of};
ghost use Rattle.dirac_search.specs.Given.{searched_of, lent};
ghost use Rattle.dirac_search.specs.Staged.{IsCompared, IsSearched, best_at, cost_at};

use crate::candidate_list::CandidateList;
use crate::field::Field;
use crate::kept::push_kept;
use crate::stage::{Search, Stage, Staged};
use crate::stage_candidates::push_choice;
use crate::window_costs::{cost_below, whole_cost, window};
use dirac_common::{NoMemory, Vector};
use dirac_costs::Window;
use dirac_types::Settings;
use std::alloc::Global;

/// What a vector costs a window, where that is less than what the best one so far costs.
#[inline(always)]
fn better_cost(
    staged: &Staged<'_, '_, '_, '_>,
    window: Window,
    v: Vector,
    found: Vector,
    least: u32,
) -> Option<u32>
    requires compared { IsCompared staged.now window }
    requires v { IsWithinReach (2 ^ 24) v }
    requires least { least ≡ cost_at staged.now window found }
    ensures below { IfSome result (IsCostBelow least (cost_at staged.now window v)) }
    ensures above { IfNone result (least ≤ cost_at staged.now window v) }
{
    // Candidates come again, the best one too: its cost would be summed to the end.
    if v == found {
        return None;
    }
    cost_below(staged, window, v, least)
}

/// The fewest bits of a vector with motion: four of one component and one of the other.
const FEWEST_BITS_OF_MOTION: u32 = 5;

/// What the bits of a vector with motion cost at least.
#[inline(always)]
fn least_price_of_motion(bias: u32) -> u32
    requires at_most_255 { bias ≤ 255 }
    ensures { result ≡ 5 * bias }
{
    FEWEST_BITS_OF_MOTION * bias
}

/// The first of least cost, of the vector of no motion and these behind it; `price` is what that of no motion costs.
fn least_of(
    staged: &Staged<'_, '_, '_, '_>,
    window: Window,
    list: &CandidateList,
    price: u32,
) -> Vector
    requires compared { IsCompared staged.now window }
    requires list { All (IsWithinReach (2 ^ 24)) list.now }
    requires price { price ≡ cost_at staged.now window no_motion }
    ensures { result ≡ first_least (cost_at staged.now window) no_motion list.now }
{
    let mut found = Vector { x: 0, y: 0 };
    let mut least = price;
    for k in 0..list.len() {
        let v = list.at(k);
        match better_cost(staged, window, v, found, least) {
            Some(cost) => {
                found = v;
                least = cost;
            }
            None => {}
        }
    }
    found
}

/// The room that the search of a block takes: for candidates, and for their centres, then those that keep inside.
#[derive(Drop)]
pub struct Room {
    list: CandidateList,
    spare: CandidateList,
}

/// Room that holds nothing yet.
pub fn new_room(alloc: Global) -> Room {
    Room {
        list: CandidateList::new(alloc),
        spare: CandidateList::new(alloc),
    }
}

/// The first of least cost of the candidates that may be taken for block `i` of row `j` at a stage.
pub(crate) fn best_in(
    staged: &Staged<'_, '_, '_, '_>,
    before: Option<&Field>,
    i: u32,
    j: u32,
    room: &mut Room,
) -> Result<Vector, NoMemory>
    requires { IsSearched staged.now (lent before) i j }
    ensures { IfOk result (λ v. v ≡ best_at staged.now (lent before.entry) i j) }
{
    let Staged {
        search,
        stage,
        settings,
        ..
    } = *staged;
    let window = window(search, stage, i, j);
    let still = Vector { x: 0, y: 0 };
    let price = whole_cost(staged, window, still);
    if price <= least_price_of_motion(settings.bias) {
        // No other vector costs less: its bits alone cost as much.
        return Ok(still);
    }
    let Room { list, spare } = room;
    list.clear();
    let range = settings.range as u8;
    push_choice(list, spare, stage, range, before, i, j)?;
    if settings.alike == 0 {
        return Ok(least_of(staged, window, list, price));
    }
    spare.clear();
    push_kept(staged, i, j, list, spare)?;
    Ok(least_of(staged, window, spare, price))
}

/// The first of least cost of the candidates that may be taken for block `i` of row `j` at a stage: of all, and where
/// streams are to be shown alike of those that keep inside. `before` has the former stage's vectors; the first stage
/// has none.
pub fn best(
    alloc: Global,
    search: &Search<'_>,
    stage: Stage,
    settings: &Settings,
    before: Option<&Field>,
    i: u32,
    j: u32,
) -> Result<Vector, NoMemory>
    requires search { IsSearch (searched_of search.now) settings.now }
    requires stage { IsStage settings.now stage }
    requires former { HasFormer stage (lent before) i j }
    requires column { i < 4 * search.now.across }
    requires row { j < 4 * search.now.down }
    ensures { IfOk result (λ v. v ≡ best_of (searched_of search.now) settings.now stage (lent before.entry) i j) }
{
    let mut room = new_room(alloc);
    let staged = Staged {
        search,
        stage,
        settings,
        bytes: None,
    };
    best_in(&staged, before, i, j, &mut room)
}
