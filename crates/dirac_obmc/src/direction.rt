ghost use Rattle.std.specs.Prelude.{◌≡◌, ◌≤◌};
ghost use Rattle.dirac_obmc.specs.Compensation.{IsCompensation, ratio_of, across_ratio, down_ratio};
ghost use Rattle.dirac_obmc.specs.Directions.{IsAcross, IsDown, columns_of};
ghost use Rattle.dirac_obmc.specs.Given.{compensation_of};

use crate::motion::Motion;
use dirac_common::{Component, ratio_across, ratio_down};

/// How the blocks stand along one direction of a plane: how many, and their length and separation in its samples.
#[derive(Clone, Copy)]
pub struct Direction {
    pub count: u32,
    pub length: u32,
    pub separation: u32,
}

/// How many luma samples a sample of this part stands for, where a chroma sample stands for `ratio`.
fn ratio(component: Component, ratio: u32) -> u32
    ensures { result ≡ ratio_of component ratio }
{
    match component {
        Component::Y => 1,
        Component::U | Component::V => ratio,
    }
}

/// How many luma samples a sample of the plane stands for across.
pub fn across_ratio(motion: &Motion<'_>) -> u32
    ensures value { result ≡ Rattle.dirac_obmc.specs.Compensation.across_ratio (compensation_of motion.now) }
    ensures at_least_1 { 1 ≤ result }
    ensures at_most_2 { result ≤ 2 }
{
    ratio(motion.component, ratio_across(motion.chroma))
}

/// How many luma samples a sample of the plane stands for down.
pub fn down_ratio(motion: &Motion<'_>) -> u32
    ensures value { result ≡ Rattle.dirac_obmc.specs.Compensation.down_ratio (compensation_of motion.now) }
    ensures at_least_1 { 1 ≤ result }
    ensures at_most_2 { result ≤ 2 }
{
    ratio(motion.component, ratio_down(motion.chroma))
}

/// The blocks of the plane from left to right.
pub fn across(motion: &Motion<'_>) -> Direction
    requires { IsCompensation (compensation_of motion.now) }
    ensures direction { IsAcross (compensation_of motion.now) result }
    ensures value { result ≡ columns_of (compensation_of motion.now) }
{
    let ratio = across_ratio(motion);
    Direction {
        count: 4 * motion.blocks.across(),
        length: motion.prediction.grid.xblen / ratio,
        separation: motion.prediction.grid.xbsep / ratio,
    }
}

/// The blocks of the plane from top to bottom.
pub fn down(motion: &Motion<'_>) -> Direction
    requires { IsCompensation (compensation_of motion.now) }
    ensures { IsDown (compensation_of motion.now) result }
{
    let ratio = down_ratio(motion);
    Direction {
        count: 4 * motion.blocks.down(),
        length: motion.prediction.grid.yblen / ratio,
        separation: motion.prediction.grid.ybsep / ratio,
    }
}
