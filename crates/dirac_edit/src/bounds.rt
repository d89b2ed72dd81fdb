ghost use Rattle.std.specs.Prelude.{◌≡◌, ◌≤◌, ◌&&◌, nat_le, nat_lt, length};
ghost use Rattle.dirac_edit_laws.specs.Texts.{points_of as points_among};
ghost use Rattle.dirac_edit_laws.specs.Cut.{wrong_point as wrong_among};

use crate::units::HeldUnit;
use dirac_common::is_intra;

/// A part of a stream: its pictures from one point up to, and without, another.
#[derive(Clone, Copy, Debug, PartialEq, Eq)]
pub(crate) struct Part {
    pub(crate) from: u64,
    pub(crate) to: u64,
}

impl Part {
    /// Whether a picture is of the part, where there are that many points up to it, itself among them.
    pub(crate) fn has(&self, points: u64) -> bool
        ensures { result ≡ (nat_lt self.now.from points && nat_le points self.now.to) }
    {
        self.from < points && points <= self.to
    }
}

/// How many points these units have.
pub(crate) fn points_of(units: &[HeldUnit<'_>]) -> u64
    ensures value { result ≡ points_among units.now }
    ensures at_most_units { result ≤ length units.now }
{
    let mut points = 0;
    for unit in units {
        if is_intra(unit.code()) {
            points += 1;
        }
    }
    points
}

/// Which number is no point of a stream with that many points, or ends no part that begins at `from`.
pub(crate) fn wrong_point(from: u64, to: Option<u64>, points: u64) -> Option<u64>
    ensures { result ≡ wrong_among from to points }
{
    if from >= points {
        return Some(from);
    }
    match to {
        Some(to) if to <= from || to > points => Some(to),
        _ => None,
    }
}
