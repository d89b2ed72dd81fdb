ghost use Rattle.std.specs.Prelude.{◌≡◌, ◌+◌, ◌<◌, ◌≤◌, length, slice_get, slice_index_or, Some, IfOk};
ghost use Rattle.dirac_pyramid.specs.Pyramid.{no_plane, pyramid_of};

use crate::shrink::shrink;
use dirac_common::{LARGEST_TABLE_SIDE, NoMemory, Plane};
use std::alloc::Global;
use std::marker::Model;

/// A plane, and above it planes of half the size each, rounded up. Level 0 is the plane itself.
///
/// Contracts see it as the list of its planes from level 0 on.
#[derive(Debug, Drop)]
pub struct Pyramid {
    levels: Vec<Plane>,
}

impl Model for Pyramid {
    ghost use Rattle.std.specs.Prelude.{List};
    ghost use Rattle.dirac_common.specs.Table.{Table};

    ghost Value = { List Table };

    ghost view = { λ p. p.levels.items };
}

impl Pyramid {
    /// The pyramid of `plane`, with `levels` levels above it.
    pub fn build(alloc: Global, plane: &Plane, levels: u8) -> Result<Pyramid, NoMemory>
        requires at_most_4_levels { levels ≤ 4 }
        requires at_most_8192_across { plane.now.width ≤ LARGEST_TABLE_SIDE }
        requires at_most_8192_down { plane.now.height ≤ LARGEST_TABLE_SIDE }
        ensures value { IfOk result (λ p. p ≡ pyramid_of plane.now levels) }
        ensures number_of_levels { IfOk result (λ p. length p ≡ levels + 1) }
    {
        let mut list = Vec::new(alloc);
        list.push(plane.try_copy(alloc)?)?;
        for l in 0..levels {
            let next = shrink(alloc, &list[l as usize])?;
            list.push(next)?;
        }
        Ok(Pyramid { levels: list })
    }

    /// Lends level `l`, counted from 0.
    pub fn level(&self, l: u8) -> &Plane
        requires { l < length self.now }
        ensures value { result.now ≡ slice_index_or self.now l no_plane }
        ensures is_that_level { slice_get self.now l ≡ Some result.now }
    {
        let levels = self.levels.as_slice();
        &levels[l as usize]
    }
}
