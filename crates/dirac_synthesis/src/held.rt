ghost use Rattle.std.specs.Prelude.{◌≡◌, ◌*◌, ◌≤◌, length, take, IfOk};

use dirac_common::{LARGEST_TABLE_SIDE, Narrow, NoMemory, Wide};
use dirac_lift::Held;
use std::alloc::Global;
use std::marker::Model;

/// The residual of a plane, or the LL band of a level on the way to it.
#[derive(Drop)]
pub struct Residual {
    held: Held,
}

impl Model for Residual {
    ghost use Rattle.dirac_common.specs.Table.{Table};
    ghost use Rattle.dirac_lift.specs.Held.{held_plane};

    ghost Value = { Table };

    ghost view = { λ r. held_plane r.held };
}

impl Residual {
    ghost use Rattle.dirac_lift.specs.Held.{held_plane};
    ghost use Rattle.dirac_synthesis.specs.Zeros.{zeros};

    /// A residual of zeros.
    pub fn try_zeros(alloc: Global, width: u32, height: u32) -> Result<Residual, NoMemory>
        requires across { (1 ≤ width) × (width ≤ LARGEST_TABLE_SIDE) }
        requires down { (1 ≤ height) × (height ≤ LARGEST_TABLE_SIDE) }
        ensures { IfOk result (λ t. t ≡ zeros width height) }
    {
        Ok(Residual {
            held: Held::Narrow(Narrow::try_new(alloc, width, height, 0)?),
        })
    }

    /// These values, in 32 bits where all magnitudes are at most 4,095.
    pub(crate) fn try_of(alloc: Global, values: Wide) -> Result<Residual, NoMemory>
        ensures { IfOk result (λ t. t ≡ values) }
    {
        match Narrow::try_of(alloc, &values)? {
            Some(narrow) => Ok(Residual::of_narrow(narrow)),
            None => Ok(Residual::of_wide(values)),
        }
    }

    /// The number of rows.
    pub(crate) fn height(&self) -> u32
        ensures { result ≡ self.now.height }
    {
        match &self.held {
            Held::Narrow(values) => values.height(),
            Held::Wide(values) => values.height(),
        }
    }

    /// What is held in 32 bits.
    pub(crate) fn of_narrow(values: Narrow) -> Residual
        ensures { result ≡ values }
    {
        Residual {
            held: Held::Narrow(values),
        }
    }

    /// What is held wide.
    pub(crate) fn of_wide(values: Wide) -> Residual
        ensures { result ≡ values }
    {
        Residual {
            held: Held::Wide(values),
        }
    }

    /// What is held of its first `height` rows.
    pub(crate) fn first_rows(self, height: u32) -> Residual
        requires { (1 ≤ height) × (height ≤ self.height) }
        ensures value { result ≡ record {
          width = self.width;
          height = height;
          values = take (self.width * height) self.values;
        } }
        ensures whole { length self.values ≡ self.width * self.height }
    {
        match self.held {
            Held::Narrow(values) => Residual::of_narrow(values.first_rows(height)),
            Held::Wide(values) => Residual::of_wide(values.first_rows(height)),
        }
    }

    /// What is held.
    pub(crate) fn into_held(self) -> Held
        ensures { held_plane result ≡ self }
    {
        self.held
    }

    /// Lends what is held.
    pub(crate) fn held(&self) -> &Held
        ensures { held_plane result.now ≡ self.now }
    {
        &self.held
    }
}
