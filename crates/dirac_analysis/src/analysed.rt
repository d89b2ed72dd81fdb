ghost use Rattle.std.specs.Prelude.{◌≡◌, [], ◌∷◌, ◌++◌, ◌*◌, ◌≤◌, length, IfOk};
ghost use Rattle.dirac_lift.specs.Held.{held_plane};

use dirac_common::{Narrow, NoMemory, Wide};
use dirac_lift::Held;
use std::alloc::Global;
use std::marker::Model;

/// A subband before it is quantised: in 32 bits where its level was analysed in these, else wide.
///
/// It is seen as a table.
#[derive(Drop)]
pub struct AnalysedBand {
    held: Held,
}

impl Model for AnalysedBand {
    ghost use Rattle.dirac_common.specs.Table.{Table};
    ghost use Rattle.dirac_lift.specs.Held.{held_plane};

    ghost Value = { Table };

    ghost view = { λ b. held_plane b.held };
}

impl AnalysedBand {
    /// The band of these values.
    pub(crate) fn of_wide(table: Wide) -> AnalysedBand
        ensures { result ≡ table }
    {
        AnalysedBand {
            held: Held::Wide(table),
        }
    }

    /// The same of values in 32 bits.
    pub(crate) fn of_narrow(table: Narrow) -> AnalysedBand
        ensures { result ≡ table }
    {
        AnalysedBand {
            held: Held::Narrow(table),
        }
    }

    /// Lends its values as they are held.
    pub(crate) fn held(&self) -> &Held
        ensures { held_plane result.now ≡ self.now }
    {
        &self.held
    }

    /// The number of columns.
    pub(crate) fn width(&self) -> u32
        ensures value { result ≡ self.now.width }
        ensures whole { length self.now.values ≡ self.now.width * self.now.height }
        ensures at_least_1 { 1 ≤ result }
    {
        match &self.held {
            Held::Wide(table) => table.width(),
            Held::Narrow(table) => table.width(),
        }
    }
}

/// The subbands of a plane before they are quantised: LL, in an intra picture less its predictions, and the others in
/// the order in which they are coded.
#[derive(Drop)]
pub struct AnalysedPlane {
    lowest: AnalysedBand,
    higher: Vec<AnalysedBand>,
}

impl Model for AnalysedPlane {
    ghost use Rattle.dirac_analysis.specs.Analysis.{Analysis};

    ghost Value = { Analysis };

    ghost view = { λ a. record { lowest = a.lowest; higher = a.higher.items } };
}

impl AnalysedPlane {
    /// LL alone.
    pub(crate) fn new(alloc: Global, lowest: Wide) -> AnalysedPlane
        ensures { result ≡ record { lowest = lowest; higher = [] } }
    {
        AnalysedPlane {
            lowest: AnalysedBand::of_wide(lowest),
            higher: Vec::new(alloc),
        }
    }

    /// With HL, LH and HH of one level more.
    pub(crate) fn with_level(
        mut self,
        hl: AnalysedBand,
        lh: AnalysedBand,
        hh: AnalysedBand,
    ) -> Result<AnalysedPlane, NoMemory>
        ensures { IfOk result (λ a. a
            ≡ record { lowest = self.lowest; higher = self.higher ++ hl ∷ lh ∷ hh ∷ [] }) }
    {
        self.higher.push(hl)?;
        self.higher.push(lh)?;
        self.higher.push(hh)?;
        Ok(self)
    }

    /// Lends LL.
    pub fn lowest(&self) -> &AnalysedBand
        ensures { result.now ≡ self.now.lowest }
    {
        &self.lowest
    }

    /// Lends the other bands.
    pub fn higher(&self) -> &[AnalysedBand]
        ensures { result.now ≡ self.now.higher }
    {
        self.higher.as_slice()
    }
}
