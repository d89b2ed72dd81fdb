ghost use Rattle.std.specs.Prelude.{◌≡◌, ◌<◌, [], ◌∷◌, ◌++◌, length, slice_get, Some, IfOk, IfErr};

use dirac_coeffs::CodedBand;
use dirac_common::NoMemory;
use std::alloc::Global;
use std::marker::Model;

/// The subbands of a plane in the order in which they are coded: LL, then HL, LH and HH of level 1, of level 2 and so
/// on.
///
/// It is seen as a list.
#[derive(Drop)]
pub struct PlaneBands {
    list: Vec<CodedBand>,
}

impl Model for PlaneBands {
    ghost use Rattle.std.specs.Prelude.{List};
    ghost use Rattle.dirac_coeffs.specs.declared.layout.CodedBand.{CodedBand};

    ghost Value = { List CodedBand };

    ghost view = { λ b. b.list.items };
}

impl PlaneBands {
    /// No band.
    pub fn new(alloc: Global) -> PlaneBands
        ensures { result ≡ [] }
    {
        PlaneBands {
            list: Vec::new(alloc),
        }
    }

    /// These bands.
    pub(crate) fn of(list: Vec<CodedBand>) -> PlaneBands
        ensures { result ≡ list.items }
    {
        PlaneBands { list }
    }

    /// Gives the list back.
    pub fn into_list(self) -> Vec<CodedBand>
        ensures { result.items ≡ self }
    {
        self.list
    }

    /// Appends the next band.
    pub fn push(&mut self, band: CodedBand) -> Result<(), NoMemory>
        ensures pushed { IfOk result (λ _. self.new ≡ self.old ++ band ∷ []) }
        ensures kept { IfErr result (λ _. self.new ≡ self.old) }
    {
        self.list.push(band)?;
        Ok(())
    }

    /// Lends band `n`, counted from 0.
    pub fn at(&self, n: u32) -> &CodedBand
        requires { n < length self.now }
        ensures { slice_get self.now n ≡ Some result.now }
    {
        let list = self.list.as_slice();
        &list[n as usize]
    }

    /// How many bands there are.
    pub fn len(&self) -> usize
        ensures { result ≡ length self.now }
    {
        self.list.len()
    }

    /// Lends all bands.
    pub fn bands(&self) -> &[CodedBand]
        ensures { result.now ≡ self.now }
    {
        self.list.as_slice()
    }
}
