ghost use Rattle.std.specs.Prelude.{◌≡◌, ◌<◌, [], ◌∷◌, ◌++◌, length, slice_index_or, IfOk, OnErr};
ghost use Rattle.dirac_search.specs.Candidates.{no_motion};

use dirac_common::{NoMemory, Vector};
use std::alloc::Global;
use std::marker::Model;

/// Candidate vectors in the order in which they are tried.
///
/// Contracts see it as a list.
#[derive(Drop)]
pub struct CandidateList {
    list: Vec<Vector>,
}

impl Model for CandidateList {
    ghost use Rattle.std.specs.Prelude.{List};
    ghost use Rattle.dirac_common.specs.declared.formats.Vector.{Vector};

    ghost Value = { List Vector };

    ghost view = { λ c. c.list.items };
}

impl CandidateList {
    /// A list of no candidates.
    pub fn new(alloc: Global) -> CandidateList
        ensures { result ≡ [] }
    {
        CandidateList {
            list: Vec::new(alloc),
        }
    }

    /// Appends a candidate.
    pub fn push(&mut self, vector: Vector) -> Result<(), NoMemory>
        ensures pushed { IfOk result (λ _. self.new ≡ self.old ++ vector ∷ []) }
        ensures kept { OnErr result (self.new ≡ self.old) }
    {
        self.list.push(vector)?;
        Ok(())
    }

    /// Takes all candidates away, and keeps their memory.
    pub fn clear(&mut self)
        ensures { self.new ≡ [] }
    {
        self.list.clear();
    }

    /// The number of candidates.
    pub fn len(&self) -> usize
        ensures { result ≡ length self.now }
    {
        self.list.len()
    }

    /// The candidate at a place, counted from 0.
    pub fn at(&self, place: usize) -> Vector
        requires { place < length self.now }
        ensures { result ≡ slice_index_or self.now place no_motion }
    {
        self.list[place]
    }

    /// Lends all candidates.
    pub fn vectors(&self) -> &[Vector]
        ensures { result.now ≡ self.now }
    {
        self.list.as_slice()
    }
}
