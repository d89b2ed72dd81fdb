ghost use Rattle.std.specs.Prelude.{◌≡◌, ◌+◌, ◌*◌, ◌<◌, ◌≤◌, length};
ghost use Rattle.dirac_search.specs.Candidates.{Vectors, field_vector};

use dirac_common::{MOST_SUPERBLOCKS, Vector};
use std::marker::Model;

/// A vector for each block of a picture, by rows; `across` and `down` count superblocks, of four by four blocks each.
#[derive(Drop)]
pub struct Field {
    across: u32,
    down: u32,
    vectors: Vec<Vector>,
}

impl Model for Field {
    ghost use Rattle.dirac_search.specs.Candidates.{HasAllBlocks, Vectors};

    ghost Value = { Vectors };

    ghost view = { λ f. record { across = f.across; down = f.down; vectors = f.vectors.items } };

    ghost invariant = { λ f. HasAllBlocks f.across f.down f.vectors.items };
}

impl Field {
    /// The field of these vectors, one for each block, by rows.
    pub fn new(across: u32, down: u32, vectors: Vec<Vector>) -> Field
        requires a_vector_for_each_block { length vectors.items ≡ 4 * across * (4 * down) }
        requires at_most_1024_superblocks { (across ≤ MOST_SUPERBLOCKS) × (down ≤ MOST_SUPERBLOCKS) }
        ensures { result ≡ record { across = across; down = down; vectors = vectors.items } }
    {
        Field {
            across,
            down,
            vectors,
        }
    }

    /// The number of superblocks across.
    pub fn across(&self) -> u32
        ensures value { result ≡ self.now.across }
        ensures at_most_1024 { result ≤ MOST_SUPERBLOCKS }
    {
        self.across
    }

    /// The number of superblocks down.
    pub fn down(&self) -> u32
        ensures value { result ≡ self.now.down }
        ensures at_most_1024 { result ≤ MOST_SUPERBLOCKS }
    {
        self.down
    }

    /// The vector of block `i` of row `j`.
    pub fn at(&self, i: u32, j: u32) -> Vector
        requires column { i < 4 * self.now.across }
        requires row { j < 4 * self.now.down }
        ensures { result ≡ field_vector self.now i j }
    {
        self.vectors[j as usize * (4 * self.across as usize) + i as usize]
    }
}
