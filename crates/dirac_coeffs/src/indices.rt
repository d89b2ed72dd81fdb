ghost use Rattle.std.specs.Prelude.{◌≡◌, ◌*◌, ◌<◌, length, replicate, slice_set, IfOk};
ghost use Rattle.dirac_coeffs.specs.Indices as spec;
ghost use Rattle.dirac_coeffs.specs.Layouts.{IsBandLayout};

use crate::layout::BandLayout;
use crate::spans::Codeblock;
use dirac_common::NoMemory;
use std::alloc::Global;
use std::marker::Model;

/// The quantiser indices of a subband's codeblocks, by rows.
///
/// It is seen as a list.
#[derive(Drop)]
pub struct Indices {
    list: Vec<u8>,
}

impl Model for Indices {
    ghost use Rattle.std.specs.Prelude.{ℕ, List};

    ghost Value = { List ℕ };

    ghost view = { λ i. i.list.items };
}

impl Indices {
    /// That number of codeblocks, all of this index.
    pub fn try_new(alloc: Global, count: u32, value: u8) -> Result<Indices, NoMemory>
        ensures { IfOk result (λ i. i ≡ replicate count value) }
    {
        match vec![in alloc; value; count as usize] {
            Ok(list) => Ok(Indices { list }),
            Err(_error) => Err(NoMemory),
        }
    }

    /// The index of codeblock `c`, counted from 0.
    pub fn at(&self, c: u32) -> u8
        requires { c < length self.now }
        ensures { result ≡ spec.index_at self.now c }
    {
        self.list[c as usize]
    }

    /// Changes the index of codeblock `c`.
    pub fn set(&mut self, c: u32, value: u8)
        requires { c < length self.old }
        ensures { self.new ≡ slice_set self.old c value }
    {
        self.list[c as usize] = value;
    }
}

/// The place of a codeblock among all, counted by rows.
pub fn codeblock_place(layout: BandLayout, codeblock: Codeblock) -> u32
    requires layout { IsBandLayout layout }
    requires row { codeblock.row < layout.down }
    requires column { codeblock.column < layout.across }
    ensures value { result ≡ spec.place_of layout codeblock.row codeblock.column }
    ensures inside { result < layout.across * layout.down }
{
    codeblock.row * layout.across + codeblock.column
}

/// The index of the codeblock before codeblock `c`; before the first one the band's holds.
pub fn former_index(indices: &Indices, index: u8, c: u32) -> u8
    requires { c < length indices.now }
    ensures { result ≡ spec.index_before index indices.now c }
{
    if c == 0 { index } else { indices.at(c - 1) }
}
