ghost use Rattle.std.specs.Prelude.{◌≡◌, ◌*◌, ◌^◌, ◌<◌, ◌≤◌, All, length, replicate, IfOk};
ghost use Rattle.dirac_block_table.specs.Filling.{with_split, with_unit};
ghost use Rattle.dirac_block_table.specs.Puts.{IsPut};
ghost use Rattle.dirac_block_table.specs.Filling.{AllGrey, IsFirstOfUnit};
ghost use Rattle.dirac_block_table.specs.Tables.{BlockTable, IsBlock, IsBlockTable, IsTableSize, grey, split_at};
ghost use Rattle.dirac_block_table.specs.Tables.{block_at};

use crate::block::Block;
use crate::filling::fill_rows;
use crate::superblock::put_superblock;
use dirac_common::{NoMemory, Vector};
use std::alloc::Global;
use std::marker::Model;

/// The block table of an inter picture: how its superblocks of 4 by 4 blocks are split into units, and how each
/// block is predicted. All blocks of a unit are equal.
#[derive(Drop)]
pub struct BlockData {
    across: u32,
    down: u32,
    refs: u8,
    splits: Vec<u8>,
    blocks: Vec<Block>,
}

impl Model for BlockData {
    ghost use Rattle.dirac_block_table.specs.Tables.{BlockTable, IsBlockTable};

    ghost Value = { BlockTable };

    ghost view = { λ t. record {
      across = t.across;
      down = t.down;
      refs = t.refs;
      splits = t.splits.items;
      blocks = t.blocks.items;
    } };

    ghost invariant = { λ t. IsBlockTable (record {
      across = t.across;
      down = t.down;
      refs = t.refs;
      splits = t.splits.items;
      blocks = t.blocks.items;
    }) };
}

impl BlockData {
    /// A table of `across` by `down` superblocks for that many references: no superblock is split, and all blocks
    /// are DC blocks of value 0.
    pub fn try_new(alloc: Global, across: u32, down: u32, refs: u8) -> Result<BlockData, NoMemory>
        requires { IsTableSize across down refs }
        ensures { IfOk result (λ t. t ≡ record {
          across = across;
          down = down;
          refs = refs;
          splits = replicate (down * across) 0;
          blocks = replicate (4 * down * (4 * across)) grey;
        }) }
    {
        let columns = across as usize;
        let rows = down as usize;
        match vec![in alloc; 0u8; rows * columns] {
            Ok(splits) => match vec![in alloc; grey_block(); 4 * rows * (4 * columns)] {
                Ok(blocks) => Ok(BlockData {
                    across,
                    down,
                    refs,
                    splits,
                    blocks,
                }),
                Err(_) => Err(NoMemory),
            },
            Err(_) => Err(NoMemory),
        }
    }

    /// The number of superblocks across.
    pub fn across(&self) -> u32
        ensures value { result ≡ self.now.across }
        ensures lawful { IsBlockTable self.now }
    {
        self.across
    }

    /// The number of superblocks down.
    pub fn down(&self) -> u32
        ensures value { result ≡ self.now.down }
        ensures lawful { IsBlockTable self.now }
    {
        self.down
    }

    /// The number of references, 1 or 2.
    pub fn refs(&self) -> u8
        ensures value { result ≡ self.now.refs }
        ensures lawful { IsBlockTable self.now }
    {
        self.refs
    }

    /// The split, 0 to 2, of superblock `sx` of row `sy`.
    pub fn split(&self, sx: u32, sy: u32) -> u8
        requires across { sx < self.now.across }
        requires down { sy < self.now.down }
        ensures value { result ≡ split_at self.now sx sy }
        ensures at_most_2 { result ≤ 2 }
        ensures lawful { IsBlockTable self.now }
    {
        self.splits[sy as usize * self.across as usize + sx as usize]
    }

    /// Block `i` of row `j`.
    pub fn at(&self, i: u32, j: u32) -> Block
        requires across { i < 4 * self.now.across }
        requires down { j < 4 * self.now.down }
        ensures value { result ≡ block_at self.now i j }
        ensures block { IsBlock self.now.refs result }
        ensures lawful { IsBlockTable self.now }
    {
        self.blocks[j as usize * (4 * self.across as usize) + i as usize]
    }

    /// Writes superblock `sx` of row `sy`: how it is split, and the block of each of its units, by rows.
    pub fn put(&mut self, sx: u32, sy: u32, split: u8, units: &[Block])
        requires across { sx < self.old.across }
        requires down { sy < self.old.down }
        requires split { split ≤ 2 }
        requires count { length units.now ≡ 4 ^ split }
        requires units { All (IsBlock self.old.refs) units.now }
        ensures put { IsPut self.old sx sy split units.now self.new }
        ensures lawful { IsBlockTable self.new }
    {
        let across = self.across as usize;
        let left = sx as usize;
        let top = sy as usize;
        self.splits[top * across + left] = split;
        put_superblock(
            &mut self.blocks,
            4 * across,
            4 * left,
            4 * top,
            split,
            units,
        );
    }

    /// Writes how superblock `sx` of row `sy` is split; no block is read yet.
    pub fn set_split(&mut self, sx: u32, sy: u32, split: u8)
        requires across { sx < self.old.across }
        requires down { sy < self.old.down }
        requires split { split ≤ 2 }
        requires grey { AllGrey self.old.blocks }
        ensures value { self.new ≡ with_split self.old sx sy split }
        ensures lawful { IsBlockTable self.new }
    {
        let place = sy as usize * self.across as usize + sx as usize;
        self.splits[place] = split;
    }

    /// Writes the blocks of a unit, of `size` by `size` equal blocks from block `i` of row `j` on.
    pub fn set_unit(&mut self, size: u32, i: u32, j: u32, block: Block)
        requires unit { IsFirstOfUnit self.old size i j }
        requires block { IsBlock self.old.refs block }
        ensures value { self.new ≡ with_unit self.old size i j block }
        ensures lawful { IsBlockTable self.new }
    {
        let width = 4 * self.across as usize;
        let length = size as usize;
        fill_rows(
            &mut self.blocks,
            width,
            length,
            i as usize,
            j as usize,
            block,
            length,
        );
    }

    /// An equal table.
    pub fn try_copy(&self, alloc: Global) -> Result<BlockData, NoMemory>
        ensures { IfOk result (λ t. t ≡ self.now) }
    {
        match Vec::from_slice(alloc, self.splits.as_slice()) {
            Ok(splits) => match Vec::from_slice(alloc, self.blocks.as_slice()) {
                Ok(blocks) => Ok(BlockData {
                    across: self.across,
                    down: self.down,
                    refs: self.refs,
                    splits,
                    blocks,
                }),
                Err(_) => Err(NoMemory),
            },
            Err(_) => Err(NoMemory),
        }
    }
}

/// A DC block of value 0.
pub fn grey_block() -> Block
    ensures { result ≡ grey }
{
    let nowhere = Vector { x: 0, y: 0 };
    Block {
        ref1: false,
        ref2: false,
        v1: nowhere,
        v2: nowhere,
        dc_y: 0,
        dc_u: 0,
        dc_v: 0,
    }
}
