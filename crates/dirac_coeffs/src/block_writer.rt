ghost use Rattle.std.specs.Prelude.{◌≡◌, IfOk, Ok};
ghost use Rattle.dirac_coeffs.specs.BandRead.{band_read, band_content};
ghost use Rattle.dirac_coeffs.specs.Carried.{AreLawful};
ghost use Rattle.dirac_coeffs.specs.Layouts.{IsBandLayout};
ghost use Rattle.dirac_coeffs.specs.Lent.{numbers_in};
ghost use Rattle.dirac_coeffs.specs.Written.{AreIndicesOf, block_of};
ghost use Rattle.dirac_coeffs.specs.WrittenBand.{block_of_band};

use crate::codeblock_writer::write_codeblock;
use crate::indices::Indices;
use crate::layout::{BandLayout, WrittenBand};
use crate::numbers::Numbers;
use crate::spans::Codeblock;
use dirac_arith::Encoder;
use dirac_common::NoMemory;
use std::alloc::Global;

/// The same of a band whose values are lent.
pub fn write_below(alloc: Global, band: WrittenBand<'_>) -> Result<Vec<u8>, NoMemory>
    requires layout { IsBandLayout band.layout }
    requires lawful { AreLawful band.layout band.index (numbers_in band.values) band.indices.now }
    requires indices { AreIndicesOf band.layout band.index (numbers_in band.values) band.indices.now }
    ensures exact { IfOk result (λ block. block.items ≡ block_of_band band.entry) }
    ensures read_back { IfOk result (λ block. band_read band.entry.layout (numbers_in band.entry.parent)
        band.entry.index block.items ≡ Ok (band_content (numbers_in band.entry.values) band.entry.indices.now)) }
{
    let mut encoder = Encoder::new(alloc);
    'down: for cy in 0..band.layout.down {
        'across: for cx in 0..band.layout.across {
            let codeblock = Codeblock {
                row: cy,
                column: cx,
            };
            match write_codeblock(&mut encoder, band, codeblock) {
                Ok(()) => {}
                Err(e) => return Err(e),
            }
        }
    }
    encoder.finish()
}

/// The arithmetic block of a subband's coefficients, whose zero flags are true for codeblocks of zeros, and in
/// codeblock mode 1 of the quantiser indices of its codeblocks, where the band's is `index`. `parent` holds the values
/// of the parent band by rows, and is empty where there is none.
pub fn write_block(
    alloc: Global,
    values: &[i64],
    indices: &Indices,
    layout: BandLayout,
    parent: &[i64],
    index: u8,
) -> Result<Vec<u8>, NoMemory>
    requires layout { IsBandLayout layout }
    requires lawful { AreLawful layout index values.now indices.now }
    requires indices { AreIndicesOf layout index values.now indices.now }
    ensures exact { IfOk result (λ block. block.items ≡ block_of layout parent.now index values.now indices.now) }
    ensures read_back { IfOk result (λ block. band_read layout parent.now index block.items
        ≡ Ok (band_content values.now indices.now)) }
{
    let band = WrittenBand {
        values: Numbers::Wide(values),
        parent: Numbers::Wide(parent),
        layout,
        index,
        indices,
    };
    write_below(alloc, band)
}
