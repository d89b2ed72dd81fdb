ghost use Rattle.std.specs.Prelude.{◌≡◌, ◌*◌, true, None, pos, length, replicate, IfOk};
ghost use Rattle.dirac_coeffs.specs.Answers.{GivesBlock, GivesNarrow, Holds, stopped_at};
ghost use Rattle.dirac_coeffs.specs.BandRead.{band_read};
ghost use Rattle.dirac_coeffs.specs.Carried.{AreLawful, CarriesLong, CarriesNoIndex};
ghost use Rattle.dirac_coeffs.specs.Indices.{all_equal};
ghost use Rattle.dirac_coeffs.specs.Layouts.{IsBandLayout};
ghost use Rattle.dirac_coeffs.specs.Lent.{IsNarrow, content_in, numbers_in, values_in};
ghost use Rattle.dirac_common.specs.Limits.{IsIndex};

use crate::codeblocks::{BandFrame, Filling, read_content};
use crate::coefficients::Coefficients;
use crate::indices::Indices;
use crate::layout::{BandBlock, BandLayout};
use crate::numbers::Numbers;
use crate::store::{Unread, Values};
use dirac_common::{Cause, NoMemory, Refusal, Stop};
use std::alloc::Global;

/// Zeros for the values of a band, in 64 bits or in 32.
fn zeros(alloc: Global, layout: BandLayout, wide: bool) -> Result<Values, NoMemory>
    requires layout { IsBandLayout layout }
    ensures zeros { IfOk result (λ v. values_in v ≡ replicate (layout.width * layout.height) (pos 0)) }
    ensures wide { wide ≡ true → IfOk result (λ v. IsNarrow v → ⊥) }
{
    let count = layout.width as usize * layout.height as usize;
    if wide {
        return match vec![in alloc; 0i64; count] {
            Ok(list) => Ok(Values::Wide(list)),
            Err(_error) => Err(NoMemory),
        };
    }
    match vec![in alloc; 0i32; count] {
        Ok(list) => Ok(Values::Narrow(list)),
        Err(_error) => Err(NoMemory),
    }
}

/// What is read of a band before anything is: zeros, in 64 bits or in 32, and indices that are the band's.
fn empty_filling(alloc: Global, frame: BandFrame<'_>, wide: bool) -> Result<Filling, NoMemory>
    requires layout { IsBandLayout frame.layout }
    ensures zeros { IfOk result (λ f. values_in f.values
        ≡ replicate (frame.entry.layout.width * frame.entry.layout.height) (pos 0)) }
    ensures equal { IfOk result (λ f. f.indices ≡ all_equal frame.entry.layout frame.entry.index) }
    ensures wide { wide ≡ true → IfOk result (λ f. IsNarrow f.values → ⊥) }
{
    match zeros(alloc, frame.layout, wide) {
        Ok(values) => match Indices::try_new(
            alloc,
            frame.layout.across * frame.layout.down,
            frame.index,
        ) {
            Ok(indices) => Ok(Filling { values, indices }),
            Err(e) => Err(e),
        },
        Err(e) => Err(e),
    }
}

/// The block of what was read.
fn held_block(
    alloc: Global,
    layout: BandLayout,
    filling: Filling,
) -> Result<Option<BandBlock>, Stop>
    requires layout { IsBandLayout layout }
    requires len { length (values_in filling.values) ≡ layout.width * layout.height }
    ensures { Holds layout result (content_in filling) }
{
    let Filling { values, indices } = filling;
    match Coefficients::of_values(alloc, layout.width, layout.height, values) {
        Ok(table) => Ok(Some(BandBlock { indices, table })),
        Err(_no_memory) => Err(Stop::NoMemory),
    }
}

/// What is answered of a block at this place where its reading stopped.
fn stopped(unread: Unread, at: u64) -> Result<Option<BandBlock>, Stop>
    ensures { result ≡ stopped_at at unread }
{
    match unread {
        Unread::TooWide => Ok(None),
        Unread::Refused(cause) => Err(Stop::Refused(Refusal { at, cause })),
    }
}

/// Reads a block in 64 bits or in 32; none where a value doesn't fit 32.
fn read_as(
    alloc: Global,
    block: &[u8],
    at: u64,
    frame: BandFrame<'_>,
    wide: bool,
) -> Result<Option<BandBlock>, Stop>
    requires layout { IsBandLayout frame.layout }
    requires index { IsIndex frame.index }
    ensures value { GivesNarrow frame.entry.layout at result
        (band_read frame.entry.layout (numbers_in frame.entry.parent) frame.entry.index block.now) }
    ensures wide_is_found { wide ≡ true → IfOk result (λ found. found ≡ None → ⊥) }
{
    match empty_filling(alloc, frame, wide) {
        Ok(mut filling) => match read_content(block, &mut filling, frame) {
            Ok(()) => held_block(alloc, frame.layout, filling),
            Err(unread) => stopped(unread, at),
        },
        Err(NoMemory) => Err(Stop::NoMemory),
    }
}

/// The same as `read_block` with a parent whose values are lent: reads the block in 32 bits, and where a value doesn't
/// fit again in 64.
pub fn read_below(
    alloc: Global,
    block: &[u8],
    at: u64,
    frame: BandFrame<'_>,
) -> Result<BandBlock, Stop>
    requires layout { IsBandLayout frame.layout }
    requires index { IsIndex frame.index }
    ensures { GivesBlock frame.entry.layout at result
        (band_read frame.entry.layout (numbers_in frame.entry.parent) frame.entry.index block.now) }
{
    match read_as(alloc, block, at, frame, false) {
        Ok(Some(found)) => Ok(found),
        Ok(None) => match read_as(alloc, block, at, frame, true) {
            Ok(Some(found)) => Ok(found),
            Ok(None) => unreachable!(),
            Err(stop) => Err(stop),
        },
        Err(stop) => Err(stop),
    }
}

/// The coefficients of a subband from its arithmetic block (wavelet coefficients, Dirac specification, section 13), and
/// the quantiser index of each codeblock, where the band's is `index`. `parent` holds the values of the parent band by
/// rows, and is empty where there is none; a refusal is given the place `at`.
pub fn read_block(
    alloc: Global,
    block: &[u8],
    at: u64,
    layout: BandLayout,
    parent: &[i64],
    index: u8,
) -> Result<BandBlock, Stop>
    requires layout { IsBandLayout layout }
    requires index { IsIndex index }
    ensures value { GivesBlock layout at result (band_read layout parent.now index block.now) }
    ensures lawful { IfOk result (λ b. AreLawful layout index b.table.values b.indices) }
    ensures plain { IfOk result (λ b. layout.mode ≡ 0 → b.indices ≡ all_equal layout index) }
    ensures long { result ≡ Err (Stop.Refused (record { at = at; cause = Cause.NumberTooLong }))
        → CarriesLong layout parent.now index block.now }
    ensures no_index { result ≡ Err (Stop.Refused (record { at = at; cause = Cause.QuantIndex }))
        → CarriesNoIndex layout parent.now index block.now }
{
    let frame = BandFrame {
        layout,
        parent: Numbers::Wide(parent),
        index,
    };
    read_below(alloc, block, at, frame)
}
