ghost use Rattle.std.specs.Prelude.{◌≡◌, ◌≤◌, length, IfOk, IfErr, IfSome};
ghost use Rattle.dirac_common.specs.Limits.{IsIndex};
ghost use Rattle.dirac_bits.specs.Syntax.{read};
ghost use Rattle.dirac_bits.specs.Answers.{ReadsSeenBy};
ghost use Rattle.dirac_coeffs.specs.Sites.{coded_site, site};

use dirac_bits::BitReader;
use dirac_common::{Cause, LARGEST_INDEX, Refusal};
use std::marker::Model;

/// The block of a subband, found and not yet read: its quantiser index, the place of its first byte, its bytes.
#[derive(Drop)]
pub struct Site<'a> {
    index: u8,
    at: u64,
    block: &'a [u8],
}

impl<'a> Model for Site<'a> {
    ghost use Rattle.dirac_coeffs.specs.Sites.{Found};

    ghost Value = { Found };

    ghost view = { λ s. record { index = s.index; at = s.at; block = s.block.now } };
}

impl<'a> Site<'a> {
    /// The quantiser index.
    pub fn index(&self) -> u8
        ensures { result ≡ self.now.index }
    {
        self.index
    }

    /// The place of the block's first byte, counted from the payload's.
    pub fn at(&self) -> u64
        ensures { result ≡ self.now.at }
    {
        self.at
    }

    /// The block's bytes.
    pub fn block(&self) -> &[u8]
        ensures { result.now ≡ self.now.block }
    {
        self.block
    }
}

/// Finds the block, of this length, of a subband of which something is coded.
fn find_coded<'a>(r: &mut BitReader<'a>, len: u64) -> Result<Site<'a>, Refusal>
    ensures value { ReadsSeenBy (λ s. s) result r.new (read (coded_site len) r.old) }
    ensures place_inside { IfErr result (λ e. e.at ≤ length r.old.bytes) }
    ensures kept { r.new.bytes ≡ r.old.bytes }
    ensures index { IfOk result (λ s. IsIndex s.index) }
    ensures block_inside { IfOk result (λ s. s.at ≤ length r.old.bytes) }
{
    let place = r.place();
    match r.uint() {
        Ok(index) => {
            if index > LARGEST_INDEX as u64 {
                return Err(Refusal {
                    at: place,
                    cause: Cause::QuantIndex,
                });
            }
            r.align();
            let at = r.place();
            match r.block(len) {
                Ok(block) => Ok(Site {
                    index: index as u8,
                    at,
                    block,
                }),
                Err(refusal) => Err(refusal),
            }
        }
        Err(refusal) => Err(refusal),
    }
}

/// Finds the block of a subband, and passes over it; none where nothing is coded. It depends on no other subband.
pub fn find_site<'a>(r: &mut BitReader<'a>) -> Result<Option<Site<'a>>, Refusal>
    ensures value { ReadsSeenBy (λ s. s) result r.new (read site r.old) }
    ensures place_inside { IfErr result (λ e. e.at ≤ length r.old.bytes) }
    ensures kept { r.new.bytes ≡ r.old.bytes }
    ensures index { IfOk result (λ found. IfSome found (λ s. IsIndex s.index)) }
    ensures block_inside { IfOk result (λ found. IfSome found (λ s. s.at ≤ length r.old.bytes)) }
{
    r.align();
    match r.uint() {
        Ok(len) => {
            if len == 0 {
                return Ok(None);
            }
            match find_coded(r, len) {
                Ok(site) => Ok(Some(site)),
                Err(refusal) => Err(refusal),
            }
        }
        Err(refusal) => Err(refusal),
    }
}
