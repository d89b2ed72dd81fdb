ghost use Rattle.std.specs.Prelude.{◌≡◌, ◌≤◌, length, IsTrue, IfOk};
ghost use Rattle.std.specs.List.{All};
ghost use Rattle.dirac_upconvert.specs.HalfSamples.{IsSample};
ghost use Rattle.dirac_search.specs.Given.{searched_of};
ghost use Rattle.dirac_search.specs.InBytes.{AreGiven};

use crate::stage::Search;
use dirac_common::NoMemory;
use std::alloc::Global;

/// The samples of the source, to be compared in bytes.
#[derive(Drop)]
pub struct Bytes {
    /// By rows.
    pub source: Vec<i8>,
}

/// Whether a value is a sample of eight bits.
#[inline(always)]
fn is_sample(value: i16) -> bool
    ensures { IsTrue result → IsSample value }
{
    -128 <= value && value <= 127
}

/// Whether all values are samples of eight bits.
fn are_samples(values: &[i16]) -> bool
    ensures { IsTrue result → All IsSample values.now }
{
    for k in 0..values.len() {
        if !is_sample(values[k]) {
            return false;
        }
    }
    true
}

/// A sample in eight bits.
#[inline(always)]
fn narrowed(sample: i16) -> i8
    requires { IsSample sample }
    ensures { result ≡ sample }
{
    sample as i8
}

/// Copies samples into eight bits.
#[inline(always)]
fn narrow(samples: &[i16], out: &mut [i8])
    requires equal_lengths { length out.old ≡ length samples.now }
    requires samples { All IsSample samples.now }
    ensures { out.new ≡ samples.now }
{
    for k in 0..samples.len() {
        out[k] = narrowed(samples[k]);
    }
}

/// These samples in eight bits.
fn source_of(alloc: Global, samples: &[i16]) -> Result<Vec<i8>, NoMemory>
    requires { All IsSample samples.now }
    ensures { IfOk result (λ v. v.items ≡ samples.now) }
{
    let mut source = vec![in alloc; 0i8; samples.len()]?;
    narrow(samples, source.as_mut_slice());
    Ok(source)
}

impl Bytes {
    /// The source's samples in eight bits, for a search with vectors of this precision: none where it ends at whole
    /// samples, or where one hasn't eight bits.
    pub fn of(alloc: Global, search: &Search<'_>, precision: u32) -> Result<Option<Bytes>, NoMemory>
        requires { 1 ≤ length (searched_of search.now).source }
        ensures { IfOk result (AreGiven (searched_of search.now)) }
    {
        let samples = search.source.level(0).values();
        if precision == 0 || !are_samples(samples) {
            return Ok(None);
        }
        let source = source_of(alloc, samples)?;
        Ok(Some(Bytes { source }))
    }
}
