ghost use Rattle.std.specs.Prelude.{◌≡◌, ℕ, ◌+◌, ◌≤◌, ◌<◌, ◌^◌, ◌-◌, IfOk, IfErr, Ok, [], ◌∷◌, length, replicate};
ghost use Rattle.dirac_common.specs.Limits.{IsDepth, IsWavelet};
ghost use Rattle.dirac_bits.specs.Cursor.{Cursor};
ghost use Rattle.dirac_bits.specs.Syntax.{read};
ghost use Rattle.dirac_bits.specs.Answers.{ReadsSeenBy};
ghost use Rattle.dirac_bits.specs.Laws.{BeginsWith};
ghost use Rattle.dirac_parameters.specs.declared.transform.Transform.{Transform as TheTransform};
ghost use Rattle.dirac_header.specs.Transform as grammar;

use dirac_bits::BitReader;
use dirac_common::{Cause, LARGEST_DEPTH, LARGEST_WAVELET, Refusal};
use dirac_parameters::{Counts, Transform};

/// How the subbands are divided into codeblocks, as the partition flag and what stands behind it say.
#[derive(Drop)]
pub struct Partition {
    /// The counts of codeblocks, level by level from level 0.
    pub counts: Counts,
    /// The codeblock mode, 0 or 1.
    pub mode: u8,
}

/// The transform parameters of a picture of `width` by `height` luma samples: transform parameters, Dirac
/// specification.
pub fn read_transform(r: &mut BitReader<'_>, width: u32, height: u32) -> Result<Transform, Refusal>
    ensures value { ReadsSeenBy (λ t. t) result r.new (read (grammar.transform width height) r.old) }
    // What is answered is spelled by the bits left.
    ensures spelled { IfOk result (λ t. BeginsWith (grammar.transform width height) t r.old r.new) }
    // What they spell is answered.
    ensures no_other_reading { (t : TheTransform) (d : Cursor) → BeginsWith (grammar.transform width height) t r.old d
        → (result ≡ Ok t) × (r.new ≡ d) }
    ensures place_inside { IfErr result (λ e. e.at ≤ length r.old.bytes) }
    ensures kept { r.new.bytes ≡ r.old.bytes }
    ensures wavelet { IfOk result (λ t. IsWavelet t.wavelet) }
    ensures depth { IfOk result (λ t. IsDepth t.depth) }
    ensures levels { IfOk result (λ t. length t.counts ≡ t.depth + 1) }
    ensures mode { IfOk result (λ t. t.mode ≤ 1) }
{
    let _at = r.place();
    read_fields(r, width, height)
}

#[tactic(auto, unfolding(crate::specs::Transform::transform), using(dirac_bits::specs::Then::read_then))]
fn read_fields(r: &mut BitReader<'_>, width: u32, height: u32) -> Result<Transform, Refusal>
    ensures value { ReadsSeenBy (λ t. t) result r.new (read (grammar.transform width height) r.old) }
    ensures place_inside { IfErr result (λ e. e.at ≤ length r.old.bytes) }
    ensures kept { r.new.bytes ≡ r.old.bytes }
    ensures wavelet { IfOk result (λ t. IsWavelet t.wavelet) }
    ensures depth { IfOk result (λ t. IsDepth t.depth) }
    ensures levels { IfOk result (λ t. length t.counts ≡ t.depth + 1) }
    ensures mode { IfOk result (λ t. t.mode ≤ 1) }
{
    let wavelet = r.field(Cause::Wavelet, 0, LARGEST_WAVELET as u64)?;
    let depth = r.field(Cause::Depth, 1, LARGEST_DEPTH as u64)?;
    let Partition { counts, mode } = read_codeblocks(r, width, height, depth as u8)?;
    Ok(Transform {
        wavelet: wavelet as u8,
        depth: depth as u8,
        counts,
        mode,
    })
}

#[tactic(auto, unfolding(crate::specs::Transform::codeblocks), using(dirac_bits::specs::Then::read_then))]
fn read_codeblocks(
    r: &mut BitReader<'_>,
    width: u32,
    height: u32,
    depth: u8,
) -> Result<Partition, Refusal>
    requires { IsDepth depth }
    ensures value { ReadsSeenBy (λ c. c) result r.new (read (grammar.codeblocks width height depth) r.old) }
    ensures place_inside { IfErr result (λ e. e.at ≤ length r.old.bytes) }
    ensures kept { r.new.bytes ≡ r.old.bytes }
    ensures levels { IfOk result (λ c. length c.counts ≡ depth + 1) }
    ensures mode { IfOk result (λ c. c.mode ≤ 1) }
{
    if r.bit()? {
        read_partition(r, width, height, depth)
    } else {
        Ok(Partition {
            counts: all_ones(depth),
            mode: 0,
        })
    }
}

/// One codeblock a band.
fn all_ones(depth: u8) -> Counts
    requires { depth ≤ 5 }
    ensures { result ≡ replicate (depth + 1) (1, 1) }
{
    let mut counts = Counts::new();
    'levels: for _level in 0..=depth {
        counts.push(1, 1);
    }
    counts
}

#[tactic(auto, unfolding(crate::specs::Transform::partition), using(dirac_bits::specs::Then::read_then))]
fn read_partition(
    r: &mut BitReader<'_>,
    width: u32,
    height: u32,
    depth: u8,
) -> Result<Partition, Refusal>
    requires { IsDepth depth }
    ensures value { ReadsSeenBy (λ c. c) result r.new (read (grammar.partition width height depth) r.old) }
    ensures place_inside { IfErr result (λ e. e.at ≤ length r.old.bytes) }
    ensures kept { r.new.bytes ≡ r.old.bytes }
    ensures levels { IfOk result (λ c. length c.counts ≡ depth + 1) }
    ensures mode { IfOk result (λ c. c.mode ≤ 1) }
{
    let counts = read_counts(r, width, height, depth)?;
    let mode = r.field(Cause::CodeblockMode, 0, 1)?;
    Ok(Partition {
        counts,
        mode: mode as u8,
    })
}

fn read_counts(r: &mut BitReader<'_>, width: u32, height: u32, depth: u8) -> Result<Counts, Refusal>
    requires { IsDepth depth }
    ensures value { ReadsSeenBy (λ c. c) result r.new
        (read (grammar.counts_behind width height depth [] (depth + 1)) r.old) }
    ensures place_inside { IfErr result (λ e. e.at ≤ length r.old.bytes) }
    ensures kept { r.new.bytes ≡ r.old.bytes }
    ensures levels { IfOk result (λ c. length c ≡ depth + 1) }
{
    let mut counts = Counts::new();
    'levels: for level in 0..depth + 1 {
        let (across, down) = read_level_counts(r, width, height, depth, level)?;
        counts.push(across, down);
    }
    Ok(counts)
}

#[tactic(auto, unfolding(crate::specs::Transform::level_counts), using(dirac_bits::specs::Then::read_then))]
fn read_level_counts(
    r: &mut BitReader<'_>,
    width: u32,
    height: u32,
    depth: u8,
    level: u8,
) -> Result<(u32, u32), Refusal>
    requires depth { IsDepth depth }
    requires level { level ≤ depth }
    ensures value { ReadsSeenBy (λ x. x) result r.new (read (grammar.level_counts width height depth level) r.old) }
    ensures place_inside { IfErr result (λ e. e.at ≤ length r.old.bytes) }
    ensures kept { r.new.bytes ≡ r.old.bytes }
{
    let across = r.field(Cause::Codeblocks, 1, band_length(width, depth, level))?;
    let down = r.field(Cause::Codeblocks, 1, band_length(height, depth, level))?;
    Ok((across as u32, down as u32))
}

/// The columns or rows of a band of this level in a plane of `size` columns or rows.
fn band_length(size: u32, depth: u8, level: u8) -> u64
    requires depth { IsDepth depth }
    requires level { level ≤ depth }
    ensures value { result ≡ grammar.band_length size depth level }
    ensures below_2_32 { result < 2 ^ 32 }
{
    let unit = 1u64 << depth;
    let padded = (u64::from(size) + unit - 1) / unit * unit;
    if level == 0 {
        padded >> depth
    } else {
        padded >> (depth - level + 1)
    }
}
