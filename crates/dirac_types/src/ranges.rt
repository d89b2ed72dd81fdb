//! The ranges of the settings, and what the base video formats say of them.

ghost use Rattle.std.specs.Prelude.{◌≡◌, ◌≤◌, ◌<◌, ◌==◌, if◌then◌else◌, All};
ghost use Rattle.dirac_types.specs.Settings as settings;

use crate::settings::{BadSetting, Name, Settings};
use dirac_base_formats::{BaseFormat, LAST_BASE, base_format};
use dirac_common::{
    Chroma, LARGEST_ENCODED_DEPTH, LARGEST_HEIGHT, LARGEST_INDEX, LARGEST_WAVELET, LARGEST_WIDTH,
};

/// A setting with its value and its range: from `least` to `most`, and a multiple of `step`.
#[derive(Clone, Copy)]
pub struct Ranged {
    pub name: Name,
    pub value: u32,
    pub least: u32,
    pub most: u32,
    pub step: u32,
}

/// What a base video format says of the settings.
#[derive(Clone, Copy)]
pub struct Format {
    pub chroma: u32,
    pub width: u32,
    pub height: u32,
    pub rate: u32,
    pub signal: u32,
}

/// The settings with their ranges, in the order in which they are checked.
pub fn table(s: &Settings) -> [Ranged; 26]
    ensures value { result ≡ settings.table s.now }
    ensures steps_at_least_1 { All (λ r. 1 ≤ r.step) result }
{
    rows(s)
}

#[tactic(auto, unfolding(crate::specs::Settings::table))]
fn rows(s: &Settings) -> [Ranged; 26]
    ensures { result ≡ settings.table s.now }
{
    [
        setting(Name::Base, s.base, 0, LAST_BASE, 1),
        setting(Name::Chroma, s.chroma, 0, 2, 1),
        setting(
            Name::Width,
            s.width,
            1,
            LARGEST_WIDTH,
            step_across(s.chroma),
        ),
        setting(
            Name::Height,
            s.height,
            1,
            LARGEST_HEIGHT,
            step_of_height(s.chroma, s.fields),
        ),
        setting(Name::Rate, s.rate, 1, 10, 1),
        setting(Name::Signal, s.signal, 1, 2, 1),
        setting(Name::Fields, s.fields, 0, 1, 1),
        setting(Name::Profile, s.profile, 0, 255, 1),
        setting(Name::Level, s.level, 0, 255, 1),
        setting(Name::Wavelet, s.wavelet, 0, LARGEST_WAVELET, 1),
        setting(Name::Depth, s.depth, 1, LARGEST_ENCODED_DEPTH, 1),
        setting(Name::Index, s.index, 0, LARGEST_INDEX, 1),
        setting(Name::Codeblocks, s.codeblocks, 1, 8, 1),
        setting(Name::Finer, s.finer, 0, LARGEST_INDEX, 1),
        setting(Name::Blocks, s.blocks, 2, 4, 1),
        setting(Name::Precision, s.precision, 0, 3, 1),
        setting(Name::References, s.references, 1, 2, 1),
        setting(Name::Gop, s.gop, 1, 65535, 1),
        setting(Name::Between, s.between, 0, 3, 1),
        setting(Name::Range, s.range, 0, 16, 1),
        setting(Name::Pyramid, s.pyramid, 0, 4, 1),
        setting(Name::Bias, s.bias, 0, 255, 1),
        setting(Name::Workers, s.workers, 1, 64, 1),
        setting(Name::Pictures, s.pictures, 1, 2147483647, 1),
        setting(Name::UnitBytes, s.unit_bytes, 14, 4294967295, 1),
        setting(Name::Alike, s.alike, 0, 1, 1),
    ]
}

fn setting(name: Name, value: u32, least: u32, most: u32, step: u32) -> Ranged
    ensures { result ≡ settings.setting name value least most step }
{
    Ranged {
        name,
        value,
        least,
        most,
        step,
    }
}

/// Luma samples beside each other for one chroma sample.
pub fn step_across(chroma: u32) -> u32
    ensures value { result ≡ settings.step_across chroma }
    ensures at_least_1 { 1 ≤ result }
{
    if chroma == 0 { 1 } else { 2 }
}

/// Luma samples below each other for one chroma sample.
pub fn step_down(chroma: u32) -> u32
    ensures value { result ≡ settings.step_down chroma }
    ensures at_least_1 { 1 ≤ result }
{
    if chroma == 2 { 2 } else { 1 }
}

/// The number of rows that divides the height of a frame: with fields each of its two fields has whole chroma samples.
pub fn step_of_height(chroma: u32, fields: u32) -> u32
    ensures value { result ≡ settings.step_of_height chroma fields }
    ensures at_least_1 { 1 ≤ result }
{
    if fields == 1 {
        2 * step_down(chroma)
    } else {
        step_down(chroma)
    }
}

/// The first setting that is out of its range.
pub fn first_bad(rows: &[Ranged]) -> Option<BadSetting>
    requires { All (λ r. 1 ≤ r.step) rows.now }
    ensures { result ≡ settings.first_bad rows.now }
{
    'rows: for row in rows {
        if !is_in_range(row) {
            return Some(BadSetting {
                name: row.name,
                value: u64::from(row.value),
            });
        }
    }
    None
}

fn is_in_range(row: &Ranged) -> bool
    requires { 1 ≤ row.now.step }
    ensures { result ≡ settings.is_in_range row.now }
{
    row.least <= row.value && row.value <= row.most && row.value % row.step == 0
}

/// The settings that depend on the base video format.
pub fn format_of(base: u32) -> Format
    requires { base ≤ LAST_BASE }
    ensures { result ≡ settings.format_of base }
{
    let format = base_format(base);
    defaults_of(&format)
}

fn defaults_of(format: &BaseFormat) -> Format
    ensures { result ≡ settings.defaults_of format.now }
{
    Format {
        chroma: chroma_number(format.chroma),
        width: format.size.0,
        height: format.size.1,
        rate: format.rate,
        signal: signal_of(format.signal),
    }
}

/// The number of a chroma format.
fn chroma_number(chroma: Chroma) -> u32
    ensures { result ≡ settings.chroma_number chroma }
{
    match chroma {
        Chroma::C444 => 0,
        Chroma::C422 => 1,
        Chroma::C420 => 2,
    }
}

/// The signal range of the settings: 1, or 2 in place of all others.
fn signal_of(index: u32) -> u32
    ensures { result ≡ (if index == 1 then 1 else 2) }
{
    if index == 1 { 1 } else { 2 }
}
