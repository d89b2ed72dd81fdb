ghost use Rattle.std.specs.Prelude.{◌≡◌, ◌≤◌, [], map, string_bytes, option_copied};
ghost use Rattle.std.specs.List.{list_any};
ghost use Rattle.dirac_types.specs.Settings.{of_base as defaults_of_base};
ghost use Rattle.dirac_command_line.specs.Options as options;

use dirac_types::{Name, Settings};

// The names of the settings, in the order of their table.
const NAMES: [Name; 26] = [
    Name::Base,
    Name::Chroma,
    Name::Width,
    Name::Height,
    Name::Rate,
    Name::Signal,
    Name::Fields,
    Name::Profile,
    Name::Level,
    Name::Wavelet,
    Name::Depth,
    Name::Index,
    Name::Codeblocks,
    Name::Finer,
    Name::Blocks,
    Name::Precision,
    Name::References,
    Name::Gop,
    Name::Between,
    Name::Range,
    Name::Pyramid,
    Name::Bias,
    Name::Workers,
    Name::Pictures,
    Name::UnitBytes,
    Name::Alike,
];

/// The command behind which words stand.
#[derive(Clone, Copy, Debug, PartialEq, Eq)]
pub enum OptionsOf {
    /// Settings, and the path of the reconstructions.
    Encode,
    /// Settings, and the number of pictures.
    Make,
    /// The number of workers.
    Pardecode,
    /// The words of `encode`, and the budget.
    Rate,
}

// What stands behind this front, where the word begins with it.
fn behind<'a>(word: &'a str, front: &str) -> Option<&'a str>
    ensures { option_copied result ≡ options.behind front.now word.now }
{
    word.strip_prefix(front)
}

// Whether a text is 1 to 10 ASCII digits.
fn is_digits(text: &str) -> bool
    ensures { result ≡ options.is_digits text.now }
{
    'bytes: for byte in text.as_bytes() {
        if !byte.is_ascii_digit() {
            return false;
        }
    }
    1 <= text.len() && text.len() <= 10
}

// The number that 1 to 10 ASCII digits spell, where it fits.
fn number_of(text: &str) -> Option<u32>
    ensures { result ≡ options.number_in_digits text.now }
{
    if is_digits(text) {
        text.parse::<u32>().ok()
    } else {
        None
    }
}

// The value that a word gives to the setting of this name.
fn value_in(name: Name, word: &str) -> Option<u32>
    ensures { result ≡ options.value_in name word.now }
{
    let text = behind(word, "--")?;
    let text = behind(text, name.text())?;
    let text = behind(text, "=")?;
    number_of(text)
}

// The path that a word gives.
fn path_in(word: &str) -> Option<&str>
    ensures { option_copied result ≡ options.path_in word.now }
{
    let path = behind(word, "--recon=")?;
    if path.is_empty() { None } else { Some(path) }
}

/// The number of the point that a word gives behind this front.
pub fn point_in(front: &str, word: &str) -> Option<u64>
    ensures { result ≡ options.point_in front.now word.now }
{
    let text = behind(word, front)?;
    let number = number_of(text)?;
    Some(u64::from(number))
}

// The value that these words give to the setting of this name.
fn value_given(name: Name, words: &[String]) -> Option<u32>
    ensures { result ≡ options.value_given name (map string_bytes words.now) }
{
    'words: for word in words {
        let value = value_in(name, word.as_str());
        if value.is_some() {
            return value;
        }
    }
    None
}

/// The path that these words give.
pub fn path_given(words: &[String]) -> Option<&str>
    ensures { option_copied result ≡ options.path_given (map string_bytes words.now) }
{
    'words: for word in words {
        let path = path_in(word.as_str());
        if path.is_some() {
            return path;
        }
    }
    None
}

// Whether a word gives the setting of this name its value, and none of the words before does.
#[tactic(auto, unfolding(crate::specs::Options::is_new_setting))]
fn is_new_setting(before: &[String], word: &str, name: Name) -> bool
    ensures { result ≡ options.is_new_setting (map string_bytes before.now) word.now name }
{
    value_in(name, word).is_some() && value_given(name, before).is_none()
}

// Whether a word gives the path, and none of the words before does.
fn is_new_path(before: &[String], word: &str) -> bool
    ensures { result ≡ options.is_new_path (map string_bytes before.now) word.now }
{
    path_in(word).is_some() && path_given(before).is_none()
}

// Whether a word gives one of these settings its value, and none of the words before does.
fn is_new_among(before: &[String], word: &str, names: &[Name]) -> bool
    ensures { result ≡ list_any (options.is_new_setting (map string_bytes before.now) word.now) names.now }
{
    'names: for name in names {
        if is_new_setting(before, word, *name) {
            return true;
        }
    }
    false
}

// Whether a word fits behind these.
#[tactic(auto, unfolding(crate::specs::Options::fits))]
fn fits(of: OptionsOf, before: &[String], word: &str) -> bool
    ensures { result ≡ options.fits of (map string_bytes before.now) word.now }
{
    match of {
        OptionsOf::Encode => is_new_among(before, word, &NAMES) || is_new_path(before, word),
        OptionsOf::Make => {
            is_new_among(before, word, &NAMES) || is_new_setting(before, word, Name::Count)
        }
        OptionsOf::Pardecode => is_new_setting(before, word, Name::Workers),
        OptionsOf::Rate => {
            is_new_among(before, word, &NAMES)
                || is_new_path(before, word)
                || is_new_setting(before, word, Name::Budget)
        }
    }
}

/// The number of the first of the words behind the command that doesn't fit, from 1.
pub fn first_unfit(of: OptionsOf, words: &[String]) -> Option<u32>
    ensures { result ≡ options.first_unfit of [] (map string_bytes words.now) }
{
    let mut number = 1;
    'words: for (i, word) in words.iter().enumerate() {
        if !fits(of, &words[..i], word.as_str()) {
            return Some(number);
        }
        number += 1;
    }
    None
}

// The value that these words give to the setting of this name, or else this one.
#[tactic(auto, unfolding(crate::specs::Options::value_or))]
fn value_or(words: &[String], name: Name, default: u32) -> u32
    ensures { result ≡ options.value_or (map string_bytes words.now) name default }
{
    value_given(name, words).unwrap_or(default)
}

// The defaults with this base video format; a number beyond the last format stands beside those of 0.
fn defaults(base: u32) -> Settings
    ensures { result ≡ defaults_of_base base }
{
    if base <= 16 {
        Settings::of_base(base)
    } else {
        Settings {
            base,
            ..Settings::of_base(0)
        }
    }
}

/// The settings that these words say.
#[tactic(auto, unfolding(crate::specs::Options::settings_given))]
pub fn settings_given(words: &[String]) -> Settings
    ensures { result ≡ options.settings_given (map string_bytes words.now) }
{
    let d = defaults(value_or(words, Name::Base, 0));
    Settings {
        base: d.base,
        chroma: value_or(words, Name::Chroma, d.chroma),
        width: value_or(words, Name::Width, d.width),
        height: value_or(words, Name::Height, d.height),
        rate: value_or(words, Name::Rate, d.rate),
        signal: value_or(words, Name::Signal, d.signal),
        fields: value_or(words, Name::Fields, d.fields),
        profile: value_or(words, Name::Profile, d.profile),
        level: value_or(words, Name::Level, d.level),
        wavelet: value_or(words, Name::Wavelet, d.wavelet),
        depth: value_or(words, Name::Depth, d.depth),
        index: value_or(words, Name::Index, d.index),
        codeblocks: value_or(words, Name::Codeblocks, d.codeblocks),
        finer: value_or(words, Name::Finer, d.finer),
        blocks: value_or(words, Name::Blocks, d.blocks),
        precision: value_or(words, Name::Precision, d.precision),
        references: value_or(words, Name::References, d.references),
        gop: value_or(words, Name::Gop, d.gop),
        between: value_or(words, Name::Between, d.between),
        range: value_or(words, Name::Range, d.range),
        pyramid: value_or(words, Name::Pyramid, d.pyramid),
        bias: value_or(words, Name::Bias, d.bias),
        workers: value_or(words, Name::Workers, d.workers),
        pictures: value_or(words, Name::Pictures, d.pictures),
        unit_bytes: value_or(words, Name::UnitBytes, d.unit_bytes),
        alike: value_or(words, Name::Alike, d.alike),
    }
}

/// The number of pictures that these words say.
pub fn count_given(words: &[String]) -> u32
    ensures { result ≡ options.count_given (map string_bytes words.now) }
{
    value_or(words, Name::Count, 12)
}

/// The number of workers that these words say.
pub fn workers_given(words: &[String]) -> u32
    ensures { result ≡ options.workers_given (map string_bytes words.now) }
{
    value_or(words, Name::Workers, 2)
}

/// The budget that these words say.
pub fn budget_given(words: &[String]) -> u32
    ensures { result ≡ options.budget_given (map string_bytes words.now) }
{
    value_or(words, Name::Budget, 65_536)
}
