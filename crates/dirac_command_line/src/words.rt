ghost use Rattle.std.specs.Prelude.{◌≡◌, ◌++◌, [], ◌∷◌, OnOk, OnErr, Option, map, string_bytes, option_copied};
ghost use Rattle.std.specs.Prelude.{slice_range, length};
ghost use Rattle.dirac_types.specs.Settings.{first_bad, table, verdict};
ghost use Rattle.dirac_types.specs.declared.settings.BadSetting.{BadSetting as Bad};
ghost use Rattle.dirac_command_line.specs.Words.{command_read, path_read, path_accepted, cut_read, encode_read};
ghost use Rattle.dirac_command_line.specs.Words.{make_read};
ghost use Rattle.dirac_command_line.specs.Words.{pardecode_read, rate_read, alone as command_alone};
ghost use Rattle.dirac_command_line.specs.Words.{tells_reconstructions as is_telling};
ghost use Rattle.dirac_command_line.specs.Checks.{first_bad_for_rate};

use crate::checks::check_rate;
use crate::options::{
    OptionsOf, budget_given, count_given, first_unfit, path_given, settings_given, workers_given,
};
use crate::points::Points;
use dirac_common::NoMemory;
use dirac_types::{BadSetting, Settings};
use std::alloc::Global;
use std::marker::Model;

/// The words of a command line, without the program's name.
#[derive(Drop)]
pub struct Words {
    alloc: Global,
    list: Vec<String>,
}

impl Model for Words {
    ghost use Rattle.std.specs.Prelude.{List, ℕ, map, string_bytes};

    ghost Value = { List (List ℕ) };

    ghost view = { λ w. map string_bytes w.list.items };
}

impl Words {
    pub fn new(alloc: Global) -> Words
        ensures { result ≡ [] }
    {
        Words {
            alloc,
            list: Vec::new(alloc),
        }
    }

    /// Appends a word.
    pub fn push(&mut self, word: &str) -> Result<(), NoMemory>
        ensures pushed { OnOk result (self.new ≡ self.old ++ word.now ∷ []) }
        ensures kept { OnErr result (self.new ≡ self.old) }
    {
        let word = String::from_str(self.alloc, word)?;
        self.list.push(word)?;
        Ok(())
    }
}

/// A command, as the words say it.
#[derive(Clone, Copy, Debug, PartialEq, Eq)]
pub enum Command {
    /// Lists the units of a stream.
    List,
    /// Decodes a stream to raw pictures.
    Decode,
    /// Encodes raw pictures to a stream.
    Encode(Settings),
    /// Encodes that many generated pictures, and tells the sizes and how many come out exactly.
    Make(Settings, u32),
    /// Decodes a stream as `Decode`, by that many workers.
    Pardecode(u32),
    /// Cuts a stream from a point up to, and without, another, or to its end.
    Cut(u64, Option<u64>),
    /// Encodes raw pictures, so that each picture's unit has at most that many bytes.
    Rate(Settings, u32),
    /// Joins the sequences of a stream.
    Join,
}

/// Why words aren't run.
#[derive(Clone, Copy, Debug, PartialEq, Eq)]
pub enum WordsStop {
    /// The number of the first word that doesn't fit, from 0; 0 where there is no word.
    Usage(u32),
}

/// Reads the words: the first is the command. A command that isn't built doesn't fit. `list`, `decode` and `join` take
/// no further word, `encode` its settings and the path of its reconstructions, in any order, `make` its settings and
/// the number of pictures, `pardecode` the number of workers, `cut` its points, and `rate` the words of `encode` and a
/// budget.
pub fn read_words(words: &Words) -> Result<Command, WordsStop>
    ensures { result ≡ command_read words.now }
{
    let Some((first, others)) = words.list.split_first() else {
        return Err(WordsStop::Usage(0));
    };
    if first.as_str() == "list" {
        alone(Command::List, others)
    } else if first.as_str() == "decode" {
        alone(Command::Decode, others)
    } else if first.as_str() == "encode" {
        encode(others)
    } else if first.as_str() == "make" {
        make(others)
    } else if first.as_str() == "pardecode" {
        pardecode(others)
    } else if first.as_str() == "cut" {
        cut(others)
    } else if first.as_str() == "rate" {
        rate(others)
    } else if first.as_str() == "join" {
        alone(Command::Join, others)
    } else {
        Err(WordsStop::Usage(0))
    }
}

// A command that takes no further word.
fn alone(command: Command, others: &[String]) -> Result<Command, WordsStop>
    ensures { result ≡ command_alone command (map string_bytes others.now) }
{
    if others.is_empty() {
        Ok(command)
    } else {
        Err(WordsStop::Usage(1))
    }
}

// `encode` with the settings that these words say.
fn encode(others: &[String]) -> Result<Command, WordsStop>
    ensures { result ≡ encode_read (map string_bytes others.now) }
{
    match first_unfit(OptionsOf::Encode, others) {
        None => Ok(Command::Encode(settings_given(others))),
        Some(number) => Err(WordsStop::Usage(number)),
    }
}

// `make` with the settings and the number of pictures that these words say.
fn make(others: &[String]) -> Result<Command, WordsStop>
    ensures { result ≡ make_read (map string_bytes others.now) }
{
    match first_unfit(OptionsOf::Make, others) {
        None => Ok(Command::Make(settings_given(others), count_given(others))),
        Some(number) => Err(WordsStop::Usage(number)),
    }
}

// `pardecode` with the number of workers that these words say.
fn pardecode(others: &[String]) -> Result<Command, WordsStop>
    ensures { result ≡ pardecode_read (map string_bytes others.now) }
{
    match first_unfit(OptionsOf::Pardecode, others) {
        None => Ok(Command::Pardecode(workers_given(others))),
        Some(number) => Err(WordsStop::Usage(number)),
    }
}

// `rate` with the settings and the budget that these words say.
fn rate(others: &[String]) -> Result<Command, WordsStop>
    ensures { result ≡ rate_read (map string_bytes others.now) }
{
    match first_unfit(OptionsOf::Rate, others) {
        None => Ok(Command::Rate(settings_given(others), budget_given(others))),
        Some(number) => Err(WordsStop::Usage(number)),
    }
}

// `cut` with the points that these words say, each of which is said at most once.
fn cut(others: &[String]) -> Result<Command, WordsStop>
    ensures { result ≡ cut_read (map string_bytes others.now) }
{
    let mut number = 1;
    let mut points = Points::none();
    'words: for word in others {
        let Some(next) = points.with(word.as_str()) else {
            return Err(WordsStop::Usage(number));
        };
        points = next;
        number += 1;
    }
    Ok(Command::Cut(points.from.unwrap_or(0), points.to))
}

/// Whether the words fit a command that tells reconstructions beside what comes out: `encode` or `rate`.
pub fn tells_reconstructions(words: &Words) -> bool
    ensures { result ≡ is_telling (command_read words.now) }
{
    matches!(
        read_words(words),
        Ok(Command::Encode(_) | Command::Rate(_, _))
    )
}

/// The path of the reconstructions, where the words fit `encode` or `rate`, give one, and the settings and the budget
/// are accepted.
#[tactic(auto, unfolding(crate::specs::Words::path_read))]
pub fn recon_path(words: &Words) -> Option<&str>
    ensures { option_copied result ≡ path_read words.now }
{
    let (_, others) = words.list.split_first()?;
    match read_words(words) {
        Ok(Command::Encode(settings)) => accepted_path(settings.check(), others),
        Ok(Command::Rate(settings, budget)) => accepted_path(check_rate(&settings, budget), others),
        Ok(Command::List) => None,
        Ok(Command::Decode) => None,
        Ok(Command::Make(_, _)) => None,
        Ok(Command::Pardecode(_)) => None,
        Ok(Command::Cut(_, _)) => None,
        Ok(Command::Join) => None,
        Err(_) => None,
    }
}

// The path that these words give, where all settings are in their ranges.
fn accepted_path(checked: Result<(), BadSetting>, others: &[String]) -> Option<&str>
    ensures { (o : Option Bad) → checked ≡ verdict o
        → option_copied result ≡ path_accepted o (map string_bytes others.now) }
{
    match checked {
        Ok(()) => path_given(others),
        Err(_) => None,
    }
}
