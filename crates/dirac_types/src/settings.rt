ghost use Rattle.std.specs.Prelude.{◌≡◌, ◌≤◌, OnOk, OnErr};
ghost use Rattle.dirac_types.specs.Names.{setting_text};
ghost use Rattle.dirac_types.specs.Settings as settings;

use crate::ranges::{first_bad, format_of, table};
use dirac_base_formats::LAST_BASE;

/// A setting of the encoder, the count of generated pictures, or the budget of a picture's unit.
#[derive(Clone, Copy, Debug, PartialEq, Eq)]
pub enum Name {
    Base,
    Chroma,
    Width,
    Height,
    Rate,
    Signal,
    Fields,
    Profile,
    Level,
    Wavelet,
    Depth,
    Index,
    Codeblocks,
    Finer,
    Blocks,
    Precision,
    References,
    Gop,
    Between,
    Range,
    Pyramid,
    Bias,
    Workers,
    Pictures,
    UnitBytes,
    Alike,
    Count,
    Budget,
}

impl Name {
    /// The setting's word, as it stands on the command line without its dashes.
    pub fn text(self) -> &'static str
        ensures { result.now ≡ setting_text self }
    {
        match self {
            Name::Base => "base",
            Name::Chroma => "chroma",
            Name::Width => "width",
            Name::Height => "height",
            Name::Rate => "rate",
            Name::Signal => "signal",
            Name::Fields => "fields",
            Name::Profile => "profile",
            Name::Level => "level",
            Name::Wavelet => "wavelet",
            Name::Depth => "depth",
            Name::Index => "index",
            Name::Codeblocks => "codeblocks",
            Name::Finer => "finer",
            Name::Blocks => "blocks",
            Name::Precision => "precision",
            Name::References => "references",
            Name::Gop => "gop",
            Name::Between => "between",
            Name::Range => "range",
            Name::Pyramid => "pyramid",
            Name::Bias => "bias",
            Name::Workers => "workers",
            Name::Pictures => "pictures",
            Name::UnitBytes => "unit_bytes",
            Name::Alike => "alike",
            Name::Count => "count",
            Name::Budget => "budget",
        }
    }
}

/// The first setting, in the order of their table, that is out of its range.
#[derive(Clone, Copy, Debug, PartialEq, Eq)]
pub struct BadSetting {
    pub name: Name,
    pub value: u64,
}

/// What the encoder is asked for; each setting has a range, and a default that may depend on the base video format.
#[derive(Clone, Copy, Debug, PartialEq, Eq)]
pub struct Settings {
    /// The number of the base video format.
    pub base: u32,
    /// The chroma format: 0 for 4:4:4, 1 for 4:2:2, 2 for 4:2:0.
    pub chroma: u32,
    /// Luma samples across, a multiple of the chroma ratio.
    pub width: u32,
    /// Luma samples down, a multiple of the chroma ratio; with fields those of a frame, a multiple of twice the ratio.
    pub height: u32,
    /// The index of the frame rate.
    pub rate: u32,
    /// The index of the signal range.
    pub signal: u32,
    /// 1 where each picture is a field, with half the rows of a frame; else 0.
    pub fields: u32,
    /// Written into the sequence header as it is, like the level.
    pub profile: u32,
    pub level: u32,
    /// The index of the wavelet.
    pub wavelet: u32,
    /// The transform depth: how many times a plane is split into subbands.
    pub depth: u32,
    /// The quantiser index; 0 loses nothing.
    pub index: u32,
    /// The most codeblocks of a subband above the lowest, across and down.
    pub codeblocks: u32,
    /// How much lower the quantiser index of codeblocks of small coefficients is; where it is 0 all have the band's.
    pub finer: u32,
    /// The index of the block parameters.
    pub blocks: u32,
    /// How many times a luma sample is halved for motion vectors.
    pub precision: u32,
    /// The most references of a picture.
    pub references: u32,
    /// The frames of a group, of which the first is intra.
    pub gop: u32,
    /// The frames between two anchors.
    pub between: u32,
    /// How far the coarse search goes, in samples of its level.
    pub range: u32,
    /// The levels of the pyramid above the picture itself.
    pub pyramid: u32,
    /// What a bit costs, in absolute differences.
    pub bias: u32,
    /// How many workers share the work on pictures; they change no byte.
    pub workers: u32,
    /// The most pictures that are coded.
    pub pictures: u32,
    /// The longest unit of a picture, in bytes.
    pub unit_bytes: u32,
    /// 1 where the stream is for decoders that differ from the standard; else 0.
    pub alike: u32,
}

impl Settings {
    /// The defaults with this base video format.
    pub fn of_base(base: u32) -> Settings
        requires { base ≤ LAST_BASE }
        ensures { result ≡ settings.of_base base }
    {
        let format = format_of(base);
        Settings {
            base,
            chroma: format.chroma,
            width: format.width,
            height: format.height,
            rate: format.rate,
            signal: format.signal,
            fields: 0,
            profile: 0,
            level: 0,
            wavelet: 0,
            depth: 4,
            index: 12,
            codeblocks: 1,
            finer: 0,
            blocks: 2,
            precision: 2,
            references: 2,
            gop: 12,
            between: 2,
            range: 4,
            pyramid: 3,
            bias: 4,
            workers: 1,
            pictures: 2147483647,
            unit_bytes: 4294967295,
            alike: 0,
        }
    }

    /// Whether each setting is in its range. An `Err` names the first that isn't, in the order of the fields.
    pub fn check(&self) -> Result<(), BadSetting>
        ensures exact { result ≡ settings.verdict (settings.first_bad (settings.table self.now)) }
        ensures accepted { OnOk result (settings.IsAccepted self.now) }
        ensures refused { OnErr result (settings.IsAccepted self.now → ⊥) }
    {
        let rows = table(self);
        match first_bad(&rows) {
            None => Ok(()),
            Some(bad) => Err(bad),
        }
    }
}
