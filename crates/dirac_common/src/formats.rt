ghost use Rattle.std.specs.Prelude.{◌≡◌};
ghost use Rattle.dirac_common.specs.Ratios as ratios;

/// How chroma is sampled: ratios across and down are 1 1, 2 1 and 2 2.
#[derive(Clone, Copy, Debug, PartialEq, Eq)]
pub enum Chroma {
    C444,
    C422,
    C420,
}

/// The orientation of a subband: low or high frequencies across, then down.
#[derive(Clone, Copy, Debug, PartialEq, Eq)]
pub enum Band {
    LL,
    HL,
    LH,
    HH,
}

/// A plane of a picture: luma, or one of the two of chroma.
#[derive(Clone, Copy, Debug, PartialEq, Eq)]
pub enum Component {
    Y,
    U,
    V,
}

/// Whether a picture is predicted from others.
#[derive(Clone, Copy, Debug, PartialEq, Eq)]
pub enum Kind {
    Intra,
    Inter,
}

/// A motion vector, counted in parts of a luma sample by the picture's vector precision; `x` goes right, `y` down.
#[derive(Clone, Copy, Debug, PartialEq, Eq)]
pub struct Vector {
    pub x: i32,
    pub y: i32,
}

/// The prediction units of a picture in luma samples: block lengths and block separations, across and down.
#[derive(Clone, Copy, Debug, PartialEq, Eq)]
pub struct BlockGrid {
    pub xblen: u32,
    pub yblen: u32,
    pub xbsep: u32,
    pub ybsep: u32,
}

/// How many luma samples stand side by side for one chroma sample.
pub fn ratio_across(chroma: Chroma) -> u32
    ensures { result ≡ ratios.ratio_across chroma }
{
    match chroma {
        Chroma::C444 => 1,
        Chroma::C422 | Chroma::C420 => 2,
    }
}

/// How many luma samples stand one below the other for one chroma sample.
pub fn ratio_down(chroma: Chroma) -> u32
    ensures { result ≡ ratios.ratio_down chroma }
{
    match chroma {
        Chroma::C444 | Chroma::C422 => 1,
        Chroma::C420 => 2,
    }
}
