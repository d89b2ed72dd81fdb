ghost use Rattle.std.specs.Prelude.{◌≡◌, ◌+◌, ◌≤◌, IfOk};
ghost use Rattle.std.specs.Thread.{IsSync};
ghost use Rattle.dirac_types.specs.Settings.{IsAccepted};
ghost use Rattle.dirac_sequence.specs.Written.{sequence_of as the_sequence};
ghost use Rattle.dirac_motion.specs.Lent.{IsReference};
ghost use Rattle.dirac_motion.specs.Searching.{AreSearchedIn, IsFoundIn, IsSearchedFor};

use crate::lent::Reference;
use dirac_common::{NoMemory, Picture, RowGate};
use dirac_header::block_grid;
use dirac_picture::superblocks_over;
use dirac_pyramid::Pyramid;
use dirac_search::{Field, Search, search_field};
use dirac_sequence::sequence_of;
use dirac_types::Settings;
use std::alloc::Global;
use std::marker::Sync;
use std::thread::{Threads, join};

/// A picture whose blocks are searched for in its references, and the pyramid of its luma.
#[derive(Clone, Copy)]
pub struct SearchedFor<'a> {
    pub picture: &'a Picture,
    pub pyramid: &'a Pyramid,
}

/// The vectors of a picture's blocks in each of its two references.
#[derive(Drop)]
pub struct TwoFields {
    pub first: Field,
    pub second: Field,
}

/// The vectors of a picture's blocks in a reference, searched by so many workers, whatever the settings' own number is.
pub fn vectors_in<R: Threads + Sync, G: RowGate>(
    rt: &R,
    alloc: Global,
    source: SearchedFor<'_>,
    reference: Reference<'_>,
    settings: &Settings,
    workers: u32,
    gate: &G,
) -> Result<Field, NoMemory>
    requires settings { IsAccepted settings.now }
    requires workers { (1 ≤ workers) × (workers ≤ 64) }
    requires source { IsSearchedFor settings.now source }
    requires reference { IsReference (the_sequence settings.now) reference }
    ensures { IfOk result (IsFoundIn settings.now source.entry.picture.now reference.entry) }
{
    let sequence = sequence_of(settings);
    let grid = block_grid(u64::from(settings.blocks));
    let listed = reference.picture.picture();
    let other = Pyramid::build(alloc, &listed.y, settings.pyramid as u8)?;
    let search = Search {
        source: source.pyramid,
        reference: &other,
        up: reference.luma,
        grid,
        across: superblocks_over(sequence.width, grid.xbsep),
        down: superblocks_over(sequence.picture_height(), grid.ybsep),
    };
    let by_workers = Settings {
        workers,
        ..*settings
    };
    let field = search_field(rt, alloc, &search, &by_workers, gate)?;
    Ok(field)
}

/// A picture that is searched for in two references.
#[derive(Clone, Copy)]
pub struct SearchedInTwo<'a> {
    pub source: SearchedFor<'a>,
    pub first: Reference<'a>,
    pub second: Reference<'a>,
    pub settings: &'a Settings,
}

/// How many workers search each of two references.
#[derive(Clone, Copy)]
struct Shares {
    first: u32,
    second: u32,
}

/// Half of the workers for each; the first gets the one that is left over.
fn halved(settings: &Settings) -> Shares
    requires settings { IsAccepted settings.now }
    requires at_least_2 { 2 ≤ settings.now.workers }
    ensures all { result.first + result.second ≡ settings.now.workers }
    ensures first { (1 ≤ result.first) × (result.first ≤ 64) }
    ensures second { (1 ≤ result.second) × (result.second ≤ 64) }
{
    let second = settings.workers / 2;
    Shares {
        first: settings.workers - second,
        second,
    }
}

/// The vectors of a picture's blocks in two references, which are searched side by side, each by half of the workers.
fn vectors_side_by_side<R: Threads + Sync, G: RowGate>(
    rt: &R,
    alloc: Global,
    searched: SearchedInTwo<'_>,
    gate: &G,
) -> Result<TwoFields, NoMemory>
    requires searched { AreSearchedIn searched }
    requires at_least_2 { 2 ≤ searched.settings.now.workers }
    ensures first { IfOk result (λ fs. IsFoundIn searched.entry.settings.now searched.entry.source.picture.now
        searched.entry.first fs.first) }
    ensures second { IfOk result (λ fs. IsFoundIn searched.entry.settings.now searched.entry.source.picture.now
        searched.entry.second fs.second) }
{
    // Each closure borrows what these hold: of a borrowed struct of borrows `join` passes nothing on.
    let settings = searched.settings;
    let shares = halved(settings);
    let SearchedFor { picture, pyramid } = searched.source;
    let (listed1, luma1) = (searched.first.picture, searched.first.luma);
    let (listed2, luma2) = (searched.second.picture, searched.second.luma);
    let (second, first) = join(
        rt,
        || -> Result<Field, NoMemory>
            requires { IsSync R.row × IsSync G.row × IsAccepted settings.now
                × (1 ≤ shares.second) × (shares.second ≤ 64)
                × IsSearchedFor settings.now (record { picture = picture; pyramid = pyramid })
                × IsReference (the_sequence settings.now) (record { picture = listed2; luma = luma2 }) }
            ensures { IfOk result (IsFoundIn settings.entry.now picture.entry.now
                (record { picture = listed2.entry; luma = luma2.entry })) }
        {
            let source = SearchedFor { picture, pyramid };
            let reference = Reference {
                picture: listed2,
                luma: luma2,
            };
            vectors_in(rt, alloc, source, reference, settings, shares.second, gate)
        },
        || -> Result<Field, NoMemory>
            requires { IsSync R.row × IsSync G.row × IsAccepted settings.now
                × (1 ≤ shares.first) × (shares.first ≤ 64)
                × IsSearchedFor settings.now (record { picture = picture; pyramid = pyramid })
                × IsReference (the_sequence settings.now) (record { picture = listed1; luma = luma1 }) }
            ensures { IfOk result (IsFoundIn settings.entry.now picture.entry.now
                (record { picture = listed1.entry; luma = luma1.entry })) }
        {
            let source = SearchedFor { picture, pyramid };
            let reference = Reference {
                picture: listed1,
                luma: luma1,
            };
            vectors_in(rt, alloc, source, reference, settings, shares.first, gate)
        },
    );
    let first = first?;
    let second = second?;
    Ok(TwoFields { first, second })
}

/// The fewest workers by whom two references are searched side by side: two for each, so that a gate that holds a row
/// sees another one of its reference come.
const FEWEST_SIDE_BY_SIDE: u32 = 4;

/// The vectors of a picture's blocks in two references: side by side by four workers or more, one after the other by
/// fewer.
pub fn vectors_in_both<R: Threads + Sync, G: RowGate>(
    rt: &R,
    alloc: Global,
    searched: SearchedInTwo<'_>,
    gate: &G,
) -> Result<TwoFields, NoMemory>
    requires { AreSearchedIn searched }
    ensures first { IfOk result (λ fs. IsFoundIn searched.entry.settings.now searched.entry.source.picture.now
        searched.entry.first fs.first) }
    ensures second { IfOk result (λ fs. IsFoundIn searched.entry.settings.now searched.entry.source.picture.now
        searched.entry.second fs.second) }
{
    let SearchedInTwo {
        source,
        first,
        second,
        settings,
    } = searched;
    let workers = settings.workers;
    if workers >= FEWEST_SIDE_BY_SIDE {
        return vectors_side_by_side(rt, alloc, searched, gate);
    }
    let first = vectors_in(rt, alloc, source, first, settings, workers, gate)?;
    let second = vectors_in(rt, alloc, source, second, settings, workers, gate)?;
    Ok(TwoFields { first, second })
}
