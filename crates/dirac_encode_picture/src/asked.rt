//! What the coding of a picture is asked for.

use dirac_common::Picture;
use dirac_plan::Planned;
use dirac_refs::RefBuffer;
use dirac_types::Settings;

/// What is asked to be coded: a planned picture, its source, the pictures that are listed before it, and the settings.
#[derive(Clone, Copy)]
pub struct Asked<'a> {
    pub planned: &'a Planned,
    pub source: &'a Picture,
    pub refs: &'a RefBuffer,
    pub settings: &'a Settings,
}
