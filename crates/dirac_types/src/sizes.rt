//! The sizes of the pictures of settings, and of their planes.

ghost use Rattle.std.specs.Prelude.{◌≡◌};

use crate::ranges::{step_across, step_down};
use crate::settings::Settings;
use dirac_common::Component;

impl Settings {
    ghost use Rattle.dirac_types.specs.Sizes as sizes;

    /// The number of rows of a picture, in luma samples.
    pub fn picture_height(&self) -> u32
        ensures { result ≡ sizes.picture_height self.now }
    {
        if self.fields == 1 {
            self.height / 2
        } else {
            self.height
        }
    }

    /// The number of columns of a plane of a picture.
    pub fn plane_width(&self, component: Component) -> u32
        ensures { result ≡ sizes.plane_width self.now component }
    {
        match component {
            Component::Y => self.width,
            Component::U | Component::V => self.width / step_across(self.chroma),
        }
    }

    /// The number of rows of a plane of a picture.
    pub fn plane_height(&self, component: Component) -> u32
        ensures { result ≡ sizes.plane_height self.now component }
    {
        match component {
            Component::Y => self.picture_height(),
            Component::U | Component::V => self.picture_height() / step_down(self.chroma),
        }
    }
}
