ghost use Rattle.std.specs.Prelude.{◌≡◌, ◌*◌, ◌/◌, ◌≤◌};
ghost use Rattle.dirac_slices.specs.Places as places;

use dirac_common::Component;

/// The plane of this number.
pub(crate) fn component_at(plane: u32) -> Component
    ensures { result ≡ places.component_at plane }
{
    match plane {
        0 => Component::Y,
        1 => Component::U,
        _ => Component::V,
    }
}

/// The first row of the part of this number where that many rows are cut in `all` parts; the row behind the last part
/// where there is no such part.
pub(crate) fn first_row(height: u32, all: u32, part: u32) -> u32
    requires height { height ≤ 4096 }
    requires all { (1 ≤ all) × (all ≤ 64) }
    requires part { part ≤ all }
    ensures value { result ≡ places.first_row height all part }
    ensures inside { result ≤ height }
{
    let scaled = height * part;
    scaled / all
}
