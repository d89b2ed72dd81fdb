//! Whether what was coded is what is asked for.

ghost use Rattle.std.specs.Prelude.{◌≡◌, ◌<◌, ℕ, pos, true, length, slice_index_or};

use dirac_common::{Picture, Plane};
use dirac_plan::Planned;
use dirac_types::Settings;

/// Both settings are the same.
pub(crate) fn are_same_settings(ours: &Settings, theirs: &Settings) -> bool
    ensures { result ≡ true → ours.now ≡ theirs.now }
{
    *ours == *theirs
}

/// Both are planned alike.
pub(crate) fn are_planned_alike(ours: &Planned, theirs: &Planned) -> bool
    ensures { result ≡ true → ours.now ≡ theirs.now }
{
    *ours == *theirs
}

/// As many samples are the same. None ends the loop, so that several are compared at once.
fn agree(ours: &[i16], theirs: &[i16]) -> bool
    requires { length theirs.now ≡ length ours.now }
    ensures { result ≡ true → (k : ℕ) → k < length ours.now
        → slice_index_or ours.now k (pos 0) ≡ slice_index_or theirs.now k (pos 0) }
{
    let mut same = true;
    for i in 0..ours.len() {
        same &= ours[i] == theirs[i];
    }
    same
}

/// Both have the same samples.
fn are_same_samples(ours: &[i16], theirs: &[i16]) -> bool
    ensures { result ≡ true → ours.now ≡ theirs.now }
{
    if ours.len() != theirs.len() {
        return false;
    }
    agree(ours, theirs)
}

/// Both planes have the same sizes and samples.
#[tactic(auto, using(crate::proofs::Equal::same_plane))]
fn are_same_planes(ours: &Plane, theirs: &Plane) -> bool
    ensures { result ≡ true → ours.now ≡ theirs.now }
{
    if ours.width() != theirs.width() || ours.height() != theirs.height() {
        return false;
    }
    are_same_samples(ours.values(), theirs.values())
}

/// Both pictures have the same number and the same planes.
#[tactic(auto, using(crate::proofs::Equal::same_picture))]
pub(crate) fn are_same_pictures(ours: &Picture, theirs: &Picture) -> bool
    ensures { result ≡ true → ours.now ≡ theirs.now }
{
    ours.number == theirs.number
        && are_same_planes(&ours.y, &theirs.y)
        && are_same_planes(&ours.u, &theirs.u)
        && are_same_planes(&ours.v, &theirs.v)
}
