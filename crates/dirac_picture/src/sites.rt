ghost use Rattle.std.specs.Prelude.{◌≡◌, ◌*◌, ◌≤◌, IfOk, IfSome, None, Ok};
ghost use Rattle.dirac_common.specs.Limits.{IsDepth};
ghost use Rattle.dirac_picture.specs.Bands.{band_count};
ghost use Rattle.dirac_picture.specs.Chains.{sites_among, AreFound, AreSitesOf, AreWholePlanes, IsMissing};

use dirac_bits::BitReader;
use dirac_coeffs::{Site, find_site};
use dirac_common::{Component, NoMemory};
use dirac_header::Transform;
use std::alloc::Global;

/// The blocks of the subbands of a picture's planes, found and not yet read.
#[derive(Drop)]
pub struct FoundPlanes<'a> {
    pub y: Vec<Option<Site<'a>>>,
    pub u: Vec<Option<Site<'a>>>,
    pub v: Vec<Option<Site<'a>>>,
}

impl<'a> FoundPlanes<'a> {
    /// Lends the blocks of a plane.
    pub fn sites(&self, component: Component) -> &[Option<Site<'a>>]
        ensures { result.now ≡ sites_among self.now component }
    {
        match component {
            Component::Y => self.y.as_slice(),
            Component::U => self.u.as_slice(),
            Component::V => self.v.as_slice(),
        }
    }
}

/// Finds the blocks of a plane's subbands, and passes over them; none where one isn't found.
fn find_sites<'a>(
    alloc: Global,
    r: &mut BitReader<'a>,
    transform: &Transform,
) -> Result<Option<Vec<Option<Site<'a>>>>, NoMemory>
    requires { IsDepth transform.now.depth }
    ensures sites { IfOk result (λ o. IfSome o (λ v. AreSitesOf transform.now r.old v.items r.new)) }
    ensures none { result ≡ Ok None → IsMissing (band_count transform.now.depth) r.old }
    ensures kept { r.new.bytes ≡ r.old.bytes }
{
    let mut sites = Vec::new(alloc);
    'bands: for _n in 0..3 * u32::from(transform.depth) + 1 {
        match find_site(r) {
            Ok(site) => sites.push(site)?,
            Err(_refusal) => return Ok(None),
        }
    }
    Ok(Some(sites))
}

/// Finds the blocks of the subbands of the three planes, and passes over them; none where one isn't found. Each has its
/// length before it, so none of them is read for that.
pub fn find_planes<'a>(
    alloc: Global,
    r: &mut BitReader<'a>,
    transform: &Transform,
) -> Result<Option<FoundPlanes<'a>>, NoMemory>
    requires { IsDepth transform.now.depth }
    ensures found { IfOk result (λ o. IfSome o (λ found. AreFound transform.now r.old found r.new)) }
    ensures whole { IfOk result (λ o. IfSome o (AreWholePlanes transform.now)) }
    ensures none { result ≡ Ok None → IsMissing (3 * band_count transform.now.depth) r.old }
    ensures kept { r.new.bytes ≡ r.old.bytes }
{
    let Some(y) = find_sites(alloc, r, transform)? else {
        return Ok(None);
    };
    let Some(u) = find_sites(alloc, r, transform)? else {
        return Ok(None);
    };
    let Some(v) = find_sites(alloc, r, transform)? else {
        return Ok(None);
    };
    Ok(Some(FoundPlanes { y, u, v }))
}
