//! The points of polygons.

ghost use Rattle.std.specs.Prelude.{◌≡◌, ◌<◌, length, All, IfOk};
ghost use Rattle.tl_check_inside.specs.Keeping.Strips.{IsSiteOf, numbers};

use std::alloc::Global;
use tl_check_inside::{Site, push_site};
use tl_map_county::Map;
use tl_tree_index::Memory;

/// A polygon with its point.
fn site_of(map: &Map, polygon: u32) -> Site
    requires { polygon < length map.now.polygons }
    ensures site { IsSiteOf map.now result }
    ensures polygon { result.polygon ≡ polygon }
{
    let point = map.polygon(polygon).point;
    Site { polygon, point }
}

/// These polygons with their points.
pub fn sites_of(alloc: Global, map: &Map, polygons: &[u32]) -> Result<Vec<Site>, Memory>
    requires { All (λ p. p < length map.now.polygons) polygons.now }
    ensures sites { IfOk result (λ sites. All (IsSiteOf map.now) sites.items) }
    ensures polygons { IfOk result (λ sites. numbers sites.items ≡ polygons.now) }
{
    let mut sites = Vec::new(alloc);
    for k in 0..polygons.len() {
        push_site(&mut sites, site_of(map, polygons[k]))?;
    }
    Ok(sites)
}
