//! The points of polygons from south to north, so that those beside each other are looked at together.

ghost use Rattle.std.specs.Prelude.{◌≡◌, ℕ, ◌<◌, ◌≤ℤ◌, pos, [], ◌∷◌, ◌++◌, length, All, Contains, IfOk, OnOk};
ghost use Rattle.std.specs.List.Sorted.{IsPermutation};
ghost use Rattle.tl_geom.specs.Rectangle.{ray_rect};
ghost use Rattle.tl_map_county.specs.Segments.{segments_before};
ghost use Rattle.tl_check_planar.specs.Rectangles.{segment_rect};
ghost use Rattle.tl_check_inside.specs.Keeping.Probing.{ChainsAreInReach};
ghost use Rattle.tl_check_inside.specs.Keeping.Strips.{IsInStrip, IsSiteOf, AreEnough, numbers};

use crate::probes::Strip;
use std::alloc::Global;
use tl_check_planar::Segments;
use tl_geom::{Point, Rect};
use tl_map_county::Map;
use tl_tree_index::{BoxIndex, Memory};

/// A polygon by its number, and its point.
#[derive(Clone, Copy)]
pub struct Site {
    pub polygon: u32,
    pub point: Point,
}

/// The points of all polygons, by the polygons' numbers.
pub fn sites_of(alloc: Global, map: &Map) -> Result<Vec<Site>, Memory>
    ensures sites { IfOk result (λ sites. All (IsSiteOf map.now) sites.items) }
    ensures whole { IfOk result (λ sites. (p : ℕ) → p < length map.now.polygons → Contains (numbers sites.items) p) }
{
    let mut sites = Vec::new(alloc);
    for polygon in 0..map.polygons() {
        let point = map.polygon(polygon).point;
        push_site(&mut sites, Site { polygon, point })?;
    }
    Ok(sites)
}

/// Adds a point to a list of some. An error says that memory was refused.
pub fn push_site(sites: &mut Vec<Site>, site: Site) -> Result<(), Memory>
    ensures { OnOk result (sites.new.items ≡ sites.old.items ++ site ∷ []) }
{
    match sites.push(site) {
        Ok(()) => Ok(()),
        Err(_) => Err(Memory),
    }
}

/// Sorts points from south to north, in place.
pub fn sort_northward(sites: &mut Vec<Site>)
    ensures moved { IsPermutation sites.old.items sites.new.items }
{
    sites.sort_unstable_by_key(|site| site.point.y);
}

/// A rectangle that holds some points and all that lies east of them.
fn strip_of(sites: &[Site]) -> Rect
    ensures { All (λ (site : Site). IsInStrip result site.point) sites.now }
{
    let mut strip = Rect::NOTHING;
    for site in sites {
        strip = strip.join(ray_of(site.point));
    }
    strip
}

/// The rectangle of the ray from a point to the east.
fn ray_of(point: Point) -> Rect
    ensures rect { result ≡ ray_rect point }
    ensures reach { point.x ≤ℤ pos 2147483647 }
{
    let Point { x, y } = point;
    Rect {
        xmin: x,
        ymin: y,
        xmax: i32::MAX,
        ymax: y,
    }
}

/// Lists what lies in the strip of some points, in the place of what was listed: each segment that holds one of them or
/// that its ray crosses, and others.
pub fn list_in_strip<X: BoxIndex>(
    map: &Map,
    index: &X,
    sites: &[Site],
    hits: &mut Vec<u32>,
) -> Result<(), Memory>
    requires fits { X.fits index.now (segments_before map.now.chains (length map.now.chains)) (segment_rect map.now.chains) }
    requires reach { ChainsAreInReach map.now.chains }
    ensures { OnOk result (All (λ (site : Site). AreEnough map.now.chains site.point hits.new.items) sites.now) }
{
    let strip = strip_of(sites);
    hits.clear();
    index.collect_hits(&Segments::new(map), &Strip(strip), hits)
}
