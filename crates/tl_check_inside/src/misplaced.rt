//! Polygons' points that don't lie where they have to.

ghost use Rattle.std.specs.Prelude.{◌≡◌, ℕ, ◌<◌, true, Some, length, slice_get, All, IfOk, OnOk, MatchOption};
ghost use Rattle.tl_map_county.specs.Segments.{segments_before};
ghost use Rattle.tl_check_planar.specs.Rectangles.{segment_rect};
ghost use Rattle.tl_check_inside.specs.Placed.{IsPlacedIn, ArePlaced, IsTrueMisplaced};
ghost use Rattle.tl_check_inside.specs.Inside.{is_polygon};
ghost use Rattle.tl_check_inside.specs.Places.{IsHeldBy, IsOffChains};
ghost use Rattle.tl_check_inside.specs.Keeping.Probing.{ChainsAreInReach};
ghost use Rattle.tl_check_inside.specs.Keeping.Strips.{IsSiteOf, IsPlacedSite, AreEnough};
ghost use Rattle.tl_check_inside.specs.Keeping.Tallies.{AreTallies, TellCounts, AreNone, AreClear, IsEven, IsOdd};

use crate::flanks::Flanks;
use crate::reach::has_points_in_reach;
use crate::sifting::sift;
use crate::strips::{Site, list_in_strip, sites_of, sort_northward};
use crate::tallies::{no_counts, take_back, tally};
use std::alloc::Global;
use tl_map_county::{Map, Polygon, Side};
use tl_record_key::PolyKey;
use tl_tree_index::{BoxIndex, Memory};

/// What is wrong with where a polygon's point lies. Polygons are told by their keys, chains by their TLID.
#[derive(Clone, Copy, Debug, PartialEq, Eq)]
pub enum Misplaced {
    /// The point lies on the chain.
    OnChain { polygon: PolyKey, tlid: u64 },
    /// The polygon's count at its point isn't 1.
    Outside { polygon: PolyKey },
    /// The count of the other polygon at the point isn't 0.
    InOther { polygon: PolyKey, other: PolyKey },
}

/// How many points are looked at together.
const TOGETHER: usize = 16;

/// Looks for a polygon whose point is on a chain, isn't inside its polygon or isn't clear of another, by any index that
/// fits the map's segments.
pub fn find_misplaced<X: BoxIndex>(
    alloc: Global,
    map: &Map,
    index: &X,
) -> Result<Option<Misplaced>, Memory>
    requires fits { X.fits index.now (segments_before map.now.chains (length map.now.chains)) (segment_rect map.now.chains) }
    // `None` is answered only where the point of each polygon is on no chain, inside its own polygon and clear of every
    // other; what is found is true.
    ensures { IfOk result (λ found. MatchOption found (ArePlaced map.now) (IsTrueMisplaced map.now)) }
{
    let mut sites = sites_of(alloc, map)?;
    find_among(alloc, map, index, &mut sites)
}

/// Looks at the points of some polygons, which are sorted from south to north. Those beside each other are looked at
/// together, by one search for what lies east of them. Memory is taken for all points at once.
pub fn find_among<X: BoxIndex>(
    alloc: Global,
    map: &Map,
    index: &X,
    sites: &mut Vec<Site>,
) -> Result<Option<Misplaced>, Memory>
    requires fits { X.fits index.now (segments_before map.now.chains (length map.now.chains)) (segment_rect map.now.chains) }
    requires sites { All (IsSiteOf map.now) sites.old.items }
    // `None` is answered only where each of these points is on no chain, inside its own polygon and clear of every
    // other; what is found is true.
    ensures { IfOk result (λ found. MatchOption found (All (IsPlacedSite map.now) sites.old.items) (IsTrueMisplaced map.now)) }
{
    has_points_in_reach(map);
    sort_northward(sites);
    let polygons = map.polygons() as usize;
    let mut near = no_counts(alloc, polygons)?;
    let mut far = no_counts(alloc, polygons)?;
    let mut hits = Vec::new(alloc);
    let mut crossed = Vec::new(alloc);
    find_in_order(
        map,
        index,
        sites,
        &mut hits,
        &mut crossed,
        &mut near,
        &mut far,
    )
}

/// Looks at these points in their order, where nothing is counted yet.
fn find_in_order<X: BoxIndex>(
    map: &Map,
    index: &X,
    sites: &[Site],
    hits: &mut Vec<u32>,
    crossed: &mut Vec<Flanks>,
    near: &mut [u64],
    far: &mut [u64],
) -> Result<Option<Misplaced>, Memory>
    requires fits { X.fits index.now (segments_before map.now.chains (length map.now.chains)) (segment_rect map.now.chains) }
    requires reach { ChainsAreInReach map.now.chains }
    requires sites { All (IsSiteOf map.now) sites.now }
    requires clear { AreClear (length map.now.polygons) near.old far.old }
    ensures { IfOk result (λ found. MatchOption found (All (IsPlacedSite map.now) sites.now) (IsTrueMisplaced map.now)) }
{
    for batch in 0..sites.len().div_ceil(TOGETHER) {
        let start = batch * TOGETHER;
        let end = sites.len().min(start + TOGETHER);
        match find_beside(map, index, &sites[start..end], hits, crossed, near, far)? {
            Some(found) => return Ok(Some(found)),
            None => {}
        }
    }
    Ok(None)
}

/// Looks at some points, by one search for what lies in their strip.
fn find_beside<X: BoxIndex>(
    map: &Map,
    index: &X,
    sites: &[Site],
    hits: &mut Vec<u32>,
    crossed: &mut Vec<Flanks>,
    near: &mut [u64],
    far: &mut [u64],
) -> Result<Option<Misplaced>, Memory>
    requires fits { X.fits index.now (segments_before map.now.chains (length map.now.chains)) (segment_rect map.now.chains) }
    requires reach { ChainsAreInReach map.now.chains }
    requires sites { All (IsSiteOf map.now) sites.now }
    requires clear { AreClear (length map.now.polygons) near.old far.old }
    ensures found { IfOk result (λ found.
        MatchOption found (All (IsPlacedSite map.now) sites.now) (IsTrueMisplaced map.now)) }
    ensures clear { OnOk result (AreClear (length map.now.polygons) near.new far.new) }
{
    list_in_strip(map, index, sites, hits)?;
    for k in 0..sites.len() {
        match misplaced_at(map, sites[k], hits, crossed, near, far)? {
            Some(found) => return Ok(Some(found)),
            None => {}
        }
    }
    Ok(None)
}

/// What is wrong with a polygon's point, by what lies in its strip. What is counted on the way is taken back.
fn misplaced_at(
    map: &Map,
    site: Site,
    hits: &[u32],
    crossed: &mut Vec<Flanks>,
    near: &mut [u64],
    far: &mut [u64],
) -> Result<Option<Misplaced>, Memory>
    requires is { IsSiteOf map.now site }
    requires enough { AreEnough map.now.chains site.point hits.now }
    requires clear { AreClear (length map.now.polygons) near.old far.old }
    ensures found { IfOk result (λ found.
        MatchOption found (IsPlacedSite map.now site) (IsTrueMisplaced map.now)) }
    ensures clear { OnOk result (AreClear (length map.now.polygons) near.new far.new) }
{
    let polygon = map.polygon(site.polygon);
    match sift(map, hits, polygon.point, crossed)? {
        Some(c) => Ok(Some(on_chain(map, polygon, c))),
        None => Ok(misplaced_by(map, site.polygon, polygon, crossed, near, far)),
    }
}

/// That the point of a polygon lies on the chain of this number.
pub fn on_chain(map: &Map, polygon: Polygon, c: u32) -> Misplaced
    requires { IsHeldBy map.now.chains polygon.point c }
    ensures { (p : ℕ) → slice_get map.now.polygons p ≡ Some polygon → IsTrueMisplaced map.now result }
{
    Misplaced::OnChain {
        polygon: polygon.key,
        tlid: map.chain(c).tlid,
    }
}

/// What is wrong with where the point of polygon `p` lies, which is on no chain, by flanks that tell the counts there.
/// Nothing is counted before it, and what it counts is taken back.
pub fn misplaced_by(
    map: &Map,
    p: u32,
    polygon: Polygon,
    crossed: &[Flanks],
    near: &mut [u64],
    far: &mut [u64],
) -> Option<Misplaced>
    requires is { slice_get map.now.polygons p ≡ Some polygon }
    requires off { IsOffChains map.now.chains polygon.point }
    requires tell { TellCounts map.now.chains polygon.point crossed.now }
    requires nears { length near.old ≡ length map.now.polygons }
    requires fars { length far.old ≡ length map.now.polygons }
    requires no_near { AreNone near.old }
    requires no_far { AreNone far.old }
    ensures found { MatchOption result (IsPlacedIn map.now polygon.point p) (IsTrueMisplaced map.now) }
    ensures nears { length near.new ≡ length near.old }
    ensures fars { length far.new ≡ length far.old }
    ensures no_near { AreNone near.new }
    ensures no_far { AreNone far.new }
{
    tally(crossed, near, far);
    let found = misplaced_at_counts(map, p, polygon, crossed, near, far);
    take_back(crossed, near, far);
    found
}

/// The same by the counts of the sides.
fn misplaced_at_counts(
    map: &Map,
    p: u32,
    polygon: Polygon,
    crossed: &[Flanks],
    near: &[u64],
    far: &[u64],
) -> Option<Misplaced>
    requires is { slice_get map.now.polygons p ≡ Some polygon }
    requires off { IsOffChains map.now.chains polygon.point }
    requires tell { TellCounts map.now.chains polygon.point crossed.now }
    requires nears { length near.now ≡ length map.now.polygons }
    requires fars { length far.now ≡ length map.now.polygons }
    requires tallies { AreTallies crossed.now near.now far.now }
    ensures { MatchOption result (IsPlacedIn map.now polygon.point p) (IsTrueMisplaced map.now) }
{
    let own = p as usize;
    if near[own] != far[own] + 1 {
        return Some(Misplaced::Outside {
            polygon: polygon.key,
        });
    }
    match find_odd(p, crossed, near, far) {
        Some(q) => Some(Misplaced::InOther {
            polygon: polygon.key,
            other: map.polygon(q).key,
        }),
        None => None,
    }
}

/// A polygon beside the one of this number that is near and far not equally often, by these flanks.
fn find_odd(own: u32, crossed: &[Flanks], near: &[u64], far: &[u64]) -> Option<u32>
    requires alike { length far.now ≡ length near.now }
    requires tallies { AreTallies crossed.now near.now far.now }
    ensures { MatchOption result ((q : ℕ) → IsEven near.now far.now own q) (IsOdd near.now far.now own) }
{
    for place in 0..crossed.len() {
        let flanks = crossed[place];
        match odd_side(own, flanks.near, near, far) {
            Some(q) => return Some(q),
            None => {}
        }
        match odd_side(own, flanks.far, near, far) {
            Some(q) => return Some(q),
            None => {}
        }
    }
    None
}

/// The polygon on the side, if it is another than the one of this number, and near and far not equally often.
fn odd_side(own: u32, side: Side, near: &[u64], far: &[u64]) -> Option<u32>
    requires alike { length far.now ≡ length near.now }
    ensures { MatchOption result ((q : ℕ) → is_polygon q side ≡ true → IsEven near.now far.now own q)
        (IsOdd near.now far.now own) }
{
    let Side::Polygon(q) = side else { return None };
    let place = q as usize;
    if q != own && place < near.len() && near[place] != far[place] {
        Some(q)
    } else {
        None
    }
}
