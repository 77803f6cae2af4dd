//! Points of polygons at which the counts of all polygons become known in one sweep.

ghost use Rattle.std.specs.Prelude.{◌≡◌, [], length, All, IfOk, OnOk, MatchOption};
ghost use Rattle.tl_check_inside.specs.Placed.{IsTrueMisplaced};
ghost use Rattle.tl_check_inside.specs.Places.{IsOffChains};
ghost use Rattle.tl_check_inside.specs.Keeping.Strips.{IsSiteOf, IsPlacedSite};
ghost use Rattle.tl_check_inside.specs.Keeping.Tallies.{AreClear, TellCounts};
ghost use Rattle.tl_check_points.specs.Counts.{AreCountsAt};
ghost use Rattle.tl_check_points.specs.Keeping.Left.{AreLeft};

use crate::counts::{PointCounts, count_at};
use std::alloc::Global;
use tl_check_inside::{Flanks, Misplaced, Site, misplaced_by, no_counts, push_site};
use tl_map_county::Map;
use tl_tree_index::Memory;

/// What is wrong with one of these points whose counts become known in one sweep, if anything is. The others are listed, where none is
/// listed yet.
pub fn find_by_counts(
    alloc: Global,
    map: &Map,
    sites: &[Site],
    others: &mut Vec<Site>,
) -> Result<Option<Misplaced>, Memory>
    requires sites { All (IsSiteOf map.now) sites.now }
    requires none { others.old.items ≡ [] }
    ensures found { IfOk result (λ found. MatchOption found (AreLeft map.now sites.now others.new.items) (IsTrueMisplaced map.now)) }
    ensures others { OnOk result (All (IsSiteOf map.now) others.new.items) }
{
    let Ok(counts) = count_at(alloc, map, sites) else {
        return Err(Memory);
    };
    let polygons = map.polygons() as usize;
    let mut near = no_counts(alloc, polygons)?;
    let mut far = no_counts(alloc, polygons)?;
    find_known(map, sites, &counts, others, &mut near, &mut far)
}

/// The same with what is known, and counts of each polygon that are 0.
fn find_known(
    map: &Map,
    sites: &[Site],
    counts: &PointCounts,
    others: &mut Vec<Site>,
    near: &mut [u64],
    far: &mut [u64],
) -> Result<Option<Misplaced>, Memory>
    requires sites { All (IsSiteOf map.now) sites.now }
    requires long { length counts.now ≡ length sites.now }
    requires counts { AreCountsAt map.now.chains sites.now counts.now }
    requires none { others.old.items ≡ [] }
    requires clear { AreClear (length map.now.polygons) near.old far.old }
    ensures found { IfOk result (λ found. MatchOption found (AreLeft map.now sites.now others.new.items) (IsTrueMisplaced map.now)) }
    ensures others { OnOk result (All (IsSiteOf map.now) others.new.items) }
{
    for place in 0..sites.len() {
        let site = sites[place];
        match counts.at(place) {
            Some(flanks) => match misplaced_at(map, site, flanks, near, far) {
                Some(found) => return Ok(Some(found)),
                None => {}
            },
            None => push_site(others, site)?,
        }
    }
    Ok(None)
}

/// What is wrong with the point of a polygon, by flanks that tell the counts there. What is counted on the way is taken back.
fn misplaced_at(
    map: &Map,
    site: Site,
    flanks: &[Flanks],
    near: &mut [u64],
    far: &mut [u64],
) -> Option<Misplaced>
    requires is { IsSiteOf map.now site }
    requires off { IsOffChains map.now.chains site.point }
    requires tell { TellCounts map.now.chains site.point flanks.now }
    requires clear { AreClear (length map.now.polygons) near.old far.old }
    ensures found { MatchOption result (IsPlacedSite map.now site) (IsTrueMisplaced map.now) }
    ensures clear { AreClear (length map.now.polygons) near.new far.new }
{
    misplaced_by(
        map,
        site.polygon,
        map.polygon(site.polygon),
        flanks,
        near,
        far,
    )
}
