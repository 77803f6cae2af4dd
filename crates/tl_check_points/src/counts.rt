//! The counts of all polygons at many points.
ghost use Rattle.std.specs.Prelude.{◌≡◌, [], All, IfOk, OnOk, length};
ghost use Rattle.tl_check_inside.specs.Keeping.Tallies.{AreClear};
ghost use Rattle.tl_check_points.specs.Counts.{AreCountsAt};
ghost use Rattle.tl_check_points.specs.Keeping.Visits.{IsVisit};

use crate::labels::Gap;
use crate::order::sort_along;
use crate::rising::are_rising;
use crate::short::shorten;
use crate::sweeping::{Visited, sweep};
use crate::visits::Visit;
use crate::ways::go;
use std::alloc::{AllocError, Global};
use std::marker::Model;
use tl_check_active::Events;
use tl_check_inside::{Flanks, Site};
use tl_map_county::Map;

/// So few points take no sweep: as many rays take fewer passes over the map.
const FEW: usize = 16;

/// So many flanks are kept for each gap and each point, all points together. As a rule a point has fewer; where most rings name polygons
/// that lie elsewhere, lists are as long as there are rings about a point.
const FLANKS_EACH: usize = 64;

/// A part of a list, from one place up to another.
#[derive(Clone, Copy)]
struct Part {
    from: usize,
    to: usize,
}

/// What is known of the counts of polygons at points, by the places of the points in their list: flanks that tell them, in which no polygon
/// is near as well as far.
#[derive(Drop)]
pub struct PointCounts {
    /// All such flanks, one list behind the other.
    flanks: Vec<Flanks>,
    /// Those of each point, if they are known.
    parts: Vec<Option<Part>>,
}

impl Model for PointCounts {
    ghost use Rattle.std.specs.Prelude.{List, Option, All, length};
    ghost use Rattle.tl_check_inside.specs.declared.flanks.Flanks.{Flanks as TheFlanks};
    ghost use Rattle.tl_check_points.specs.Keeping.Parts.{lists_in, IsPartOf};

    ghost Value = { List (Option (List TheFlanks)) };

    ghost view = { λ counts. lists_in counts.flanks.items counts.parts.items };

    ghost invariant = { λ counts. All (IsPartOf (length counts.flanks.items)) counts.parts.items };
}

impl PointCounts {
    ghost use Rattle.std.specs.Prelude.{◌≡◌, ◌<◌, Some, None, All, OnOk, IfOk, MatchOption, length, slice_get, slice_set};

    /// Nothing is known of so many points.
    pub fn new(alloc: Global, points: usize) -> Result<PointCounts, AllocError>
        ensures long { IfOk result (λ counts. length counts ≡ points) }
        ensures none { IfOk result (λ counts. All (λ known. known ≡ None) counts) }
    {
        let parts = vec![in alloc; None; points]?;
        Ok(PointCounts {
            flanks: Vec::new(alloc),
            parts,
        })
    }

    /// The flanks that tell the counts of polygons at the point at a place, if they are known. There are no more of them than the counts
    /// of all polygons together.
    pub fn at(&self, place: usize) -> Option<&[Flanks]>
        requires { place < length self.now }
        ensures { MatchOption result (slice_get self.now place ≡ Some None)
            (λ flanks. slice_get self.now place ≡ Some (Some flanks.now)) }
    {
        let part = self.parts[place]?;
        Some(&self.flanks[part.from..part.to])
    }

    /// Keeps flanks that tell those of the point at a place. The error is that memory was refused.
    pub fn keep(&mut self, place: usize, flanks: &[Flanks]) -> Result<(), AllocError>
        requires { place < length self.old }
        ensures { OnOk result (self.new ≡ slice_set self.old place (Some flanks.now)) }
    {
        let from = self.flanks.len();
        self.flanks.extend_from_slice(flanks)?;
        let to = self.flanks.len();
        self.parts[place] = Some(Part { from, to });
        Ok(())
    }
}

/// The counts of all polygons at these points, where they become known in one sweep over the map and one walk from gap to gap. As a rule
/// all points are known that are on no chain and at the height of no chain's point, where segments don't meet but at ends. Of a few points
/// nothing is known: no sweep is made for them. Nor is anything known of the rest where lists have become long. The error is that memory was
/// refused.
pub fn count_at(alloc: Global, map: &Map, sites: &[Site]) -> Result<PointCounts, AllocError>
    ensures long { IfOk result (λ counts. length counts ≡ length sites.now) }
    // Where flanks are known of a point, it is on no chain, and they tell the counts of all sides there.
    ensures counts { IfOk result (AreCountsAt map.now.chains sites.now) }
{
    let mut counts = PointCounts::new(alloc, sites.len())?;
    if sites.len() <= FEW {
        return Ok(counts);
    }
    let mut events = Events::new(alloc, map)?;
    events.sort(alloc)?;
    if !are_rising(&events) {
        return Ok(counts);
    }
    let Visited {
        labels,
        mut visits,
        ..
    } = sweep(alloc, map, &events, sites)?;
    sort_along(alloc, &labels.gaps, &mut visits)?;
    visit_all(alloc, map, sites, &labels.gaps, &visits, &mut counts)?;
    Ok(counts)
}

/// Goes from point to point, and keeps the flanks that tell the counts at each.
fn visit_all(
    alloc: Global,
    map: &Map,
    sites: &[Site],
    gaps: &[Gap],
    visits: &[Visit],
    counts: &mut PointCounts,
) -> Result<(), AllocError>
    requires visits { All (IsVisit (length map.now.polygons) map.now.chains sites.now gaps.now) visits.now }
    requires long { length counts.old ≡ length sites.now }
    requires counts { AreCountsAt map.now.chains sites.now counts.old }
    ensures long { OnOk result (length counts.new ≡ length sites.now) }
    ensures counts { OnOk result (AreCountsAt map.now.chains sites.now counts.new) }
{
    let polygons = map.polygons() as usize;
    let mut near = vec![in alloc; 0u64; polygons]?;
    let mut far = vec![in alloc; 0u64; polygons]?;
    let mut journal = Vec::new(alloc);
    let mut short = Vec::new(alloc);
    visit_each(
        map,
        sites,
        gaps,
        visits,
        &mut journal,
        &mut short,
        &mut near,
        &mut far,
        counts,
    )
}

/// Does so with counts of each polygon that are 0, and lists of flanks of which the first is empty.
fn visit_each(
    map: &Map,
    sites: &[Site],
    gaps: &[Gap],
    visits: &[Visit],
    journal: &mut Vec<Flanks>,
    short: &mut Vec<Flanks>,
    near: &mut [u64],
    far: &mut [u64],
    counts: &mut PointCounts,
) -> Result<(), AllocError>
    requires visits { All (IsVisit (length map.now.polygons) map.now.chains sites.now gaps.now) visits.now }
    requires none { journal.old.items ≡ [] }
    requires clear { AreClear (length map.now.polygons) near.old far.old }
    requires long { length counts.old ≡ length sites.now }
    requires counts { AreCountsAt map.now.chains sites.now counts.old }
    ensures long { OnOk result (length counts.new ≡ length sites.now) }
    ensures counts { OnOk result (AreCountsAt map.now.chains sites.now counts.new) }
{
    let most = FLANKS_EACH.saturating_mul(gaps.len().saturating_add(visits.len()));
    let mut kept = 0usize;
    let mut gap = 0u32;
    for place in 0..visits.len() {
        if kept > most {
            return Ok(());
        }
        let visit = visits[place];
        go(map, gaps, journal, gap, visit.gap)?;
        gap = visit.gap;
        shorten(journal, short, near, far)?;
        kept = kept.saturating_add(journal.len());
        counts.keep(visit.place as usize, journal)?;
    }
    Ok(())
}
