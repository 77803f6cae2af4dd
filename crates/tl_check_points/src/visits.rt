//! The points that are asked for, on the way of a sweep.
ghost use Rattle.std.specs.Prelude.{◌≡◌, ◌<◌, All, IfOk, IsTrue, length};
ghost use Rattle.tl_check_planar.specs.ByHeight.Heights.{widest};
ghost use Rattle.tl_check_active.specs.Blocks.Lined.{list_of};
ghost use Rattle.tl_check_active.specs.Events.{before, joined, AreEvents, AreEventsRising};
ghost use Rattle.tl_check_active.specs.Ranges.{AreInRange};
ghost use Rattle.tl_check_gaps.specs.Beside.{IsNoVertex, IsBetween};
ghost use Rattle.tl_check_gaps.specs.Keeping.Facing.{raised};
ghost use Rattle.tl_check_gaps.specs.Keeping.Swept.{IsSwept};
ghost use Rattle.tl_check_points.specs.Keeping.Labels.{AreLabelled};
ghost use Rattle.tl_check_points.specs.Keeping.Visits.{IsVisit};

use crate::labels::Labels;
use std::alloc::AllocError;
use tl_check_active::blocks::Line;
use tl_check_active::{Events, go_to, height};
use tl_check_gaps::{RisingPoints, is_between, is_east_of, is_west_of};
use tl_check_inside::Site;
use tl_geom::Point;
use tl_map_county::Map;

/// A point that was found to lie in a gap, by its place in the list of points.
#[derive(Clone, Copy)]
pub struct Visit {
    pub place: u32,
    pub gap: u32,
}

/// Lists the points below the next event that are found to lie in gaps, by the list of the segments that are active there.
pub fn visit_below(
    map: &Map,
    line: &mut Line,
    events: &Events,
    from: usize,
    sites: &[Site],
    labels: &Labels,
    points: &mut RisingPoints,
    visits: &mut Vec<Visit>,
) -> Result<(), AllocError>
    requires events { AreEvents map.now.chains (joined events.now) }
    requires rising { AreEventsRising (joined events.now) }
    requires ranges { AreInRange map.now.chains }
    requires within { from < length events.now }
    requires swept { IsSwept map.now.chains (joined events.now) (before from events.now) (list_of line.old) }
    requires labelled { AreLabelled (length map.now.polygons) (raised map.now.chains) labels.now.gaps.items labels.now.labels.items
        (list_of line.old) }
    requires visits { All (IsVisit (length map.now.polygons) map.now.chains sites.now labels.now.gaps.items) visits.old.items }
    ensures list { IfOk result (λ done. list_of line.new ≡ list_of line.old) }
    ensures visits { IfOk result (λ done.
        All (IsVisit (length map.now.polygons) map.now.chains sites.now labels.now.gaps.items) visits.new.items) }
{
    while let Some(place) = points.next_below(events, from) {
        visit_at(map, line, events, from, sites, labels, place, visits)?;
    }
    Ok(())
}

/// Lists the point at a place of the list of points, if it is found to lie in a gap.
fn visit_at(
    map: &Map,
    line: &mut Line,
    events: &Events,
    from: usize,
    sites: &[Site],
    labels: &Labels,
    place: u32,
    visits: &mut Vec<Visit>,
) -> Result<(), AllocError>
    requires events { AreEvents map.now.chains (joined events.now) }
    requires rising { AreEventsRising (joined events.now) }
    requires ranges { AreInRange map.now.chains }
    requires within { from < length events.now }
    requires swept { IsSwept map.now.chains (joined events.now) (before from events.now) (list_of line.old) }
    requires labelled { AreLabelled (length map.now.polygons) (raised map.now.chains) labels.now.gaps.items labels.now.labels.items
        (list_of line.old) }
    requires visits { All (IsVisit (length map.now.polygons) map.now.chains sites.now labels.now.gaps.items) visits.old.items }
    ensures list { IfOk result (λ done. list_of line.new ≡ list_of line.old) }
    ensures visits { IfOk result (λ done.
        All (IsVisit (length map.now.polygons) map.now.chains sites.now labels.now.gaps.items) visits.new.items) }
{
    if place as usize >= sites.len() {
        return Ok(());
    }
    if stands_between(map, line, events, from, sites[place as usize].point)? {
        let gap = labels.gap_at(line);
        visits.push(Visit { place, gap })?;
    }
    Ok(())
}

/// Goes to the place of a point in the list, and tells whether it is found to stand there strictly between two neighbours.
fn stands_between(
    map: &Map,
    line: &mut Line,
    events: &Events,
    from: usize,
    p: Point,
) -> Result<bool, AllocError>
    requires events { AreEvents map.now.chains (joined events.now) }
    requires rising { AreEventsRising (joined events.now) }
    requires ranges { AreInRange map.now.chains }
    requires within { from < length events.now }
    requires swept { IsSwept map.now.chains (joined events.now) (before from events.now) (list_of line.old) }
    ensures list { IfOk result (λ done. list_of line.new ≡ list_of line.old) }
    ensures vertex { IfOk result (λ done. IsTrue done → IsNoVertex widest map.now.chains p) }
    ensures between { IfOk result (λ done. IsTrue done → IsBetween widest map.now.chains p line.new.front line.new.back) }
{
    if !is_between(events, from, height(p)) {
        return Ok(false);
    }
    go_to(map, line, p)?;
    Ok(is_east_of(map, line.previous(), p) && is_west_of(map, line.next(), p))
}
