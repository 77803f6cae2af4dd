//! The sweep that labels segments, and lists which points lie in which gaps.
ghost use Rattle.std.specs.Prelude.{◌≡◌, [], IfOk};
ghost use Rattle.tl_check_active.specs.Events.{joined, AreEvents, AreEventsRising};
ghost use Rattle.tl_check_active.specs.Ranges.{AreInRange};
ghost use Rattle.tl_check_points.specs.Keeping.UnderWay.{AreVisits};

use crate::labels::Labels;
use crate::vertex::label_vertex;
use crate::visits::{Visit, visit_below};
use std::alloc::{AllocError, Global};
use tl_check_active::blocks::{Line, Places};
use tl_check_active::{Events, Watcher, pass, sweep_over};
use tl_check_gaps::RisingPoints;
use tl_check_inside::Site;
use tl_map_county::Map;

/// A sweep that labels segments, and visits these points.
#[derive(Clone, Copy)]
pub struct Visiting<'a> {
    pub sites: &'a [Site],
}

/// What it notes on its way.
#[derive(Drop)]
pub struct Visited {
    pub labels: Labels,
    pub points: RisingPoints,
    /// The points that were found to lie in gaps.
    pub visits: Vec<Visit>,
    /// The segments that stand west of a vertex, and those that begin there.
    pub front: Vec<u32>,
}

impl Visited {
    /// No segment is labelled yet, and no point visited. The error is that memory was refused.
    pub fn new(alloc: Global, map: &Map, sites: &[Site]) -> Result<Visited, AllocError>
        ensures { IfOk result (λ notes. notes.visits.items ≡ []) }
    {
        Ok(Visited {
            labels: Labels::new(alloc, map)?,
            points: points_of(alloc, sites)?,
            visits: Vec::new(alloc),
            front: Vec::new(alloc),
        })
    }
}

impl<'a> Watcher for Visiting<'a> {
    ghost use Rattle.tl_check_points.specs.Keeping.UnderWay.{AreVisits, IsUnderWay};

    type Notes = Visited;

    ghost keeps = { λ visiting notes m events from list. IsUnderWay visiting.sites.now notes m events from list };

    ghost stops = { λ visiting notes m. AreVisits visiting.sites.now notes m };

    /// Visits points.
    #[inline(always)]
    fn look(
        &self,
        notes: &mut Visited,
        map: &Map,
        line: &mut Line,
        events: &Events,
        from: usize,
    ) -> Result<(), AllocError> {
        visit_below(
            map,
            line,
            events,
            from,
            self.sites,
            &notes.labels,
            &mut notes.points,
            &mut notes.visits,
        )
    }

    /// Labels the segments that begin at the vertex. It isn't passed where a test fails or there are gaps enough.
    #[inline(always)]
    fn pass(
        &self,
        notes: &mut Visited,
        map: &Map,
        events: &Events,
        from: usize,
        _to: usize,
        line: &mut Line,
        outs: &mut Vec<u32>,
        ins: &mut Vec<u32>,
        places: &mut Places,
    ) -> Result<bool, AllocError> {
        let Some(_both) = pass(map, events.point(from), line, outs, ins, places)? else {
            return Ok(false);
        };
        label_vertex(map, &mut notes.labels, line, outs, ins, &mut notes.front)
    }
}

/// Sweeps over all events from the lowest to the highest, and lists the points that are found to lie in gaps on the way. Where a test
/// fails it ends.
pub fn sweep(
    alloc: Global,
    map: &Map,
    events: &Events,
    sites: &[Site],
) -> Result<Visited, AllocError>
    requires events { AreEvents map.now.chains (joined events.now) }
    requires rising { AreEventsRising (joined events.now) }
    requires ranges { AreInRange map.now.chains }
    ensures { IfOk result (λ notes. AreVisits sites.now notes map.now) }
{
    let mut notes = Visited::new(alloc, map, sites)?;
    sweep_over(alloc, map, events, &Visiting { sites }, &mut notes)?;
    Ok(notes)
}

/// The points of a list, by their places in it.
fn points_of(alloc: Global, sites: &[Site]) -> Result<RisingPoints, AllocError> {
    let mut points = RisingPoints::with_capacity(alloc, sites.len())?;
    for site in sites {
        points.push(site.point)?;
    }
    points.sort(alloc)?;
    Ok(points)
}
