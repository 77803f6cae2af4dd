//! Points by their heights, as a sweep comes to them.
ghost use Rattle.std.specs.Prelude.{◌<◌, length};

use std::alloc::{AllocError, Global};
use std::marker::Model;
use tl_check_active::{Events, height};
use tl_geom::Point;
use tl_map_county::{Ranked, presort_by_rank};

/// The point at a place of a list, by its height.
#[derive(Clone, Copy)]
struct RisingPoint {
    height: i64,
    latitude: i32,
    place: u32,
}

impl Ranked for RisingPoint {
    /// Its height above the least that there is.
    fn rank(&self) -> u64 {
        self.height.abs_diff(i64::MIN)
    }
}

/// The points of a list from the lowest to the highest, and how many of them a sweep has come to.
#[derive(Drop)]
pub struct RisingPoints {
    points: Vec<RisingPoint>,
    next: usize,
}

impl Model for RisingPoints {
    ghost use Rattle.std.specs.Prelude.{ℕ, ◌-◌, length};

    // how many of them the sweep hasn't come to
    ghost Value = { ℕ };

    ghost view = { λ rising. length rising.points.items - rising.next };
}

impl RisingPoints {
    ghost use Rattle.std.specs.Prelude.{◌<◌, IfSome};

    /// No point yet, and room for so many. The error is that memory was refused.
    pub fn with_capacity(alloc: Global, count: usize) -> Result<RisingPoints, AllocError> {
        Ok(RisingPoints {
            points: Vec::with_capacity(alloc, count)?,
            next: 0,
        })
    }

    /// Adds the point at the next place of the list.
    pub fn push(&mut self, point: Point) -> Result<(), AllocError> {
        let place = u32::try_from(self.points.len()).unwrap_or(u32::MAX);
        self.points.push(RisingPoint {
            height: height(point),
            latitude: point.y,
            place,
        })?;
        Ok(())
    }

    /// Puts them in the order of their heights.
    pub fn sort(&mut self, alloc: Global) -> Result<(), AllocError> {
        presort_by_rank(alloc, &mut self.points)
    }

    /// The place of the lowest point that the sweep hasn't come to, if that is below the events from a place on.
    #[inline]
    pub fn next_below(&mut self, events: &Events, from: usize) -> Option<u32>
        ensures { IfSome result (λ place. self.new < self.old) }
    {
        let point = self.points.get(self.next).copied()?;
        if !is_below(point, events, from) {
            return None;
        }
        self.next += 1;
        Some(point.place)
    }
}

/// Whether a point is below the events from a place on.
#[inline]
fn is_below(point: RisingPoint, events: &Events, from: usize) -> bool {
    from < events.len()
        && point.latitude <= events.point(from).y
        && point.height < height(events.point(from))
}
