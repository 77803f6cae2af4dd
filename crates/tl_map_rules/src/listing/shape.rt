//! What of a type 2 record tells faults.

ghost use Rattle.std.specs.Prelude.{◌≡◌, IfOk, All, map};
ghost use Rattle.tl_map_rules.specs.Listing.Shapes.{seen_by, traced, IsInside, summary_in};

use crate::{Fill, ShapeEntry};
use std::alloc::{AllocError, Global};
use tl_geom::Point;
use tl_map_county::{Keyed, Ranked};

/// The used points of pairs: the first, the last, and how many differ from the one before.
#[derive(Clone, Copy)]
pub struct Trace {
    pub first: Point,
    pub last: Point,
    /// No more than the greatest number is counted.
    pub steps: u32,
}

/// What is seen of pairs: the used points, whether a used pair comes after an unused one, and whether one is unused.
#[derive(Clone, Copy)]
pub struct Seen {
    pub trace: Option<Trace>,
    pub gap: bool,
    pub unused: bool,
}

/// A type 2 record.
#[derive(Clone, Copy)]
pub struct ShapeSummary {
    pub tlid: u64,
    pub seen: Seen,
    pub rtsq: u16,
}

const _: () = prove!(size_of::<ShapeSummary>() == 40);

impl Ranked for ShapeSummary {
    /// By TLID, and within one TLID by RTSQ, which has three digits.
    fn rank(&self) -> u64 {
        self.tlid
            .wrapping_mul(1000)
            .wrapping_add(u64::from(self.rtsq))
    }
}

impl Keyed for ShapeSummary {
    ghost key_of = { λ shape. shape.tlid };

    /// Its TLID.
    fn key(&self) -> u64 {
        self.tlid
    }
}

/// Nothing is seen yet.
pub const NOTHING_SEEN: Seen = Seen {
    trace: None,
    gap: false,
    unused: false,
};

/// What is seen of the used points of pairs that are filled like this.
fn seen_by(points: &[Point], fill: Fill) -> Seen
    ensures { result ≡ seen_by points.now fill }
{
    let mut trace = None;
    for point in points {
        trace = Some(with_point(trace, *point));
    }
    let (gap, unused) = match fill {
        Fill::Full => (false, false),
        Fill::Ended => (false, true),
        Fill::Gap => (true, true),
    };
    Seen { trace, gap, unused }
}

/// What of type 2 records tells faults, by the list of their used points.
pub fn summaries_of(
    alloc: Global,
    shapes: &[ShapeEntry],
    pool: &[Point],
) -> Result<Vec<ShapeSummary>, AllocError>
    requires { All (IsInside pool.now) shapes.now }
    ensures { IfOk result (λ made. made.items ≡ map (summary_in pool.now) shapes.now) }
{
    let mut made = Vec::with_capacity(alloc, shapes.len())?;
    for shape in shapes {
        let points = &pool[shape.first..shape.first + usize::from(shape.used)];
        made.push(ShapeSummary {
            tlid: shape.tlid,
            seen: seen_by(points, shape.fill),
            rtsq: shape.rtsq,
        })?;
    }
    Ok(made)
}

/// The used points with one more.
pub fn with_point(trace: Option<Trace>, point: Point) -> Trace
    ensures { result ≡ traced trace point }
{
    match trace {
        None => Trace {
            first: point,
            last: point,
            steps: 0,
        },
        Some(trace) if point == trace.last => trace,
        Some(trace) => Trace {
            first: trace.first,
            last: point,
            steps: trace.steps.saturating_add(1),
        },
    }
}
