//! What is drawn of chains.

ghost use Rattle.std.specs.Prelude.{◌≡◌, [], length};
ghost use Rattle.tigertopo_pictures.specs.Svg.Strokes.{chain_strokes, strokes_left};

use crate::svg::bounds::around;
use crate::svg::frame::Frame;
use crate::svg::walk::Walk;
use tl_geom::{Point, Rect};

/// A walk along the strokes of a chain, by its points.
#[inline(always)]
pub fn walk_along(frame: Frame, points: &[Point]) -> Walk<'_>
    ensures strokes { strokes_left result ≡ chain_strokes frame points.now }
{
    let Some((first, rest)) = points.split_first() else {
        return nothing(frame, points);
    };
    if frame.is_small(around(Rect::NOTHING, points)) {
        return nothing(frame, points);
    }
    Walk {
        frame,
        end: None,
        last: *first,
        rest,
    }
}

// A walk along no strokes.
fn nothing(frame: Frame, points: &[Point]) -> Walk<'_>
    ensures { strokes_left result ≡ [] }
{
    Walk {
        frame,
        end: None,
        last: Point { x: 0, y: 0 },
        rest: &points[points.len()..],
    }
}

/// How many strokes a walk still comes to.
pub fn count_strokes(walk: &mut Walk<'_>) -> u64
    ensures { result ≡ length (strokes_left walk.old) }
{
    // There are no more strokes than points.
    let _points = walk.rest.len();
    let mut count = 0;
    while let Some(_stroke) = walk.next() {
        count += 1;
    }
    count
}
