//! Walks along chains: what is drawn of them.

ghost use Rattle.std.specs.Prelude.{◌≡◌, [], ◌∷◌, Some, unwrap_or, MatchOption};
ghost use Rattle.tigertopo_pictures.specs.Svg.Frames.{spot_of};
ghost use Rattle.tigertopo_pictures.specs.Svg.Strokes.{is_passed, stroke_to, strokes_left};

use crate::svg::frame::{Frame, Spot};
use tl_geom::Point;

/// A stroke from place to place. It begins anew where the one before it doesn't end there.
#[derive(Clone, Copy)]
pub struct Stroke {
    pub from: Spot,
    pub to: Spot,
    pub begins: bool,
}

/// A walk along the points of a chain.
#[derive(Clone, Copy)]
pub struct Walk<'a> {
    pub frame: Frame,
    /// The place where the stroke to the last point ended, if it was drawn.
    pub end: Option<Spot>,
    pub last: Point,
    pub rest: &'a [Point],
}

impl Walk<'_> {
    /// The next stroke that is drawn.
    #[inline(always)]
    pub fn next(&mut self) -> Option<Stroke>
        ensures { MatchOption result (strokes_left self.old ≡ []) (λ stroke. strokes_left self.old ≡ stroke ∷ strokes_left self.new) }
    {
        while let Some((point, rest)) = self.rest.split_first() {
            self.rest = rest;
            if !is_passed(self.frame, self.last, *point, rest) {
                let last = self.last;
                self.last = *point;
                if self.frame.sees(last, *point) {
                    return Some(self.stroke(last, *point));
                }
                self.end = None;
            }
        }
        None
    }

    // The stroke from the last point to one that is seen from there, at whose place it ends.
    fn stroke(&mut self, last: Point, point: Point) -> Stroke
        ensures stroke { result ≡ stroke_to self.old.frame self.old.end last point }
        ensures walk { self.new ≡ record { frame = self.old.frame; end = Some (spot_of self.old.frame point); last = self.old.last; rest = self.old.rest } }
    {
        let begins = self.end.is_none();
        let from = start_of(self.frame, self.end, last);
        let to = self.frame.spot(point);
        self.end = Some(to);
        Stroke { from, to, begins }
    }
}

// Where a stroke starts: where the one before it ended, or else at the last point.
fn start_of(frame: Frame, end: Option<Spot>, last: Point) -> Spot
    ensures { result ≡ unwrap_or end (spot_of frame last) }
{
    match end {
        Some(end) => end,
        None => frame.spot(last),
    }
}

// Whether a point is passed over, with these points behind it.
fn is_passed(frame: Frame, last: Point, p: Point, rest: &[Point]) -> bool
    ensures { result ≡ is_passed frame last p rest.now }
{
    frame.is_near(last, p) && !rest.is_empty()
}
