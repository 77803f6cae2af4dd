//! What a map's segments are asked for: which of them hold a point, and which its ray to the east crosses.

ghost use Rattle.std.specs.Prelude.{◌≡◌};

use tl_check_planar::Segments;
use tl_geom::laws::crossed_segment;
use tl_geom::{Point, Rect, crosses_ray, on};
use tl_tree_index::{Items, Probe};

/// The segments that hold a point.
#[derive(Clone, Copy)]
pub struct HoldingPoint(pub Point);

impl<'a> Probe<Segments<'a>> for HoldingPoint {
    ghost use Rattle.tl_geom.specs.Rectangle.{spot_rect};
    ghost use Rattle.tl_check_inside.specs.Keeping.Probing.{IsHolding, holding_meets};

    ghost region_of = { λ spot. spot_rect spot.0 };

    ghost hit = { λ spot chains. IsHolding chains spot.0 };

    ghost hits_meet = { λ spot chains. holding_meets chains spot.0 };

    fn region(&self) -> Rect
        ensures { result ≡ spot_rect self.now.0 }
    {
        Rect::at(self.0)
    }

    fn hits(&self, items: &Segments<'a>, i: u32) -> bool {
        on(items.map().segment(i), self.0)
    }
}

/// The segments whose rectangles meet a rectangle.
#[derive(Clone, Copy)]
pub struct Strip(pub Rect);

impl<'a> Probe<Segments<'a>> for Strip {
    ghost use Rattle.tl_check_inside.specs.Keeping.Probing.{IsTouching, touching_meets};

    ghost region_of = { λ strip. strip.0 };

    ghost hit = { λ strip chains. IsTouching chains strip.0 };

    ghost hits_meet = { λ strip chains. touching_meets chains strip.0 };

    fn region(&self) -> Rect
        ensures { result ≡ self.now.0 }
    {
        self.0
    }

    fn hits(&self, items: &Segments<'a>, i: u32) -> bool {
        self.0.meets(Rect::of(items.map().segment(i)))
    }
}

/// The segments that the ray from a point to the east crosses.
#[derive(Clone, Copy)]
pub struct Ray(pub Point);

impl<'a> Probe<Segments<'a>> for Ray {
    ghost use Rattle.tl_geom.specs.Rectangle.{ray_rect};
    ghost use Rattle.tl_check_inside.specs.Keeping.Probing.{IsReached, reached_meets};

    ghost region_of = { λ ray. ray_rect ray.0 };

    ghost hit = { λ ray chains. IsReached chains ray.0 };

    ghost hits_meet = { λ ray chains. reached_meets chains ray.0 };

    fn region(&self) -> Rect
        ensures { result ≡ ray_rect self.now.0 }
    {
        let Point { x, y } = self.0;
        Rect {
            xmin: x,
            ymin: y,
            xmax: i32::MAX,
            ymax: y,
        }
    }

    fn hits(&self, items: &Segments<'a>, i: u32) -> bool {
        let segment = items.map().segment(i);
        crossed_segment(segment, self.0);
        crosses_ray(segment, self.0)
    }
}
