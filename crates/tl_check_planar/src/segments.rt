//! The segments of a map as items of a search.

use crate::allowed::allowed_points;
use crate::pair::refused_point;
use std::marker::Model;
use tl_geom::{Rational, Rect};
use tl_map_county::Map;
use tl_tree_index::Items;

/// The segments of a map, by their numbers. Two of them conflict where they share a point that they may not share; it is
/// told by the point of their contact, unless that one is allowed, and then by an end of their overlap. No call takes
/// memory.
#[derive(Drop)]
pub struct Segments<'a> {
    map: &'a Map,
}

impl<'a> Model for Segments<'a> {
    ghost use Rattle.std.specs.Prelude.{List};
    ghost use Rattle.tl_map_county.specs.TheMap.{MapChain};

    ghost Value = { List MapChain };

    ghost view = { λ segments. segments.map.now.chains };
}

impl<'a> Segments<'a> {
    ghost use Rattle.std.specs.Prelude.{◌≡◌};

    /// The segments of a map.
    pub fn new(map: &'a Map) -> Segments<'a>
        ensures { result ≡ map.now.chains }
    {
        Segments { map }
    }

    /// The map whose segments they are.
    pub fn map(&self) -> &'a Map
        ensures { result.now.chains ≡ self.now }
    {
        self.map
    }
}

impl<'a> Items for Segments<'a> {
    ghost use Rattle.std.specs.Prelude.{length};
    ghost use Rattle.tl_map_county.specs.Segments.{segments_before};
    ghost use Rattle.tl_check_planar.specs.Rectangles.{segment_rect};
    ghost use Rattle.tl_check_planar.specs.Searching.{MayTell};
    ghost use Rattle.tl_check_planar.specs.Keeping.Apart.{apart_are_free};

    type C = Rational;

    ghost count = { λ chains. segments_before chains (length chains) };

    ghost bounds_of = { segment_rect };

    // A rational point that both share and may not share, that of their contact unless they may share it; or that they
    // may share each point that they share.
    ghost tells = { MayTell };

    ghost apart = { apart_are_free };

    fn len(&self) -> u32 {
        self.map.segments()
    }

    fn bounds(&self, i: u32) -> Rect {
        Rect::of(self.map.segment(i))
    }

    fn conflict(&self, i: u32, j: u32) -> Option<Rational> {
        let one = self.map.segment(i);
        let other = self.map.segment(j);
        refused_point(one, other, allowed_points(self.map, i, j, one))
    }
}
