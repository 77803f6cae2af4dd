//! The search for a place where a map's chains meet that they may not.
ghost use Rattle.std.specs.Prelude.{length};
ghost use Rattle.tl_map_county.specs.Segments.{segments_before};
ghost use Rattle.tl_check_planar.specs.Rectangles.{segment_rect};
ghost use Rattle.tl_check_planar.specs.Searching.{MayMeet};

use crate::Segments;
use tl_geom::Rational;
use tl_map_county::Map;
use tl_tree_index::{BoxIndex, Search};

/// Segment `s` of the chain `tlid` and segment `t` of the chain `other`, `s` below `t`, share the point `at`, and they may
/// not. The point is that of their contact, in millionths of a degree, unless that one is allowed.
#[derive(Clone, Copy, Debug, PartialEq, Eq)]
pub struct Meet {
    pub tlid: u64,
    pub s: u32,
    pub other: u64,
    pub t: u32,
    pub at: Rational,
}

/// What a search for a meet answers.
#[derive(Clone, Copy, Debug, PartialEq, Eq)]
pub enum Meeting {
    /// Two segments meet where they may not.
    Found(Meet),
    /// The chains are planar.
    Clear,
    /// More pairs of segments than the budget have rectangles that meet, and as many of these as the budget don't conflict.
    Budget,
}

/// Looks for two segments of a map that meet where they may not, by an index that fits the map's segments. Of several meets
/// it may answer any. It takes no memory.
pub fn first_meet<X: BoxIndex>(map: &Map, index: &X, budget: u64) -> Meeting
    requires { X.fits index.now (segments_before map.now.chains (length map.now.chains))
        (segment_rect map.now.chains) }
    // `Found` has two segments, in order, that conflict by its point, and names their chains. `Clear` says that the
    // chains are planar, and that at most as many pairs of segments as the budget have rectangles that meet. `Budget`
    // says that more have, and that as many of these as the budget don't conflict.
    ensures { MayMeet map.now.chains budget result }
{
    match index.first_conflict(&Segments::new(map), budget) {
        Search::Found { i, j, c } => Meeting::Found(Meet {
            tlid: map.chain(map.segment_chain(i)).tlid,
            s: i,
            other: map.chain(map.segment_chain(j)).tlid,
            t: j,
            at: c,
        }),
        Search::Clear => Meeting::Clear,
        Search::Budget => Meeting::Budget,
    }
}
