//! Chains with their points.

ghost use Rattle.std.specs.Prelude.{◌≡◌, ℕ, ◌*◌, ◌<◌, All, List, length, map, slice_get, Some};
ghost use Rattle.tl_map_county.specs.Chains.{CompleteChain, IsProperChain, tlids, segment_count};
ghost use Rattle.tl_map_county.specs.Darts.{directed};
ghost use Rattle.tl_map_county.specs.Keeping.Numbered.{IsNumber, JoinsPoints};

use std::marker::Model;
use tl_geom::{Point, Segment};

/// Where the points of a chain stand among those of all chains.
#[derive(Clone, Copy)]
pub struct ChainRow {
    pub tlid: u64,
    pub first: u32,
    pub count: u32,
}

/// The chains of a county by rising TLID, each with its points from start to end. Coordinates are in millionths of a
/// degree.
#[derive(Drop)]
pub struct Chains {
    rows: Vec<ChainRow>,
    points: Vec<Point>,
    skipped: u64,
}

impl Model for Chains {
    ghost use Rattle.std.specs.Prelude.{◌+◌, ◌≤◌, length};
    ghost use Rattle.tl_map_county.specs.Chains.{ChainList};

    ghost Value = { ChainList };

    ghost use Rattle.tl_map_county.specs.Rows.{IsTable, chains_in};

    ghost view = { λ c. record { chains = chains_in c.points.items c.rows.items; skipped = c.skipped } };

    ghost use Rattle.tl_map_county.specs.declared.limits.TheConstants.{CHAIN_LIMIT, SEGMENT_LIMIT};

    ghost invariant = { λ c. (length c.rows.items ≤ CHAIN_LIMIT)
        × IsTable c.points.items c.rows.items
        × (length c.points.items ≤ SEGMENT_LIMIT + length c.rows.items) };
}

impl Chains {
    ghost use Rattle.std.specs.Prelude.{◌≡◌, ◌+◌, ◌≤◌, length};
    ghost use Rattle.tl_map_county.specs.declared.limits.TheConstants.{CHAIN_LIMIT, SEGMENT_LIMIT};
    ghost use Rattle.tl_map_county.specs.Limits.{most_segments};
    ghost use Rattle.tl_map_county.specs.Rows.{IsTable, chains_in};

    /// The chains of these rows, whose points stand in one list.
    pub fn new(rows: Vec<ChainRow>, points: Vec<Point>, skipped: u64) -> Chains
        requires table { IsTable points.items rows.items }
        requires room { length rows.items ≤ CHAIN_LIMIT }
        requires few { length points.items ≤ SEGMENT_LIMIT + length rows.items }
        ensures { result ≡ record { chains = chains_in points.items rows.items; skipped = skipped } }
    {
        Chains {
            rows,
            points,
            skipped,
        }
    }

    /// How many chains there are.
    pub fn len(&self) -> u32
        ensures { result ≡ length self.now.chains }
    {
        self.rows.len() as u32
    }

    /// They are at most as many as a county may have. This does nothing: its contract is all.
    pub(crate) fn has_few_chains(&self)
        ensures { length self.now.chains ≤ CHAIN_LIMIT }
    {
        // What the parts keep is known where one of them is looked at.
        let _rows = self.rows.len();
    }

    /// The TLID of a chain, by its number from 0.
    pub fn tlid(&self, c: u32) -> u64
        requires { c < length self.now.chains }
        ensures { slice_get (tlids self.now.chains) c ≡ Some result }
    {
        self.rows[c as usize].tlid
    }

    /// The points of a chain from start to end, by its number from 0.
    pub fn points(&self, c: u32) -> &[Point]
        requires { c < length self.now.chains }
        ensures { slice_get (map (λ chain. chain.points) self.now.chains) c ≡ Some result.now }
    {
        let row = self.rows[c as usize];
        let first = row.first as usize;
        &self.points[first..first + row.count as usize]
    }

    /// How many segments the chains have together.
    pub fn segments(&self) -> u32
        ensures count { result ≡ segment_count self.now.chains }
        // They are at most 16,777,216.
        ensures few { result ≤ most_segments }
    {
        (self.points.len() - self.rows.len()) as u32
    }

    /// A segment by its number and its chain's.
    #[inline]
    pub(crate) fn segment(&self, s: u32, c: u32) -> Segment
        requires number { (k : ℕ) × IsNumber self.now.chains (length self.now.chains) s c k }
        requires proper { All (λ (chain : CompleteChain). IsProperChain chain.points) self.now.chains }
        ensures { (k : ℕ) → IsNumber self.now.chains (length self.now.chains) s c k → JoinsPoints self.now.chains c k result }
    {
        let place = s as usize + c as usize;
        Segment::between(self.points[place], self.points[place + 1])
    }

    /// How many darts there are: two of each chain.
    pub(crate) fn darts(&self) -> u32
        ensures { result ≡ 2 * length self.now.chains }
    {
        self.rows.len() as u32 * 2
    }

    /// How many lines were passed over.
    pub fn skipped(&self) -> u64
        ensures { result ≡ self.now.skipped }
    {
        self.skipped
    }
}

/// A point of a chain by its place, counted from the first point or from the last.
pub fn point_along(points: &[Point], forward: bool, place: usize) -> Point
    requires { place < length points.now }
    ensures { slice_get (directed forward points.now) place ≡ Some result }
{
    if forward {
        points[place]
    } else {
        points[points.len() - 1 - place]
    }
}
