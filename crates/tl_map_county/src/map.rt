//! The map: chains with their sides, polygons, and landmarks with their polygons.

ghost use Rattle.std.specs.Prelude.{◌≡◌, ◌≢◌, ◌<◌, ◌≤◌, ◌-ℤ◌, All, IfOk, length, slice_get, Some};
ghost use Rattle.tl_map_county.specs.TheMap.{IsChain};
ghost use Rattle.tl_map_county.specs.Chains.{CompleteChain, IsProperChain};
ghost use Rattle.tl_map_county.specs.Limits.{most_segments};
ghost use Rattle.tl_map_county.specs.Keeping.Numbered.{AreNumberedSegments};
ghost use Rattle.tl_map_county.specs.Keeping.Noded.{AreNumberedNodes};

use crate::chains::{Chains, point_along};
use crate::kept::SidesOfChains;
use crate::landmarks::{LandmarkRow, LinkedLandmarks};
use crate::nodes::{Nodes, number_nodes};
use crate::polygons::Polygon;
use crate::segments::number_segments;
use crate::sides::Side;
use crate::without::{no_landmarks, remaining_chains};
use std::alloc::{AllocError, Global};
use std::marker::Model;
use tl_geom::{Direction, Point, Segment};

/// The map of a county: chains by rising TLID, polygons in the order of their type P records, landmarks in the order of
/// their first type 7 record, each numbered from 0. Coordinates are in millionths of a degree.
#[derive(Drop)]
pub struct Map {
    chains: Chains,
    sides: SidesOfChains,
    polygons: Vec<Polygon>,
    landmarks: Vec<(u64, Option<Point>)>,
    rows: Vec<LandmarkRow>,
    linked: Vec<u32>,
    /// The chain of each segment.
    segment_chains: Vec<u32>,
    nodes: Nodes,
}

/// A chain of a map: its points from its start to its end, and what lies on both sides of a walker along them.
#[derive(Clone, Copy, Debug)]
pub struct Chain<'a> {
    pub tlid: u64,
    pub points: &'a [Point],
    pub left: Side,
    pub right: Side,
}

/// A landmark of a map: its point, which an area landmark has not, and the numbers of its polygons in the order of
/// their first links.
#[derive(Clone, Copy, Debug)]
pub struct Landmark<'a> {
    pub land: u64,
    pub point: Option<Point>,
    pub polygons: &'a [u32],
}

impl Model for Map {
    ghost use Rattle.std.specs.Prelude.{◌≡◌, ◌≤◌, All, length, map};
    ghost use Rattle.tl_map_county.specs.TheMap.{TheMap};

    ghost Value = { TheMap };

    ghost use Rattle.tl_map_county.specs.Limits.{most_segments, most_polygons, most_landmarks};
    ghost use Rattle.tl_map_county.specs.Chains.{CompleteChain, IsProperChain};
    ghost use Rattle.tl_map_county.specs.Rows.{IsRow, HasPolygonsOf, landmarks_in};
    ghost use Rattle.tl_map_county.specs.Rows.{sided};
    ghost use Rattle.tl_map_county.specs.Sides.{AreSidesAmong};
    ghost use Rattle.tl_map_county.specs.Keeping.Numbered.{AreNumberedSegments};
    ghost use Rattle.tl_map_county.specs.Keeping.Noded.{AreNumberedNodes};

    ghost view = { λ m. record {
      chains = sided m.chains.chains m.sides;
      polygons = m.polygons.items;
      landmarks = landmarks_in m.linked.items m.landmarks.items m.rows.items;
      skipped = m.chains.skipped;
    } };

    ghost invariant = { λ m. (length m.sides ≡ length m.chains.chains)
        × (length m.polygons.items ≤ most_polygons)
        × (length m.landmarks.items ≤ most_landmarks)
        × All (IsRow m.linked.items) m.rows.items
        × All (λ (c : CompleteChain). IsProperChain c.points) m.chains.chains
        × AreNumberedSegments m.chains.chains m.segment_chains.items
        × AreNumberedNodes m.chains.chains m.nodes
        × All (HasPolygonsOf (length m.polygons.items) m.linked.items) m.rows.items
        × (length m.rows.items ≡ length m.landmarks.items)
        × (length m.segment_chains.items ≤ most_segments)
        × All (AreSidesAmong (length m.polygons.items)) m.sides };
}

/// Numbers the nodes and the segments of the chains.
fn number_parts(alloc: Global, chains: &Chains) -> Result<(Nodes, Vec<u32>), AllocError>
    requires { All (λ (c : CompleteChain). IsProperChain c.points) chains.now.chains }
    ensures nodes { IfOk result (λ made. AreNumberedNodes chains.now.chains made.0) }
    ensures segments { IfOk result (λ made. AreNumberedSegments chains.now.chains made.1.items × (length made.1.items ≤ most_segments)) }
{
    let nodes = number_nodes(alloc, chains)?;
    let segment_chains = number_segments(alloc, chains)?;
    Ok((nodes, segment_chains))
}

impl Map {
    ghost use Rattle.std.specs.Prelude.{◌≡◌, ℕ, ◌<◌, ◌≤◌, ◌*◌, All, IfOk, length, map};
    ghost use Rattle.tl_map_county.specs.Segments.{segments_before, IsSegmentOf, Joins};
    ghost use Rattle.tl_map_county.specs.Remaining.{map_without};
    ghost use Rattle.tl_map_county.specs.Keeping.Numbered.{AreNumberedSegments};
    ghost use Rattle.tl_map_county.specs.Darts.{dart_start as dart_start_of, dart_end as dart_end_of};
    ghost use Rattle.tl_map_county.specs.Darts.{dart_left as dart_left_of, dart_cell as dart_cell_of, Heads};
    ghost use Rattle.tl_map_county.specs.Limits.{most_segments, most_polygons, most_landmarks};
    ghost use Rattle.tl_map_county.specs.Chains.{CompleteChain, IsProperChain};
    ghost use Rattle.tl_map_county.specs.Rows.{IsRow, HasPolygonsOf, landmarks_in};
    ghost use Rattle.tl_map_county.specs.Rows.{sided};
    ghost use Rattle.tl_map_county.specs.Sides.{AreSidesAmong};
    ghost use Rattle.tl_map_county.specs.Keeping.Noded.{AreNumberedNodes};
    ghost use Rattle.tl_map_county.specs.Nodes.{AreNodes};
    ghost use Rattle.tl_map_county.specs.Landmarks.{ArePolygonsOf};
    ghost use Rattle.tl_map_county.specs.Sides.{IsSideAmong, HasSidesAmong};
    ghost use Rattle.tl_map_county.specs.TheMap.{MapChain, MapLandmark};
    ghost use Rattle.tl_geom.specs.declared.point.Point.{Point};
    ghost use Rattle.std.specs.Prelude.{List};

    /// The map of these chains, their sides, the polygons and the landmarks. Its segments and nodes are numbered here;
    /// the error is that memory was refused.
    pub fn new(
        alloc: Global,
        chains: Chains,
        sides: SidesOfChains,
        polygons: Vec<Polygon>,
        landmarks: LinkedLandmarks,
    ) -> Result<Map, AllocError>
        requires paired { length sides ≡ length chains.chains }
        requires polygons { length polygons.items ≤ most_polygons }
        requires landmarks { length landmarks.points.items ≤ most_landmarks }
        requires beside { length landmarks.rows.items ≡ length landmarks.points.items }
        requires within { All (IsRow landmarks.linked.items) landmarks.rows.items }
        requires proper { All (λ (c : CompleteChain). IsProperChain c.points) chains.chains }
        requires linked { All (HasPolygonsOf (length polygons.items) landmarks.linked.items) landmarks.rows.items }
        requires among { All (AreSidesAmong (length polygons.items)) sides }
        ensures { IfOk result (λ m. m ≡ record {
          chains = sided chains.chains sides;
          polygons = polygons.items;
          landmarks = landmarks_in landmarks.linked.items landmarks.points.items landmarks.rows.items;
          skipped = chains.skipped;
        }) }
    {
        let (nodes, segment_chains) = number_parts(alloc, &chains)?;
        let LinkedLandmarks {
            points,
            rows,
            linked,
        } = landmarks;
        Ok(Map {
            chains,
            sides,
            polygons,
            landmarks: points,
            rows,
            linked,
            segment_chains,
            nodes,
        })
    }

    /// The map without the chains that are marked, with all polygons and without landmarks. A chain that has no mark stays. The error is
    /// that memory was refused.
    pub fn without(&self, alloc: Global, marks: &[bool]) -> Result<Map, AllocError>
        ensures { IfOk result (λ rest. rest ≡ map_without marks.now self.now) }
    {
        let (chains, sides) = remaining_chains(
            alloc,
            &self.chains,
            &self.sides,
            marks,
            self.polygons.len() as u32,
        )?;
        let polygons = self.polygons.to_vec(alloc)?;
        Map::new(alloc, chains, sides, polygons, no_landmarks(alloc))
    }

    /// How many chains there are.
    pub fn chains(&self) -> u32
        ensures { result ≡ length self.now.chains }
    {
        self.chains.len()
    }

    /// How many darts there are: two of each chain.
    pub fn darts(&self) -> u32
        ensures { result ≡ 2 * length self.now.chains }
    {
        self.chains.darts()
    }

    /// How many segments the chains have together.
    pub fn segments(&self) -> u32
        ensures count { result ≡ segments_before self.now.chains (length self.now.chains) }
        // They are at most 16,777,216.
        ensures few { result ≤ most_segments }
    {
        self.segment_chains.len() as u32
    }

    /// How many polygons there are.
    pub fn polygons(&self) -> u32
        ensures { result ≡ length self.now.polygons }
    {
        self.polygons.len() as u32
    }

    /// Each side of each chain is the outside or a polygon of the map. This does nothing: its contract is all.
    pub fn names_its_polygons(&self)
        ensures { All (HasSidesAmong (length self.now.polygons)) self.now.chains }
    {
        // What the map's parts keep is known where one of them is looked at.
        let _polygons = self.polygons.len();
    }

    /// Each chain has two points or more, where neighbours differ. This does nothing: its contract is all.
    pub fn has_proper_chains(&self)
        ensures { (c : ℕ) (chain : MapChain) → slice_get self.now.chains c ≡ Some chain → IsProperChain chain.points }
    {
        // What the map's parts keep is known where one of them is looked at.
        let _polygons = self.polygons.len();
    }

    /// How many landmarks there are.
    pub fn landmarks(&self) -> u32
        ensures count { result ≡ length self.now.landmarks }
        // The polygons of each are numbers of polygons of the map, each once.
        ensures polygons { (l : ℕ) (landmark : MapLandmark) → slice_get self.now.landmarks l ≡ Some landmark →
            ArePolygonsOf (length self.now.polygons) landmark.polygons }
    {
        self.landmarks.len() as u32
    }

    /// How many lines were passed over.
    pub fn skipped(&self) -> u64
        ensures { result ≡ self.now.skipped }
    {
        self.chains.skipped()
    }

    /// A chain by its number.
    pub fn chain(&self, c: u32) -> Chain<'_>
        requires { c < length self.now.chains }
        ensures chain { IsChain (slice_get self.now.chains c) result.tlid result.points.now result.left result.right }
        ensures points { IsProperChain result.points.now }
        // Each of both sides is the outside or a polygon of the map.
        ensures left { IsSideAmong (length self.now.polygons) result.left }
        ensures right { IsSideAmong (length self.now.polygons) result.right }
    {
        let sides = self.sides.get(c as usize);
        Chain {
            tlid: self.chains.tlid(c),
            points: self.chains.points(c),
            left: sides.left,
            right: sides.right,
        }
    }

    /// A polygon by its number.
    pub fn polygon(&self, p: u32) -> Polygon
        requires { p < length self.now.polygons }
        ensures { slice_get self.now.polygons p ≡ Some result }
    {
        self.polygons[p as usize]
    }

    /// A landmark by its number.
    pub fn landmark(&self, l: u32) -> Landmark<'_>
        requires { l < length self.now.landmarks }
        ensures landmark { slice_get self.now.landmarks l ≡
            Some (record { land = result.land; point = result.point; polygons = result.polygons.now }) }
        // Its polygons are numbers of polygons of the map, each once.
        ensures polygons { ArePolygonsOf (length self.now.polygons) result.polygons.now }
    {
        let row = self.rows[l as usize];
        let (land, point) = self.landmarks[l as usize];
        Landmark {
            land,
            point,
            polygons: &self.linked[row.first..row.first + row.count],
        }
    }

    /// The number of the chain that a segment is one of, by the segment's number.
    pub fn segment_chain(&self, s: u32) -> u32
        requires { s < segments_before self.now.chains (length self.now.chains) }
        ensures { (k : ℕ) × IsSegmentOf self.now.chains s result k }
    {
        self.segment_chains[s as usize]
    }

    /// A segment by its number, from chain to chain and from start to end in each.
    pub fn segment(&self, s: u32) -> Segment
        requires { s < segments_before self.now.chains (length self.now.chains) }
        ensures { (c : ℕ) × (k : ℕ) × IsSegmentOf self.now.chains s c k × Joins self.now.chains c k result }
    {
        self.chains.segment(s, self.segment_chains[s as usize])
    }

    /// The point where a dart starts: dart 2c runs along chain c, dart 2c + 1 against it.
    pub fn dart_start(&self, d: u32) -> Point
        requires { d < 2 * length self.now.chains }
        ensures { dart_start_of self.now.chains d ≡ Some result }
    {
        point_along(self.chain(d / 2).points, d % 2 == 0, 0)
    }

    /// How many nodes there are: distinct points where chains begin or end.
    pub fn nodes(&self) -> u32
        ensures { (nodes : List Point) × AreNodes self.now.chains nodes × (result ≡ length nodes) }
    {
        self.nodes.count
    }

    /// The number of the node where a dart starts, from 0.
    pub fn dart_node(&self, d: u32) -> u32
        requires { d < 2 * length self.now.chains }
        ensures start { (nodes : List Point) → AreNodes self.now.chains nodes →
            slice_get nodes result ≡ dart_start_of self.now.chains d }
        ensures within { (nodes : List Point) → AreNodes self.now.chains nodes → result < length nodes }
    {
        self.nodes.numbers[d as usize]
    }

    /// The point where a dart ends.
    pub fn dart_end(&self, d: u32) -> Point
        requires { d < 2 * length self.now.chains }
        ensures { dart_end_of self.now.chains d ≡ Some result }
    {
        point_along(self.chain(d / 2).points, d % 2 != 0, 0)
    }

    /// The direction from a dart's first point to its second.
    pub fn dart_heading(&self, d: u32) -> Direction
        requires { d < 2 * length self.now.chains }
        ensures { Heads self.now.chains d result }
    {
        let points = self.chain(d / 2).points;
        let first = point_along(points, d % 2 == 0, 0);
        let second = point_along(points, d % 2 == 0, 1);
        heading(first, second)
    }

    /// What lies on the left of a dart.
    pub fn dart_left(&self, d: u32) -> Side
        requires { d < 2 * length self.now.chains }
        ensures left { dart_left_of self.now.chains d ≡ Some result }
        ensures among { IsSideAmong (length self.now.polygons) result }
    {
        let chain = self.chain(d / 2);
        if d % 2 == 0 { chain.left } else { chain.right }
    }

    /// The zero-cell id at the start of a dart, where ids are read and this one is given.
    pub fn dart_cell(&self, d: u32) -> Option<u64>
        requires { d < 2 * length self.now.chains }
        ensures { dart_cell_of self.now.chains d ≡ Some result }
    {
        let sides = self.sides.get((d / 2) as usize);
        if d % 2 == 0 {
            sides.start_cell
        } else {
            sides.end_cell
        }
    }
}

/// The direction from one point to another.
fn heading(first: Point, second: Point) -> Direction
    requires { first ≢ second }
    ensures x { result.x ≡ second.x -ℤ first.x }
    ensures y { result.y ≡ second.y -ℤ first.y }
{
    match Direction::between(first, second) {
        Some(direction) => direction,
        None => unreachable!(),
    }
}
