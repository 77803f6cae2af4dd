//! What can be wrong with a map, and with a certificate.

ghost use Rattle.std.specs.Prelude.{◌≡◌, ◌++◌, codes, decimal};
ghost use Rattle.tl_check_verdict.specs.Messages.{tree_text, round_text, walk_text};

use crate::rows::row;
use std::fmt;
use tl_check_faces::FaceFault;
use tl_check_inside::Misplaced;
use tl_check_planar::Meet;
use tl_check_sides::cells::CellsAtOdds;
use tl_check_sides::{RoundFault, WalkFault};
use tl_geom::Point;
use tl_map_rules::Lacking;
use tl_tree_index::TreeFault;

/// Why a map isn't sound, or why records have no map. It is printed as `map fault` and what [`row`] says of it.
#[derive(Clone, Copy, PartialEq, Eq)]
pub enum MapFault {
    /// The records have no map: M1 to M13.
    Records(tl_map_rules::RecordFault),
    /// M14: records of each of the types 1, I and P are asked for, and of these there is none. It is told only where they are asked for, and
    /// before any other fault.
    NoRecords(Lacking),
    /// G1: two segments share a point that they may not share.
    Meet(Meet),
    /// G2: about the node, the second dart is next after the first, and what lies on the left of the first isn't what
    /// lies on the right of the second.
    Side { node: Point, first: u32, next: u32 },
    /// G3, G4, G5: a polygon's point is on a chain, isn't inside its polygon, or isn't clear of another.
    PolygonPoint(Misplaced),
    /// G6: two darts have one zero-cell id and start at two points, or have two ids and start at one.
    Cell(CellsAtOdds),
    /// G7: the map is sound, but two segments that face one another name different sides there, or one that faces the outside
    /// names a polygon. It is told only where faces are asked for.
    Face(FaceFault),
}

impl fmt::Display for MapFault {
    ghost use Rattle.std.specs.Prelude.{Some};
    ghost use Rattle.tl_check_verdict.specs.Messages.{map_fault_text};

    ghost output = { λ fault. Some (map_fault_text fault) };

    fn fmt<W: fmt::Write>(&self, f: &mut fmt::Formatter<W>) -> fmt::Result {
        let row = row(self);
        write!(f, "map fault {} {}{}", row.code, row.name, row.about)
    }
}

impl fmt::Debug for MapFault {
    fn fmt<W: fmt::Write>(&self, f: &mut fmt::Formatter<W>) -> fmt::Result {
        fmt::Display::fmt(self, f)
    }
}

/// Why a certificate isn't valid for a map. It is printed as `certificate fault`, its code and name, and what it is about.
#[derive(Clone, Copy, PartialEq, Eq)]
pub enum CertFault {
    /// K1: no certificate has the text. The line is that of [`tl_cert::CertStop::Text`].
    Text { line: u128 },
    /// K2: a count isn't the map's.
    Counts,
    /// K3: the tree doesn't fit the map's segments.
    Tree(TreeFault),
    /// K3: a node of the tree has a depth above 64, where the root has depth 1.
    TooDeep,
    /// K4: the rounds aren't those of the map.
    Round(RoundFault),
    /// K5: the walks aren't rings in which each dart of the map stands once.
    Walk(WalkFault),
}

impl fmt::Display for CertFault {
    ghost use Rattle.std.specs.Prelude.{Some};
    ghost use Rattle.tl_check_verdict.specs.Messages.{cert_fault_text};

    ghost output = { λ fault. Some (cert_fault_text fault) };

    fn fmt<W: fmt::Write>(&self, f: &mut fmt::Formatter<W>) -> fmt::Result {
        match self.cause() {
            (name, Some(number)) => write!(f, "{name} {number}"),
            (name, None) => f.write_str(name),
        }
    }
}

impl fmt::Debug for CertFault {
    fn fmt<W: fmt::Write>(&self, f: &mut fmt::Formatter<W>) -> fmt::Result {
        fmt::Display::fmt(self, f)
    }
}

impl CertFault {
    ghost use Rattle.tl_check_verdict.specs.Messages.{cert_fault_text, numbered_text};

    /// What is printed of it: a text, and the number behind it, if one is.
    pub fn cause(&self) -> (&'static str, Option<u128>)
        ensures { numbered_text result.0.now result.1 ≡ cert_fault_text self.now }
    {
        match *self {
            CertFault::Text { line } => ("certificate fault K1 Text line", Some(line)),
            CertFault::Counts => ("certificate fault K2 Counts", None),
            CertFault::Tree(fault) => {
                let (name, number) = tree_cause(fault);
                (name, Some(u128::from(number)))
            }
            CertFault::TooDeep => ("certificate fault K3 Tree TooDeep", None),
            CertFault::Round(fault) => {
                let (name, number) = round_cause(fault);
                (name, Some(u128::from(number)))
            }
            CertFault::Walk(fault) => {
                let (name, number) = walk_cause(fault);
                (name, Some(u128::from(number)))
            }
        }
    }
}

// What is printed of a tree's fault, before the index or the node that it is about.
fn tree_cause(fault: TreeFault) -> (&'static str, u32)
    ensures { result.0.now ++ codes " " ++ decimal result.1 ≡ codes "certificate fault K3 Tree " ++ tree_text fault }
{
    match fault {
        TreeFault::UnknownIndex(index) => ("certificate fault K3 Tree UnknownIndex", index),
        TreeFault::IndexTwice(index) => ("certificate fault K3 Tree IndexTwice", index),
        TreeFault::IndexMissing(index) => ("certificate fault K3 Tree IndexMissing", index),
        TreeFault::RectTooSmall(node) => ("certificate fault K3 Tree RectTooSmall", node),
    }
}

// What is printed of a fault of rounds, before the dart or the round that it is about.
fn round_cause(fault: RoundFault) -> (&'static str, u32)
    ensures { result.0.now ++ codes " " ++ decimal result.1 ≡ codes "certificate fault K4 Round " ++ round_text fault }
{
    match fault {
        RoundFault::UnknownDart(dart) => ("certificate fault K4 Round UnknownDart", dart),
        RoundFault::DartTwice(dart) => ("certificate fault K4 Round DartTwice", dart),
        RoundFault::DartMissing(dart) => ("certificate fault K4 Round DartMissing", dart),
        RoundFault::StartsElsewhere(round) => ("certificate fault K4 Round StartsElsewhere", round),
        RoundFault::NodeRepeated(round) => ("certificate fault K4 Round NodeRepeated", round),
        RoundFault::OrderNotRising(round) => ("certificate fault K4 Round OrderNotRising", round),
    }
}

// What is printed of a fault of walks, before the dart or the walk that it is about.
fn walk_cause(fault: WalkFault) -> (&'static str, u32)
    ensures { result.0.now ++ codes " " ++ decimal result.1 ≡ codes "certificate fault K5 Walk " ++ walk_text fault }
{
    match fault {
        WalkFault::UnknownDart(dart) => ("certificate fault K5 Walk UnknownDart", dart),
        WalkFault::DartTwice(dart) => ("certificate fault K5 Walk DartTwice", dart),
        WalkFault::DartMissing(dart) => ("certificate fault K5 Walk DartMissing", dart),
        WalkFault::WrongStep(walk) => ("certificate fault K5 Walk WrongStep", walk),
        WalkFault::NotClosed(walk) => ("certificate fault K5 Walk NotClosed", walk),
    }
}
