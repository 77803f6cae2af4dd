//! What each fault of a map says: its code, its name, and what it is about.

ghost use Rattle.std.specs.Prelude.{◌≡◌};
ghost use Rattle.tl_map_rules.specs.Rows.{row_of};
ghost use Rattle.tl_check_verdict.specs.Rows.{about_records, point_row, row};

use crate::fault::MapFault;
use std::fmt;
use tl_check_faces::FaceFault;
use tl_check_inside::Misplaced;
use tl_check_planar::Meet;
use tl_check_sides::cells::CellsAtOdds;
use tl_geom::Point;
use tl_map_rules::{AboutRecords, FaultRow, lacking_row, record_row};
use tl_record_key::PolyKey;

/// What a fault is about.
#[derive(Clone, Copy)]
pub enum About {
    /// Records.
    Records(AboutRecords),
    /// Two segments, and where they meet.
    Meet(Meet),
    /// Two darts at a node.
    Darts { node: Point, first: u32, next: u32 },
    /// A polygon alone, by its point.
    PolygonAlone(PolyKey),
    /// A polygon, and a chain that its point is on.
    PolygonTlid(PolyKey, u64),
    /// A polygon, and another that its point is in.
    PolygonOther(PolyKey, PolyKey),
    /// Two darts, and their zero-cell ids.
    Cells(CellsAtOdds),
    /// Faces that disagree.
    Faces(FaceFault),
}

/// What a fault says.
pub fn row(fault: &MapFault) -> FaultRow<About>
    ensures { row_of result ≡ row fault.now }
{
    match fault {
        MapFault::Records(fault) => about_records(record_row(fault)),
        MapFault::NoRecords(lacking) => about_records(lacking_row(*lacking)),
        MapFault::Meet(meet) => FaultRow::new("G1", "Meet", About::Meet(*meet)),
        MapFault::Side { node, first, next } => {
            let (node, first, next) = (*node, *first, *next);
            FaultRow::new("G2", "Side", About::Darts { node, first, next })
        }
        MapFault::PolygonPoint(misplaced) => point_row(*misplaced),
        MapFault::Cell(odds) => FaultRow::new("G6", "Cell", About::Cells(*odds)),
        MapFault::Face(fault) => FaultRow::new("G7", "FaceDisagree", About::Faces(*fault)),
    }
}

// The row of a fault of the records.
fn about_records(row: FaultRow<AboutRecords>) -> FaultRow<About>
    ensures { row_of result ≡ about_records (row_of row) }
{
    FaultRow::new(row.code, row.name, About::Records(row.about))
}

// What a polygon's point that lies wrong says.
fn point_row(misplaced: Misplaced) -> FaultRow<About>
    ensures { row_of result ≡ point_row misplaced }
{
    match misplaced {
        Misplaced::OnChain { polygon, tlid } => {
            FaultRow::new("G3", "PointOnChain", About::PolygonTlid(polygon, tlid))
        }
        Misplaced::Outside { polygon } => {
            FaultRow::new("G4", "PointOutside", About::PolygonAlone(polygon))
        }
        Misplaced::InOther { polygon, other } => {
            FaultRow::new("G5", "PointInOther", About::PolygonOther(polygon, other))
        }
    }
}

/// As it is printed behind the fault's name, with a blank in front: points in millionths of a degree, that of a meet and those of faces
/// as two numerators and their denominator.
impl fmt::Display for About {
    ghost use Rattle.std.specs.Prelude.{Some};
    ghost use Rattle.tl_check_verdict.specs.Messages.{about_text};

    ghost output = { λ about. Some (about_text about) };

    fn fmt<W: fmt::Write>(&self, f: &mut fmt::Formatter<W>) -> fmt::Result {
        match *self {
            About::Records(about) => about.fmt(f),
            About::Meet(meet) => write!(
                f,
                " tlid {} segment {} tlid {} segment {} at {} {} {}",
                meet.tlid, meet.s, meet.other, meet.t, meet.at.x, meet.at.y, meet.at.d
            ),
            About::Darts { node, first, next } => {
                write!(f, " at {} {} darts {first} {next}", node.x, node.y)
            }
            About::PolygonAlone(polygon) => write!(f, " polygon {polygon}"),
            About::PolygonTlid(polygon, tlid) => write!(f, " polygon {polygon} tlid {tlid}"),
            About::PolygonOther(polygon, other) => { write!(f, " polygon {polygon} other {other}") }
            About::Cells(odds) => write!(
                f,
                " darts {} {} ids {} {}",
                odds.first, odds.second, odds.first_id, odds.second_id
            ),
            About::Faces(FaceFault::Facing { first, last }) => write!(f, " {first} {last}"),
            About::Faces(FaceFault::Outward { face, way }) => write!(f, " {face} outside {way}"),
        }
    }
}
