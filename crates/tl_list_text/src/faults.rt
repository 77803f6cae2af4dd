//! What is told of faults: their lines, and the words in them.

ghost use Rattle.tl_cert_output.specs.Writing.{line_of};
ghost use Rattle.tl_map_rules.specs.Messages.{about_records_text};
ghost use Rattle.tl_check_faces.specs.FaultTexts.{rational_text, side_text, named_face_text};
ghost use Rattle.tl_check_verdict.specs.Rows.{row};
ghost use Rattle.tl_check_verdict.specs.Messages.{about_text, row_text, map_fault_text, segment_text, node_text};
ghost use Rattle.tl_check_verdict.specs.declared.rows.About.TheVariants.{Meet as AboutMeet, Darts, Cells, Faces};

use crate::keys::print_key;
use tl_cert_output::Page;
use tl_check_faces::{FaceFault, NamedFace};
use tl_check_planar::Meet;
use tl_check_sides::cells::CellsAtOdds;
use tl_check_verdict::{About, MapFault, row};
use tl_geom::{Point, Rational};
use tl_map_rules::AboutRecords;
use tl_record_key::PolyKey;

/// Prints the line of a fault.
pub fn print_fault<P: Page>(fault: &MapFault, page: &mut P)
    ensures { P.adds page.old page.new (line_of (map_fault_text fault.now)) }
{
    page.add(b"map fault ");
    print_fault_words(fault, page);
    page.add(b"\n");
}

/// Prints the code and the name of a fault, and what it is about.
pub fn print_fault_words<P: Page>(fault: &MapFault, page: &mut P)
    ensures { P.adds page.old page.new (row_text (row fault.now)) }
{
    let says = row(fault);
    page.add(says.code.as_bytes());
    page.add(b" ");
    page.add(says.name.as_bytes());
    print_about(&says.about, page);
}

// Prints what a fault is about.
fn print_about<P: Page>(about: &About, page: &mut P)
    ensures { P.adds page.old page.new (about_text about.now) }
{
    match about {
        About::Records(about) => print_records(about, page),
        About::Meet(meet) => print_meet(meet, page),
        About::Darts { node, first, next } => print_darts(*node, *first, *next, page),
        About::PolygonAlone(polygon) => {
            page.add(b" polygon ");
            print_key(*polygon, page);
        }
        About::PolygonTlid(polygon, tlid) => {
            page.add(b" polygon ");
            print_key(*polygon, page);
            page.add(b" tlid ");
            page.number(*tlid);
        }
        About::PolygonOther(polygon, other) => {
            page.add(b" polygon ");
            print_key(*polygon, page);
            page.add(b" other ");
            print_key(*other, page);
        }
        About::Cells(odds) => print_cells(odds, page),
        About::Faces(fault) => print_faces(fault, page),
    }
}

// Prints what a fault of the records is about.
fn print_records<P: Page>(about: &AboutRecords, page: &mut P)
    ensures { P.adds page.old page.new (about_records_text about.now) }
{
    match about {
        AboutRecords::Tlid(tlid, _) => {
            page.add(b" tlid ");
            page.number(*tlid);
        }
        AboutRecords::Polygon(polygon) => {
            page.add(b" polygon ");
            print_key(*polygon, page);
        }
        AboutRecords::TlidPolygon(tlid, polygon) => {
            page.add(b" tlid ");
            page.number(*tlid);
            page.add(b" polygon ");
            print_key(*polygon, page);
        }
        AboutRecords::Land(land) => {
            page.add(b" land ");
            page.number(*land);
        }
        AboutRecords::PolygonLand(polygon, land) => {
            page.add(b" polygon ");
            print_key(*polygon, page);
            page.add(b" land ");
            page.number(*land);
        }
        AboutRecords::Limit(what) => {
            page.add(b" ");
            page.add(what.word().as_bytes());
        }
        AboutRecords::Types(lacking) => {
            page.add(b" types");
            page.add(lacking.types().as_bytes());
        }
    }
}

// Prints two segments, and where they meet.
fn print_meet<P: Page>(meet: &Meet, page: &mut P)
    ensures { P.adds page.old page.new (about_text (AboutMeet meet.now)) }
{
    page.add(b" ");
    print_segment(meet.tlid, meet.s, page);
    page.add(b" ");
    print_segment(meet.other, meet.t, page);
    page.add(b" at ");
    print_rational(&meet.at, page);
}

// Prints a segment: the TLID of its chain, and its number among all segments.
fn print_segment<P: Page>(tlid: u64, number: u32, page: &mut P)
    ensures { P.adds page.old page.new (segment_text tlid number) }
{
    page.add(b"tlid ");
    page.number(tlid);
    page.add(b" segment ");
    page.number(number);
}

// Prints a rational point: two numerators and their denominator.
fn print_rational<P: Page>(at: &Rational, page: &mut P)
    ensures { P.adds page.old page.new (rational_text at.now) }
{
    page.number(at.x);
    page.add(b" ");
    page.number(at.y);
    page.add(b" ");
    page.number(at.d);
}

// Prints a node, and two darts there.
fn print_darts<P: Page>(node: Point, first: u32, next: u32, page: &mut P)
    ensures { P.adds page.old page.new (about_text (Darts node first next)) }
{
    page.add(b" at ");
    print_node(node, page);
    page.add(b" darts ");
    page.number(first);
    page.add(b" ");
    page.number(next);
}

// Prints the point of a node: its longitude and its latitude.
fn print_node<P: Page>(node: Point, page: &mut P)
    ensures { P.adds page.old page.new (node_text node) }
{
    page.number(node.x);
    page.add(b" ");
    page.number(node.y);
}

// Prints two darts, and their ids.
fn print_cells<P: Page>(odds: &CellsAtOdds, page: &mut P)
    ensures { P.adds page.old page.new (about_text (Cells odds.now)) }
{
    page.add(b" darts ");
    page.number(odds.first);
    page.add(b" ");
    page.number(odds.second);
    page.add(b" ids ");
    page.number(odds.first_id);
    page.add(b" ");
    page.number(odds.second_id);
}

// Prints what each of two segments names toward the other, or one alone toward the outside, and the way there.
fn print_faces<P: Page>(fault: &FaceFault, page: &mut P)
    ensures { P.adds page.old page.new (about_text (Faces fault.now)) }
{
    page.add(b" ");
    match fault {
        FaceFault::Facing { first, last } => {
            print_face(first, page);
            page.add(b" ");
            print_face(last, page);
        }
        FaceFault::Outward { face, way } => {
            print_face(face, page);
            page.add(b" outside ");
            page.add(way.word().as_bytes());
        }
    }
}

// Prints a face: the TLID of its chain, what it names, and a place of it.
fn print_face<P: Page>(face: &NamedFace, page: &mut P)
    ensures { P.adds page.old page.new (named_face_text face.now) }
{
    page.add(b"tlid ");
    page.number(face.tlid);
    page.add(b" ");
    print_side(face.polygon, page);
    page.add(b" at ");
    print_rational(&face.at, page);
}

// Prints a polygon, or that it is the outside.
fn print_side<P: Page>(polygon: Option<PolyKey>, page: &mut P)
    ensures { P.adds page.old page.new (side_text polygon) }
{
    match polygon {
        Some(key) => {
            page.add(b"polygon ");
            print_key(key, page);
        }
        None => page.add(b"outside"),
    }
}
