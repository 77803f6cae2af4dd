//! What a fault is about, beside the TLIDs, the polygons and the LAND that it names.

ghost use Rattle.std.specs.Prelude.{◌≡◌, codes};
ghost use Rattle.tigertopo_faults.specs.Objects.About.{details_text, face_text, faces_text, lacking_members, limit_text, named_text, node_text, pair_text, type_strings};

use crate::objects::place::print_fractions;
use tigertopo_pictures::geojson::print_key;
use tl_cert_output::Page;
use tl_check_faces::{FaceFault, NamedFace};
use tl_check_verdict::About;
use tl_geom::Point;
use tl_map_rules::{AboutRecords, Lacking, Limited};
use tl_record::PolyKey;

/// Prints the segments by their numbers through all chains, the node, the darts, the ids of zero-cells, the faces, what there are too many
/// of, or the types of which there is no record.
pub fn print_details<P: Page>(about: &About, page: &mut P)
    ensures { P.adds page.old page.new (details_text about.now) }
{
    match about {
        About::Records(AboutRecords::Limit(what)) => print_limit(*what, page),
        About::Records(AboutRecords::Types(lacking)) => print_types(*lacking, page),
        About::Meet(meet) => print_pair(
            b",\"segments\":",
            u64::from(meet.s),
            u64::from(meet.t),
            page,
        ),
        About::Darts { node, first, next } => {
            print_node(*node, page);
            print_darts(*first, *next, page);
        }
        About::Cells(odds) => {
            print_darts(odds.first, odds.second, page);
            print_pair(b",\"ids\":", odds.first_id, odds.second_id, page);
        }
        About::Faces(fault) => print_faces(fault, page),
        _ => {}
    }
}

// Prints what there are too many of.
fn print_limit<P: Page>(what: Limited, page: &mut P)
    ensures { P.adds page.old page.new (limit_text what) }
{
    page.add(b",\"limit\":\"");
    page.add(what.word().as_bytes());
    page.add(b"\"");
}

// Prints the types of which there is no record.
fn print_types<P: Page>(lacking: Lacking, page: &mut P)
    ensures { P.adds page.old page.new (lacking_members lacking) }
{
    page.add(b",\"types\":[");
    page.add(type_strings(lacking));
    page.add(b"]");
}

fn type_strings<'a>(lacking: Lacking) -> &'a [u8]
    ensures { result.now ≡ type_strings lacking.chains lacking.sides lacking.polygons }
{
    match (lacking.chains, lacking.sides, lacking.polygons) {
        (true, true, true) => b"\"1\",\"I\",\"P\"",
        (true, true, false) => b"\"1\",\"I\"",
        (true, false, true) => b"\"1\",\"P\"",
        (true, false, false) => b"\"1\"",
        (false, true, true) => b"\"I\",\"P\"",
        (false, true, false) => b"\"I\"",
        (false, false, true) => b"\"P\"",
        (false, false, false) => b"",
    }
}

// Prints two darts by their numbers.
fn print_darts<P: Page>(one: u32, other: u32, page: &mut P)
    ensures { P.adds page.old page.new (pair_text (codes ",\"darts\":") one other) }
{
    print_pair(b",\"darts\":", u64::from(one), u64::from(other), page);
}

// Prints two numbers behind this name.
fn print_pair<P: Page>(name: &[u8], one: u64, other: u64, page: &mut P)
    ensures { P.adds page.old page.new (pair_text name.now one other) }
{
    page.add(name);
    page.add(b"[");
    page.number(one);
    page.add(b",");
    page.number(other);
    page.add(b"]");
}

// Prints the point of a node.
fn print_node<P: Page>(node: Point, page: &mut P)
    ensures { P.adds page.old page.new (node_text node) }
{
    page.add(b",\"node\":[");
    page.number(node.x);
    page.add(b",");
    page.number(node.y);
    page.add(b"]");
}

// Prints faces that disagree.
fn print_faces<P: Page>(fault: &FaceFault, page: &mut P)
    ensures { P.adds page.old page.new (faces_text fault.now) }
{
    page.add(b",\"faces\":[");
    match fault {
        FaceFault::Facing { first, last } => {
            print_face(first, page);
            page.add(b",");
            print_face(last, page);
            page.add(b"]");
        }
        FaceFault::Outward { face, way } => {
            print_face(face, page);
            page.add(b"],\"outside\":\"");
            page.add(way.word().as_bytes());
            page.add(b"\"");
        }
    }
}

// Prints a chain, what it names on a side, and a place of it.
fn print_face<P: Page>(face: &NamedFace, page: &mut P)
    ensures { P.adds page.old page.new (face_text face.now) }
{
    page.add(b"{\"tlid\":");
    page.number(face.tlid);
    page.add(b",\"polygon\":");
    print_named(face.polygon, page);
    page.add(b",\"at\":");
    print_fractions(face.at, page);
    page.add(b"}");
}

// Prints the key of a polygon, or null for the outside.
fn print_named<P: Page>(key: Option<PolyKey>, page: &mut P)
    ensures { P.adds page.old page.new (named_text key) }
{
    match key {
        Some(key) => print_key(key, page),
        None => page.add(b"null"),
    }
}
