//! The records of a chain.

ghost use Rattle.std.specs.Prelude.{◌≡◌, ◌<◌, ◌≤◌, ◌^◌, ◌||◌, length};
ghost use Rattle.tl_map_county.specs.Chains.{IsProperChain};
ghost use Rattle.tigertopo_border.specs.Whole.Homes.{is_blank};
ghost use Rattle.tigertopo_border.specs.Spelling.{records_text};
ghost use Rattle.tigertopo_border.specs.Border.{border_key, side_key, inner, shapes_below, shape_count, chain_records};

use crate::lines::{print_chain_line, print_shape_line, print_sides_line};
use tl_cert_output::Page;
use tl_geom::Point;
use tl_map_county::{Chain, Side};
use tl_record_key::PolyKey;

/// Whether a chain is of the border: it names a polygon on one side at most.
pub fn has_blank(chain: &Chain<'_>) -> bool
    ensures { result ≡ (is_blank chain.now.left || is_blank chain.now.right) }
{
    is_blank(chain.left) || is_blank(chain.right)
}

// Whether a side is no polygon.
fn is_blank(side: Side) -> bool
    ensures { result ≡ is_blank side }
{
    match side {
        Side::Outside => true,
        Side::Polygon(_) => false,
    }
}

/// The key of the border's one polygon.
pub fn border_key(name: [u8; 5]) -> PolyKey
    ensures { result ≡ border_key name }
{
    PolyKey {
        cenid: name,
        polyid: 1,
    }
}

// What lies on a side of the border's chain.
fn side_key(name: [u8; 5], side: Side) -> Option<PolyKey>
    ensures { result ≡ side_key name side }
{
    match side {
        Side::Outside => None,
        Side::Polygon(_) => Some(border_key(name)),
    }
}

/// Prints the records of a chain of the border.
pub fn print_chain<P: Page>(name: [u8; 5], chain: &Chain<'_>, page: &mut P)
    requires proper { IsProperChain chain.now.points.now }
    requires few { length chain.now.points.now < 2 ^ 32 }
    ensures { P.adds page.old page.new (records_text (chain_records name chain.now.tlid chain.now.points.now chain.now.left chain.now.right)) }
{
    let points = chain.points;
    print_chain_line(chain.tlid, points[0], points[points.len() - 1], page);
    print_shapes(chain.tlid, points, page);
    print_sides_line(
        chain.tlid,
        side_key(name, chain.left),
        side_key(name, chain.right),
        page,
    );
}

// Prints the type 2 records of a chain.
fn print_shapes<P: Page>(tlid: u64, points: &[Point], page: &mut P)
    requires several { 2 ≤ length points.now }
    requires few { length points.now < 2 ^ 32 }
    ensures { P.adds page.old page.new (records_text (shapes_below tlid (inner points.now) (shape_count points.now))) }
{
    let count = (points.len() - 2 + 9) / 10;
    for number in 0..count {
        print_shape_line(tlid, number as u64 + 1, points, 10 * number, page);
    }
}
