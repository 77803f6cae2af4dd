//! The records of a border.

ghost use Rattle.std.specs.Prelude.{◌≡◌, ◌<◌, ◌≤◌, length, take};
ghost use Rattle.std.specs.List.{flat_map};
ghost use Rattle.tigertopo_border.specs.Spelling.{records_text};
ghost use Rattle.tigertopo_border.specs.Border.{records_of_chain, records_at, polygon_records, border_text};

use crate::chain::{border_key, has_blank, print_chain};
use crate::lines::print_point_line;
use tl_cert_output::Page;
use tl_map_county::Map;

/// Prints the records of a map's border, whose one polygon has this CENID: its chains that name a polygon on one side at most, by rising
/// TLID, and its polygon's point.
pub fn print_border<P: Page>(map: &Map, name: [u8; 5], page: &mut P)
    ensures { P.adds page.old page.new (border_text name map.now) }
{
    print_chains(map, name, page);
    print_polygon(map, name, page);
}

// Prints the records of its chains.
fn print_chains<P: Page>(map: &Map, name: [u8; 5], page: &mut P)
    ensures { P.adds page.old page.new (records_text (flat_map (records_of_chain name) map.now.chains)) }
{
    for number in 0..map.chains() {
        print_if_blank(map, number, name, page);
    }
}

// Prints the records of the chain of this number, if it is of the border.
fn print_if_blank<P: Page>(map: &Map, number: u32, name: [u8; 5], page: &mut P)
    requires { number < length map.now.chains }
    ensures { P.adds page.old page.new (records_text (records_at name map.now number)) }
{
    // so that the number of the chain's points fits
    map.segments();
    let chain = map.chain(number);
    if has_blank(&chain) {
        print_chain(name, &chain, page);
    }
}

// Prints the record of its polygon, if the map has one.
fn print_polygon<P: Page>(map: &Map, name: [u8; 5], page: &mut P)
    ensures { P.adds page.old page.new (records_text (polygon_records name map.now.polygons)) }
{
    if 0 < map.polygons() {
        print_point_line(border_key(name), map.polygon(0).point, page);
    }
}
