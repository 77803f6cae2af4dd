//! Features of polygons: their shapes, of rings.

ghost use Rattle.std.specs.Prelude.{◌≡◌, ◌+◌, ◌*◌, ◌<◌, ◌≤◌, ◌^◌, ◌++◌};
ghost use Rattle.std.specs.Prelude.{option_map, ℕ, List, length, map as map_list, slice_index};
ghost use Rattle.tl_check_sides.specs.Walks.{AreWalks};
ghost use Rattle.tigertopo_pictures.specs.Groups.{GoesThrough, AreGroups};
ghost use Rattle.tigertopo_pictures.specs.Geojson.Areas.{AreAreas, half_part, half_text};
ghost use Rattle.tigertopo_pictures.specs.Geojson.Features.{features_below};
ghost use Rattle.tigertopo_pictures.specs.Geojson.Holes.{outer_polygon, home};
ghost use Rattle.tigertopo_pictures.specs.Geojson.Rings.{shape_opening, shape_closing, shape_text};
ghost use Rattle.tigertopo_pictures.specs.Geojson.Rings.{boundary_feature};

use crate::geojson::features::{print_file, print_lead};
use crate::geojson::metres::print_metres;
use crate::geojson::positions::{Positions, sign};
use crate::geojson::strings::print_key_members;
use crate::groups::Groups;
use crate::items::{Items, print_items, print_separated};
use crate::rings::Rings;
use tl_cert_output::Page;
use tl_map_county::Map;

/// Prints the first so many of a map's polygons, before which so many features stand. `outers` are the outer rings of each, and
/// `holes` the holes of each ring.
pub fn print_boundaries<P: Page>(
    map: &Map,
    before: u64,
    count: u32,
    file: Option<&str>,
    walks: &[Vec<u32>],
    outers: &Groups,
    holes: &Groups,
    areas: &[i128],
    page: &mut P,
)
    requires before { before < 2 ^ 33 }
    requires count { count ≤ length map.now.polygons }
    requires walks { AreWalks map.now.chains (map_list (λ w. w.items) walks.now) }
    requires outers { AreGroups (length map.now.polygons)
        (map_list (outer_polygon map.now.chains) (map_list (λ w. w.items) walks.now)) outers.now }
    requires holes { AreGroups (length walks.now)
        (map_list (home map.now.chains (map_list (λ w. w.items) walks.now)) (map_list (λ w. w.items) walks.now)) holes.now }
    requires areas { AreAreas map.now areas.now }
    ensures { P.adds page.old page.new
        (features_below before (boundary_feature (option_map (λ name. name.now) file.entry) map.now (map_list (λ w. w.items) walks.now)) count) }
{
    for number in 0..count {
        print_lead(before + u64::from(number), page);
        print_boundary(map, number, file, walks, outers, holes, areas, page);
    }
}

// Prints the polygon of this number.
fn print_boundary<P: Page>(
    map: &Map,
    number: u32,
    file: Option<&str>,
    walks: &[Vec<u32>],
    outers: &Groups,
    holes: &Groups,
    areas: &[i128],
    page: &mut P,
)
    requires number { number < length map.now.polygons }
    requires walks { AreWalks map.now.chains (map_list (λ w. w.items) walks.now) }
    requires outers { AreGroups (length map.now.polygons)
        (map_list (outer_polygon map.now.chains) (map_list (λ w. w.items) walks.now)) outers.now }
    requires holes { AreGroups (length walks.now)
        (map_list (home map.now.chains (map_list (λ w. w.items) walks.now)) (map_list (λ w. w.items) walks.now)) holes.now }
    requires areas { AreAreas map.now areas.now }
    ensures { P.adds page.old page.new
        (boundary_feature (option_map (λ name. name.now) file.entry) map.now (map_list (λ w. w.items) walks.now) number) }
{
    let polygon = map.polygon(number);
    page.add(b"{\"type\":\"Feature\",\"geometry\":");
    print_shape(map, walks, outers, holes, number, page);
    page.add(b",\"properties\":{");
    print_key_members(polygon.key, page);
    page.add(b",\"area\":\"");
    print_half(areas[number as usize], page);
    page.add(b"\",\"square_metres_rounded\":");
    print_metres(areas[number as usize], polygon.point, page);
    print_file(file, page);
    page.add(b"}}");
}

// Prints the shape of a polygon.
fn print_shape<P: Page>(
    map: &Map,
    walks: &[Vec<u32>],
    outers: &Groups,
    holes: &Groups,
    polygon: u32,
    page: &mut P,
)
    requires walks { AreWalks map.now.chains (map_list (λ w. w.items) walks.now) }
    requires holes { AreGroups (length walks.now)
        (map_list (home map.now.chains (map_list (λ w. w.items) walks.now)) (map_list (λ w. w.items) walks.now)) holes.now }
    requires polygon { polygon < length outers.now.first }
    requires beside { length walks.now ≡ length outers.now.next }
    ensures { (ns : List ℕ) → GoesThrough outers.now.next (slice_index outers.now.first polygon) ns →
        P.adds page.old page.new
        (shape_text map.now.chains (map_list (λ w. w.items) walks.now) ns) }
{
    let is_one = outers.has_one(polygon);
    let pen = Positions;
    let parts = Parts {
        rings: Rings { pen, map, walks },
        holes,
    };
    page.add(opening(is_one));
    print_separated(&parts, outers, polygon, page);
    page.add(closing(is_one));
}

// How a shape begins.
fn opening<'a>(is_one: bool) -> &'a [u8]
    ensures { result.now ≡ shape_opening is_one }
{
    if is_one {
        b"{\"type\":\"Polygon\",\"coordinates\":"
    } else {
        b"{\"type\":\"MultiPolygon\",\"coordinates\":["
    }
}

// How it ends.
fn closing<'a>(is_one: bool) -> &'a [u8]
    ensures { result.now ≡ shape_closing is_one }
{
    if is_one { b"}" } else { b"]}" }
}

// Outer rings with their holes, by the numbers of the outer rings' walks.
#[derive(Clone, Copy)]
struct Parts<'a> {
    rings: Rings<'a, Positions>,
    holes: &'a Groups,
}

impl Items for Parts<'_> {
    ghost use Rattle.std.specs.Prelude.{◌<◌, length, map as map_list};
    ghost use Rattle.tl_check_sides.specs.Walks.{AreWalks};
    ghost use Rattle.tigertopo_pictures.specs.Groups.{AreGroups};
    ghost use Rattle.tigertopo_pictures.specs.Geojson.Holes.{home};
    ghost use Rattle.tigertopo_pictures.specs.Geojson.Rings.{part_text};

    ghost text = { λ parts n. part_text parts.rings.map.now.chains (map_list (λ w. w.items) parts.rings.walks.now) n };

    ghost has = { λ parts n.
        let walks = map_list (λ w. w.items) parts.rings.walks.now in
        AreWalks parts.rings.map.now.chains walks
        × AreGroups (length parts.rings.walks.now) (map_list (home parts.rings.map.now.chains walks) walks) parts.holes.now
        × (n < length parts.rings.walks.now) };

    fn print<P: Page>(&self, number: usize, page: &mut P) {
        // So walks are fewer than 2^32.
        let _darts = self.rings.map.darts();
        page.add(b"[[");
        self.rings.print(number, page);
        page.add(b"]");
        let first = self.holes.first(number as u32);
        print_items(&self.rings, b",[", b"]", self.holes, first, page);
        page.add(b"]");
    }
}

// Prints half of a number.
fn print_half<P: Page>(doubled: i128, page: &mut P)
    ensures { P.adds page.old page.new (half_text doubled) }
{
    let size = doubled.unsigned_abs();
    page.add(sign(doubled < 0));
    page.number(size / 2);
    page.add(point_five(size % 2 != 0));
}

// What stands behind a number that is half an odd one.
fn point_five<'a>(is_odd: bool) -> &'a [u8]
    ensures { result.now ≡ half_part is_odd }
{
    if is_odd { b".5" } else { b"" }
}
