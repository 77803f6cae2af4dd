//! The lines of landmarks.

ghost use Rattle.std.specs.Prelude.{◌<◌, ◌++◌, All, codes, decimal, length};
ghost use Rattle.tigertopo_program.specs.Print.Printing.{polygon_text, listed_text, polygons_text, place_text, landmark_text};
ghost use Rattle.tigertopo_program.specs.Print.Printing.{landmark_count_text, listing_text};

use crate::print::chains::print_point;
use tl_cert_output::Page;
use tl_geom::Point;
use tl_list_text::print_key;
use tl_map_county::{Landmark, Map};

/// Prints a line for each landmark, with the keys of its polygons, and a line of their number.
pub fn print_landmarks<P: Page>(map: &Map, page: &mut P)
    ensures { P.adds page.old page.new (listing_text map.now) }
{
    for number in 0..map.landmarks() {
        print_landmark(map, &map.landmark(number), page);
    }
    print_count(map.landmarks(), page);
}

fn print_count<P: Page>(count: u32, page: &mut P)
    ensures { P.adds page.old page.new (landmark_count_text count) }
{
    page.add(b"landmarks=");
    page.number(count);
    page.add(b"\n");
}

fn print_landmark<P: Page>(map: &Map, landmark: &Landmark<'_>, page: &mut P)
    requires { All (λ p. p < length map.now.polygons) landmark.now.polygons.now }
    ensures { P.adds page.old page.new
        (landmark_text map.now.polygons
        (record { land = landmark.now.land; point = landmark.now.point; polygons = landmark.now.polygons.now })) }
{
    print_place(landmark.land, landmark.point, page);
    page.add(b" polygons");
    print_listed(map, landmark.polygons, page);
    page.add(b"\n");
}

// The beginning of a landmark's line: its LAND, and whether it is an area or where its point lies.
fn print_place<P: Page>(land: u64, point: Option<Point>, page: &mut P)
    ensures { P.adds page.old page.new (codes "land " ++ decimal land ++ place_text point) }
{
    page.add(b"land ");
    page.number(land);
    match point {
        None => page.add(b" area"),
        Some(point) => {
            page.add(b" point");
            print_point(point, page);
        }
    }
}

/// Prints the keys of the polygons with these numbers, or that there are none.
pub fn print_listed<P: Page>(map: &Map, numbers: &[u32], page: &mut P)
    requires { All (λ p. p < length map.now.polygons) numbers.now }
    ensures { P.adds page.old page.new (listed_text map.now.polygons numbers.now) }
{
    if numbers.is_empty() {
        return page.add(b" none");
    }
    print_polygons(map, numbers, page);
}

fn print_polygons<P: Page>(map: &Map, numbers: &[u32], page: &mut P)
    requires { All (λ p. p < length map.now.polygons) numbers.now }
    ensures { P.adds page.old page.new (polygons_text map.now.polygons numbers.now) }
{
    for number in numbers {
        print_polygon(map, *number, page);
    }
}

fn print_polygon<P: Page>(map: &Map, number: u32, page: &mut P)
    requires { number < length map.now.polygons }
    ensures { P.adds page.old page.new (polygon_text map.now.polygons number) }
{
    page.add(b" ");
    print_key(map.polygon(number).key, page);
}
