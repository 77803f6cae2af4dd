//! Features of landmarks' points.

ghost use Rattle.std.specs.Prelude.{◌≡◌, ◌+◌, ◌<◌, ◌^◌, [], ◌∷◌, length, option_map};
ghost use Rattle.tl_map_county.specs.declared.sides.Side.TheVariants as side;
ghost use Rattle.tigertopo_pictures.specs.Geojson.Features.{comma_before, side_text, landmark_text, with_points, landmark_features};
ghost use Rattle.tigertopo_pictures.specs.Items.{separated};

use crate::geojson::features::{print_file, print_lead, print_side};
use crate::geojson::positions::print_position;
use tl_cert_output::Page;
use tl_geom::Point;
use tl_map_county::{Landmark, Map, Side};

/// Prints the landmarks of a map that have a point, before which so many features stand.
pub fn print_landmarks<P: Page>(map: &Map, before: u64, file: Option<&str>, page: &mut P)
    requires { before < 2 ^ 34 }
    ensures { P.adds page.old page.new
        (landmark_features (option_map (λ name. name.now) file.entry) before map.now.polygons map.now.landmarks) }
{
    let mut told = before;
    for number in 0..map.landmarks() {
        told = print_pointed(map, &map.landmark(number), told, file, page);
    }
}

// Prints a landmark if it has a point, and says how many features stand then.
fn print_pointed<P: Page>(
    map: &Map,
    landmark: &Landmark<'_>,
    before: u64,
    file: Option<&str>,
    page: &mut P,
) -> u64
    requires { before < 2 ^ 35 }
    ensures counted { result ≡ before + length (with_points
        (record { land = landmark.now.land; point = landmark.now.point; polygons = landmark.now.polygons.now } ∷ [])) }
    ensures prints { P.adds page.old page.new
        (landmark_features (option_map (λ name. name.now) file.entry) before map.now.polygons
        (record { land = landmark.now.land; point = landmark.now.point; polygons = landmark.now.polygons.now } ∷ [])) }
{
    match landmark.point {
        Some(point) => {
            print_lead(before, page);
            print_landmark(map, landmark, point, file, page);
            before + 1
        }
        None => before,
    }
}

// Prints a landmark, which lies at this point.
fn print_landmark<P: Page>(
    map: &Map,
    landmark: &Landmark<'_>,
    point: Point,
    file: Option<&str>,
    page: &mut P,
)
    ensures { P.adds page.old page.new
        (landmark_text (option_map (λ name. name.now) file.entry) map.now.polygons landmark.now.land point landmark.now.polygons.now) }
{
    page.add(b"{\"type\":\"Feature\",\"geometry\":{\"type\":\"Point\",\"coordinates\":");
    print_position(point, page);
    page.add(b"},\"properties\":{\"land\":");
    page.number(landmark.land);
    page.add(b",\"polygons\":[");
    print_keys(map, landmark.polygons, page);
    page.add(b"]");
    print_file(file, page);
    page.add(b"}}");
}

// Prints the keys of polygons with a comma between two.
fn print_keys<P: Page>(map: &Map, polygons: &[u32], page: &mut P)
    ensures { P.adds page.old page.new
        (separated (λ p. side_text map.now.polygons (side.Polygon p)) polygons.now) }
{
    for (place, polygon) in polygons.iter().enumerate() {
        page.add(comma(place));
        print_side(map, Side::Polygon(*polygon), page);
    }
}

// What stands before the item at a place of a list.
fn comma<'a>(place: usize) -> &'a [u8]
    ensures { result.now ≡ comma_before place }
{
    if place == 0 { b"" } else { b"," }
}
