//! Features: chains, and polygons' points.

ghost use Rattle.std.specs.Prelude.{◌≡◌, ◌<◌, ◌≤◌, length, option_map};
ghost use Rattle.tigertopo_pictures.specs.Geojson.Features.{is_shown, shown, lead, features_below, file_member, side_text, chain_text, chain_feature};

use crate::geojson::positions::print_positions;
use crate::geojson::strings::{print_key, print_string};
use tigertopo_words::Layer;
use tl_cert_output::Page;
use tl_map_county::{Chain, Map, Side};

/// Whether features of this kind are in a file of one layer, or of all.
pub fn is_shown(layer: Option<Layer>, kind: Layer) -> bool
    ensures { result ≡ is_shown layer kind }
{
    match (layer, kind) {
        (None, _) => true,
        (Some(Layer::Chains), Layer::Chains) => true,
        (Some(Layer::Points), Layer::Points) => true,
        (Some(Layer::Polygons), Layer::Polygons) => true,
        (Some(Layer::Landmarks), Layer::Landmarks) => true,
        _ => false,
    }
}

/// How many of so many features of a kind are.
pub fn shown(layer: Option<Layer>, kind: Layer, number: u32) -> u32
    ensures { result ≡ shown layer kind number }
{
    if is_shown(layer, kind) { number } else { 0 }
}

/// Prints the file of a feature, by its name, if one is told.
pub fn print_file<P: Page>(file: Option<&str>, page: &mut P)
    ensures { P.adds page.old page.new
        (file_member (option_map (λ name. name.now) file.entry)) }
{
    if let Some(name) = file {
        page.add(b",\"file\":");
        print_string(name.as_bytes(), page);
    }
}

/// Prints what stands before a feature, before which so many others stand.
pub fn print_lead<P: Page>(before: u64, page: &mut P)
    ensures { P.adds page.old page.new (lead before) }
{
    if before == 0 {
        page.add(b"\n");
    } else {
        page.add(b",\n");
    }
}

/// Prints the first so many chains of a map.
pub fn print_chains<P: Page>(map: &Map, count: u32, file: Option<&str>, page: &mut P)
    requires { count ≤ length map.now.chains }
    ensures { P.adds page.old page.new
        (features_below 0 (chain_feature (option_map (λ name. name.now) file.entry) map.now) count) }
{
    for number in 0..count {
        print_lead(u64::from(number), page);
        print_chain(map, number, file, page);
    }
}

/// Prints the chain of this number, with its file if one is told.
pub fn print_chain<P: Page>(map: &Map, number: u32, file: Option<&str>, page: &mut P)
    requires { number < length map.now.chains }
    ensures { P.adds page.old page.new
        (chain_feature (option_map (λ name. name.now) file.entry) map.now number) }
{
    print_line(map, &map.chain(number), file, page);
}

// Prints a chain: its line, its TLID, its sides and its file.
fn print_line<P: Page>(map: &Map, chain: &Chain<'_>, file: Option<&str>, page: &mut P)
    requires { 0 < length chain.now.points.now }
    ensures { P.adds page.old page.new
        (chain_text (option_map (λ name. name.now) file.entry) map.now.polygons chain.now.tlid chain.now.points.now chain.now.left chain.now.right) }
{
    page.add(b"{\"type\":\"Feature\",\"geometry\":{\"type\":\"LineString\",\"coordinates\":[");
    print_positions(chain.points, page);
    page.add(b"]},\"properties\":{\"tlid\":");
    page.number(chain.tlid);
    page.add(b",\"left\":");
    print_side(map, chain.left, page);
    page.add(b",\"right\":");
    print_side(map, chain.right, page);
    print_file(file, page);
    page.add(b"}}");
}

/// Prints what lies on a side.
pub fn print_side<P: Page>(map: &Map, side: Side, page: &mut P)
    ensures { P.adds page.old page.new (side_text map.now.polygons side) }
{
    match side {
        Side::Polygon(number) if number < map.polygons() => {
            print_key(map.polygon(number).key, page);
        }
        _ => page.add(b"null"),
    }
}
