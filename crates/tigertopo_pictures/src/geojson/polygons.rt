//! Features of polygons' points, and the landmarks of polygons.

ghost use Rattle.std.specs.Prelude.{◌≡◌, ◌+◌, ◌<◌, ◌≤◌, ◌++◌, option_map, [], ◌∷◌};
ghost use Rattle.std.specs.Prelude.{IfOk, OnOk, Some, length};
ghost use Rattle.std.specs.List.{flat_map};
ghost use Rattle.tigertopo_pictures.specs.Groups.{AreGroups};
ghost use Rattle.tigertopo_pictures.specs.Geojson.Features.{features_below, linked_lands, linked_polygons, polygon_feature};

use crate::geojson::features::{print_file, print_lead};
use crate::geojson::positions::print_position;
use crate::geojson::strings::print_key_members;
use crate::groups::Groups;
use crate::items::{Items, print_separated};
use std::alloc::{AllocError, Global};
use tl_cert_output::Page;
use tl_map_county::{Landmark, Map};

/// Of each link of a landmark with a polygon the LAND, and the polygon.
pub fn list_links(alloc: Global, map: &Map) -> Result<(Vec<u64>, Vec<Option<u32>>), AllocError>
    ensures lands { IfOk result (λ links. links.0.items ≡ linked_lands map.now.landmarks) }
    ensures polygons { IfOk result (λ links. links.1.items ≡ linked_polygons map.now.landmarks) }
{
    let mut lands = Vec::new(alloc);
    let mut polygons = Vec::new(alloc);
    for number in 0..map.landmarks() {
        add_links(&map.landmark(number), &mut lands, &mut polygons)?;
    }
    Ok((lands, polygons))
}

// Adds the links of a landmark.
fn add_links(
    landmark: &Landmark<'_>,
    lands: &mut Vec<u64>,
    polygons: &mut Vec<Option<u32>>,
) -> Result<(), AllocError>
    ensures lands { OnOk result (lands.new.items ≡ lands.old.items ++ flat_map (λ p. landmark.now.land ∷ []) landmark.now.polygons.now) }
    ensures polygons { OnOk result (polygons.new.items ≡ polygons.old.items ++ flat_map (λ p. Some p ∷ []) landmark.now.polygons.now) }
{
    for polygon in landmark.polygons {
        lands.push(landmark.land)?;
        polygons.push(Some(*polygon))?;
    }
    Ok(())
}

/// Prints the first so many polygons of a map, before which so many features stand: their points, keys and landmarks.
pub fn print_polygons<P: Page>(
    map: &Map,
    before: u32,
    count: u32,
    file: Option<&str>,
    lands: &[u64],
    links: &Groups,
    page: &mut P,
)
    requires count { count ≤ length map.now.polygons }
    requires lands { lands.now ≡ linked_lands map.now.landmarks }
    requires links { AreGroups (length map.now.polygons) (linked_polygons map.now.landmarks) links.now }
    requires beside { length lands.now ≡ length links.now.next }
    ensures { P.adds page.old page.new
        (features_below before (polygon_feature (option_map (λ name. name.now) file.entry) map.now) count) }
{
    for number in 0..count {
        print_lead(u64::from(before) + u64::from(number), page);
        print_polygon(map, number, file, lands, links, page);
    }
}

// Prints the polygon of this number.
fn print_polygon<P: Page>(
    map: &Map,
    number: u32,
    file: Option<&str>,
    lands: &[u64],
    links: &Groups,
    page: &mut P,
)
    requires number { number < length map.now.polygons }
    requires lands { lands.now ≡ linked_lands map.now.landmarks }
    requires links { AreGroups (length map.now.polygons) (linked_polygons map.now.landmarks) links.now }
    requires beside { length lands.now ≡ length links.now.next }
    ensures { P.adds page.old page.new
        (polygon_feature (option_map (λ name. name.now) file.entry) map.now number) }
{
    let polygon = map.polygon(number);
    page.add(b"{\"type\":\"Feature\",\"geometry\":{\"type\":\"Point\",\"coordinates\":");
    print_position(polygon.point, page);
    page.add(b"},\"properties\":{");
    print_key_members(polygon.key, page);
    page.add(b",\"landmarks\":[");
    print_separated(&Lands { lands }, links, number, page);
    page.add(b"]");
    print_file(file, page);
    page.add(b"}}");
}

// The LANDs of links.
#[derive(Clone, Copy)]
struct Lands<'a> {
    lands: &'a [u64],
}

impl Items for Lands<'_> {
    ghost use Rattle.std.specs.Prelude.{◌<◌, decimal, length, slice_index_or};

    ghost text = { λ links n. decimal (slice_index_or links.lands.now n 0) };

    ghost has = { λ links n. n < length links.lands.now };

    fn print<P: Page>(&self, number: usize, page: &mut P) {
        page.number(self.lands[number]);
    }
}
