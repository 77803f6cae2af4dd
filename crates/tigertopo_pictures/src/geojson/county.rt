//! A county as one FeatureCollection.

ghost use Rattle.std.specs.Prelude.{◌≡◌, ◌+◌, ◌<◌, ◌^◌, ◌++◌, IfOk, OnOk, OnErr, length, map as map_list, option_map, count_by, is_some};
ghost use Rattle.tl_check_sides.specs.Walks.{AreWalks};
ghost use Rattle.tigertopo_pictures.specs.Geojson.Features.{linked_lands, linked_polygons, collection_opening};
ghost use Rattle.tigertopo_pictures.specs.Groups.{AreGroups};
ghost use Rattle.tigertopo_pictures.specs.Geojson.Holes.{AreShapes};
ghost use Rattle.tigertopo_pictures.specs.Geojson.Rings.{chains_and_points, landmarks_text, county_text, county_text_with};
ghost use Rattle.tigertopo_pictures.specs.Geojson.Rings.{chains_shown, points_shown, polygons_shown};

use crate::geojson::areas::{doubled_areas, ring_areas};
use crate::geojson::features::{is_shown, print_chains, shown};
use crate::geojson::holes::{list_homes, list_outers};
use crate::geojson::landmarks::print_landmarks;
use crate::geojson::polygons::{list_links, print_polygons};
use crate::geojson::rings::print_boundaries;
use crate::groups::Groups;
use std::alloc::{AllocError, Global};
use std::marker::Model;
use tigertopo_words::Layer;
use tl_cert_output::Page;
use tl_map_county::Map;

/// Prints a county, or one layer of it: each chain with its TLID and its sides, each polygon's point with its key and its landmarks, and
/// each landmark's point; of each feature its file, if one is told. The error is that memory was refused, and then nothing is printed.
pub fn print_county<P: Page>(
    alloc: Global,
    map: &Map,
    layer: Option<Layer>,
    file: Option<&str>,
    page: &mut P,
) -> Result<(), AllocError>
    ensures adds { OnOk result (P.adds page.old page.new (county_text (option_map (λ name. name.now) file.entry) layer map.now)) }
    ensures none { OnErr result (page.new ≡ page.old) }
{
    let links = Links::new(alloc, map)?;
    print_front(map, layer, file, &links, page);
    print_last(map, layer, points_of(map, layer), file, page);
    page.add(b"\n]}\n");
    Ok(())
}

/// Prints a county, or one layer of it, with the shape of each polygon, whose rings are of these walks, and its area. The error is as above.
pub fn print_county_with<P: Page>(
    alloc: Global,
    map: &Map,
    layer: Option<Layer>,
    file: Option<&str>,
    walks: &[Vec<u32>],
    shapes: &Shapes,
    page: &mut P,
) -> Result<(), AllocError>
    requires walks { AreWalks map.now.chains (map_list (λ w. w.items) walks.now) }
    requires shapes { AreShapes map.now (map_list (λ w. w.items) walks.now) shapes.now }
    ensures adds { OnOk result (P.adds page.old page.new
        (county_text_with (option_map (λ name. name.now) file.entry) layer map.now (map_list (λ w. w.items) walks.now))) }
    ensures none { OnErr result (page.new ≡ page.old) }
{
    let links = Links::new(alloc, map)?;
    let areas = doubled_areas(alloc, map)?;
    print_front(map, layer, file, &links, page);
    let (outers, holes) = (&shapes.outers, &shapes.holes);
    print_boundaries(
        map,
        points_of(map, layer),
        shown(layer, Layer::Polygons, map.polygons()),
        file,
        walks,
        outers,
        holes,
        areas.as_slice(),
        page,
    );
    print_last(map, layer, shapes_of(map, layer), file, page);
    page.add(b"\n]}\n");
    Ok(())
}

// How many chains and polygons' points are written.
fn points_of(map: &Map, layer: Option<Layer>) -> u64
    ensures count { result ≡ chains_shown layer map.now + points_shown layer map.now }
    ensures bound { result < 2 ^ 33 }
{
    u64::from(shown(layer, Layer::Chains, map.chains()))
        + u64::from(shown(layer, Layer::Points, map.polygons()))
}

// How many there are with the polygons' boundaries.
fn shapes_of(map: &Map, layer: Option<Layer>) -> u64
    ensures count { result ≡ chains_shown layer map.now + points_shown layer map.now + polygons_shown layer map.now }
    ensures bound { result < 2 ^ 34 }
{
    points_of(map, layer) + u64::from(shown(layer, Layer::Polygons, map.polygons()))
}

// The links of landmarks with polygons: their LANDs, and the links of each polygon.
#[derive(Drop)]
struct Links {
    lands: Vec<u64>,
    polygons: Groups,
}

impl Links {
    fn new(alloc: Global, map: &Map) -> Result<Links, AllocError>
        ensures lands { IfOk result (λ links. links.lands.items ≡ linked_lands map.now.landmarks) }
        ensures polygons { IfOk result (λ links.
            AreGroups (length map.now.polygons) (linked_polygons map.now.landmarks) links.polygons) }
    {
        let (lands, polygons) = list_links(alloc, map)?;
        let polygons = Groups::new(alloc, polygons.as_slice(), map.polygons())?;
        Ok(Links { lands, polygons })
    }
}

/// The shapes of a sound map's polygons: which rings are the outer rings of each, and which holes lie in them.
#[derive(Drop)]
pub struct Shapes {
    outers: Groups,
    holes: Groups,
    rings: u64,
}

impl Model for Shapes {
    ghost use Rattle.tigertopo_pictures.specs.Geojson.Holes.{TheShapes};

    ghost Value = { TheShapes };

    ghost view = { λ s. record { outers = s.outers; holes = s.holes; rings = s.rings } };
}

impl Shapes {
    /// The shapes of a map whose walks these are. The error is that memory was refused.
    pub fn new(alloc: Global, map: &Map, walks: &[Vec<u32>]) -> Result<Shapes, AllocError>
        requires { AreWalks map.now.chains (map_list (λ w. w.items) walks.now) }
        ensures { IfOk result (AreShapes map.now (map_list (λ w. w.items) walks.now)) }
    {
        // So walks are fewer than 2^32.
        let _darts = map.darts();
        let areas = ring_areas(alloc, map, walks)?;
        let polygons = list_outers(alloc, map, walks, areas.as_slice())?;
        let outers = Groups::new(alloc, polygons.as_slice(), map.polygons())?;
        let homes = list_homes(alloc, map, walks, areas.as_slice(), &outers)?;
        let holes = Groups::new(alloc, homes.as_slice(), walks.len() as u32)?;
        let rings = count_some(polygons.as_slice()) + count_some(homes.as_slice());
        Ok(Shapes {
            outers,
            holes,
            rings,
        })
    }

    /// How many rings there are.
    pub fn rings(&self) -> u64
        ensures { result ≡ self.now.rings }
    {
        self.rings
    }
}

// How many of these there are.
fn count_some(list: &[Option<u32>]) -> u64
    requires { length list.now < 2 ^ 32 }
    ensures count { result ≡ count_by is_some list.now }
    ensures bound { result < 2 ^ 32 }
{
    list.iter().filter(|it| it.is_some()).count() as u64
}

// Prints the landmarks' points, before which so many features stand, where they are written.
fn print_last<P: Page>(
    map: &Map,
    layer: Option<Layer>,
    before: u64,
    file: Option<&str>,
    page: &mut P,
)
    requires { before < 2 ^ 34 }
    ensures { P.adds page.old page.new
        (landmarks_text (option_map (λ name. name.now) file.entry) layer before map.now) }
{
    if is_shown(layer, Layer::Landmarks) {
        print_landmarks(map, before, file, page);
    }
}

// Prints how a county begins: all but the boundaries and the end.
fn print_front<P: Page>(
    map: &Map,
    layer: Option<Layer>,
    file: Option<&str>,
    links: &Links,
    page: &mut P,
)
    requires lands { links.now.lands.items ≡ linked_lands map.now.landmarks }
    requires polygons { AreGroups (length map.now.polygons) (linked_polygons map.now.landmarks) links.now.polygons }
    ensures { P.adds page.old page.new
        (collection_opening ++ chains_and_points (option_map (λ name. name.now) file.entry) layer map.now) }
{
    page.add(b"{\"type\":\"FeatureCollection\",\"name\":\"tigertopo\",\"features\":[");
    let chains = shown(layer, Layer::Chains, map.chains());
    let points = shown(layer, Layer::Points, map.polygons());
    print_chains(map, chains, file, page);
    print_polygons(
        map,
        chains,
        points,
        file,
        links.lands.as_slice(),
        &links.polygons,
        page,
    );
}
