//! Counties as texts that are printed.

use crate::geojson::county::{Shapes, print_county, print_county_with};
use std::alloc::{AllocError, Global};
use tigertopo_words::Layer;
use tl_cert_output::{Page, Text};
use tl_map_county::Map;

/// A county's chains and its polygons' points, or one layer of it; on each feature its file, if one is told.
#[derive(Clone, Copy)]
pub struct CountyText<'a> {
    pub map: &'a Map,
    pub layer: Option<Layer>,
    pub file: Option<&'a str>,
}

impl Text for CountyText<'_> {
    ghost use Rattle.std.specs.Prelude.{⊤, option_map};
    ghost use Rattle.tigertopo_pictures.specs.Geojson.Rings.{county_text};

    ghost text = { λ county. county_text (option_map (λ name. name.now) county.file) county.layer county.map.now };

    ghost is_ready = { λ county. ⊤ };

    fn add_to<P: Page>(&self, alloc: Global, page: &mut P) -> Result<(), AllocError> {
        print_county(alloc, self.map, self.layer, self.file, page)
    }
}

/// The same and its polygons, whose shapes these are and whose rings are of these walks.
#[derive(Clone, Copy)]
pub struct CountyTextWith<'a> {
    pub map: &'a Map,
    pub layer: Option<Layer>,
    pub file: Option<&'a str>,
    pub walks: &'a [Vec<u32>],
    pub shapes: &'a Shapes,
}

impl Text for CountyTextWith<'_> {
    ghost use Rattle.std.specs.Prelude.{map as map_list, option_map};
    ghost use Rattle.tl_check_sides.specs.Walks.{AreWalks};
    ghost use Rattle.tigertopo_pictures.specs.Geojson.Holes.{AreShapes};
    ghost use Rattle.tigertopo_pictures.specs.Geojson.Rings.{county_text_with};

    ghost text = { λ county. county_text_with (option_map (λ name. name.now) county.file) county.layer county.map.now
        (map_list (λ w. w.items) county.walks.now) };

    ghost is_ready = { λ county. AreWalks county.map.now.chains (map_list (λ w. w.items) county.walks.now)
        × AreShapes county.map.now (map_list (λ w. w.items) county.walks.now) county.shapes.now };

    fn add_to<P: Page>(&self, alloc: Global, page: &mut P) -> Result<(), AllocError> {
        print_county_with(
            alloc,
            self.map,
            self.layer,
            self.file,
            self.walks,
            self.shapes,
            page,
        )
    }
}
