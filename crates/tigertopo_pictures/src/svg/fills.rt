//! What polygons of a sound map are filled by: their rings, and their colours.

ghost use Rattle.std.specs.Prelude.{◌≡◌, IfOk, map as map_list};
ghost use Rattle.tl_check_sides.specs.Walks.{AreWalks};
ghost use Rattle.tigertopo_pictures.specs.Walks.{walk_polygon as polygon_of_walk};

use crate::groups::Groups;
use crate::svg::colours::colours_of;
use crate::walks::{walk_at, walk_polygon};
use std::alloc::{AllocError, Global};
use std::marker::Model;
use tl_map_county::Map;

/// What the polygons of a sound map are filled by: its walks, the rings of each polygon among them, and each polygon's colour.
#[derive(Drop)]
pub struct Fills {
    walks: Vec<Vec<u32>>,
    rings: Groups,
    colours: Vec<u32>,
}

impl Model for Fills {
    ghost use Rattle.std.specs.Prelude.{map};
    ghost use Rattle.tigertopo_pictures.specs.Svg.Fills.{TheFills};

    ghost Value = { TheFills };

    ghost view = { λ f. record { filling = record { walks = map (λ w. w.items) f.walks.items; colours = f.colours.items }; rings = f.rings } };
}

impl Fills {
    ghost use Rattle.std.specs.Prelude.{IfOk, map as map_list, ◌≡◌, ◌<◌, length, slice_index};
    ghost use Rattle.tl_check_sides.specs.Walks.{AreWalks};
    ghost use Rattle.tl_check_sides.specs.Lists.{list_at};
    ghost use Rattle.tigertopo_pictures.specs.Svg.Fills.{AreFillsOf};

    /// The fills of a map whose walks these are. The error is that memory was refused.
    pub fn new(alloc: Global, map: &Map, walks: Vec<Vec<u32>>) -> Result<Fills, AllocError>
        requires { AreWalks map.now.chains (map_list (λ w. w.items) walks.items) }
        ensures { IfOk result (AreFillsOf map.now) }
    {
        let polygons = polygons_of(alloc, map, walks.as_slice())?;
        let rings = Groups::new(alloc, polygons.as_slice(), map.polygons())?;
        let colours = colours_of(alloc, map)?;
        Ok(Fills {
            walks,
            rings,
            colours,
        })
    }

    /// The walks that are rings, by the first of each polygon and the next of each walk.
    pub fn rings(&self) -> &Groups
        ensures { result.now ≡ self.now.rings }
    {
        &self.rings
    }

    /// The walks of the map.
    pub fn walks(&self) -> &[Vec<u32>]
        ensures { map_list (λ w. w.items) result.now ≡ self.now.filling.walks }
    {
        self.walks.as_slice()
    }

    /// The colour of a polygon.
    pub fn colour(&self, polygon: u32) -> u32
        requires { polygon < length self.now.filling.colours }
        ensures { result ≡ slice_index self.now.filling.colours polygon }
    {
        self.colours[polygon as usize]
    }
}

// The polygon on the left of each walk.
fn polygons_of(alloc: Global, map: &Map, walks: &[Vec<u32>]) -> Result<Vec<Option<u32>>, AllocError>
    requires { AreWalks map.now.chains (map_list (λ w. w.items) walks.now) }
    ensures { IfOk result (λ list. list.items ≡ map_list (polygon_of_walk map.now.chains) (map_list (λ w. w.items) walks.now)) }
{
    let mut list = Vec::new(alloc);
    for number in 0..walks.len() {
        list.push(walk_polygon(map, walk_at(walks, number)))?;
    }
    Ok(list)
}
