//! How a map is drawn.

ghost use Rattle.std.specs.Prelude.{◌≡◌, nat_le};
ghost use Rattle.tigertopo_pictures.specs.Svg.Pictures.{stroke_count, point_count, is_marked, picture_of, chain_count, fault_count};

use crate::svg::chains::{count_strokes, walk_along};
use crate::svg::frame::Frame;
use crate::svg::places::is_place_inside;
use tl_geom::Rational;
use tl_map_county::Map;

// How many strokes, and how many polygons' points, a picture has at most in which nodes and polygons' points are marked.
const MOST_MARKED: u128 = 20_000;

/// How a map is drawn: what is shown, and whether nodes and polygons' points are marked.
#[derive(Clone, Copy, Debug, PartialEq, Eq)]
pub struct Picture {
    pub frame: Frame,
    pub is_marked: bool,
}

/// The picture of a map by a frame.
pub fn picture_of(frame: Frame, map: &Map) -> Picture
    ensures { result ≡ picture_of frame map.now }
{
    Picture {
        frame,
        is_marked: is_marked(frame, map),
    }
}

// Whether nodes and polygons' points are marked.
fn is_marked(frame: Frame, map: &Map) -> bool
    ensures { result ≡ is_marked frame map.now }
{
    are_strokes_few(frame, map, MOST_MARKED) && u128::from(point_count(frame, map)) <= MOST_MARKED
}

// Whether no more strokes than so many are drawn of the map's chains. They aren't counted further.
fn are_strokes_few(frame: Frame, map: &Map, most: u128) -> bool
    ensures { result ≡ nat_le (stroke_count frame map.now.chains) most }
{
    let mut count = 0;
    for number in 0..map.chains() {
        let mut walk = walk_along(frame, map.chain(number).points);
        count += u128::from(count_strokes(&mut walk));
        if count > most {
            return false;
        }
    }
    true
}

// How many polygons' points lie in the picture.
fn point_count(frame: Frame, map: &Map) -> u32
    ensures { result ≡ point_count frame map.now.polygons }
{
    let mut count = 0;
    for number in 0..map.polygons() {
        count += u32::from(frame.has_inside(map.polygon(number).point));
    }
    count
}

/// How many chains the picture shows.
pub fn chain_count(picture: Picture, map: &Map) -> u32
    ensures { result ≡ chain_count picture map.now }
{
    let mut count = 0;
    for number in 0..map.chains() {
        let points = map.chain(number).points;
        let mut walk = walk_along(picture.frame, points);
        count += u32::from(walk.next().is_some());
    }
    count
}

/// How many faults the picture shows, of which these are the places.
pub fn fault_count(frame: Frame, places: &[Option<Rational>]) -> u64
    ensures { result ≡ fault_count frame places.now }
{
    let mut count = 0;
    for place in places {
        count += u64::from(is_place_inside(frame, *place));
    }
    count
}
