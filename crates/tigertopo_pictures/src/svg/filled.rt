//! Polygons that are filled, on their way out.

ghost use Rattle.std.specs.Prelude.{◌≡◌, ◌<◌, ◌*◌, ℕ, List, length, map as map_list, option_map, slice_index, IfSome};
ghost use Rattle.tl_check_sides.specs.Walks.{AreWalks};
ghost use Rattle.tigertopo_pictures.specs.Groups.{GoesThrough};
ghost use Rattle.tigertopo_pictures.specs.Svg.Frames.{no_points};
ghost use Rattle.tigertopo_pictures.specs.Svg.Colours.{hue};
ghost use Rattle.tigertopo_pictures.specs.Svg.Fills.{AreFillsOf, rings_of, around_dart, around_darts, around_walks, is_filled};
ghost use Rattle.tigertopo_pictures.specs.Svg.Fills.{is_spot, step_text, fill_text, polygon_fill, fills_below};
ghost use Rattle.tigertopo_pictures.specs.Svg.Fills.{all_fills, fills_part};

use crate::groups::Groups;
use crate::items::print_items;
use crate::rings::{Pen, Rings};
use crate::svg::bounds::around;
use crate::svg::fills::Fills;
use crate::svg::frame::{Frame, Spot};
use crate::svg::pairs::{print_move, print_pair};
use crate::svg::text::print_fill_head;
use crate::walks::walk_at;
use tl_cert_output::Page;
use tl_geom::{Point, Rect};
use tl_map_county::Map;

/// Prints the polygons of a map, filled, where there is something to fill them by.
pub fn print_fills<P: Page>(map: &Map, frame: Frame, fills: Option<&Fills>, page: &mut P)
    requires { IfSome fills (λ f. AreFillsOf map.now f.now) }
    ensures { P.adds page.old page.new
        (fills_part frame map.now (option_map (λ f. f.now.filling) fills.entry)) }
{
    match fills {
        Some(fills) => print_all(map, frame, fills, page),
        None => {}
    }
}

// Prints them.
fn print_all<P: Page>(map: &Map, frame: Frame, fills: &Fills, page: &mut P)
    requires { AreFillsOf map.now fills.now }
    ensures { P.adds page.old page.new
        (all_fills frame map.now fills.now.filling) }
{
    page.add(b"<g class=\"polygons\">\n");
    print_polygons(map, frame, fills, page);
    page.add(b"</g>\n");
}

// Prints one after the other.
fn print_polygons<P: Page>(map: &Map, frame: Frame, fills: &Fills, page: &mut P)
    requires { AreFillsOf map.now fills.now }
    ensures { P.adds page.old page.new
        (fills_below frame map.now.chains fills.now.filling (length map.now.polygons)) }
{
    for polygon in 0..map.polygons() {
        print_polygon(map, frame, fills, polygon, page);
    }
}

// Prints a polygon, where it is filled.
fn print_polygon<P: Page>(map: &Map, frame: Frame, fills: &Fills, polygon: u32, page: &mut P)
    requires fills { AreFillsOf map.now fills.now }
    requires polygon { polygon < length map.now.polygons }
    ensures { P.adds page.old page.new
        (polygon_fill frame map.now.chains fills.now.filling polygon) }
{
    let first = fills.rings().first(polygon);
    let rect = around_walks(map, fills.walks(), fills.rings(), first);
    if is_filled(frame, rect) {
        print_fill(
            map,
            frame,
            fills.walks(),
            fills.rings(),
            first,
            fills.colour(polygon),
            page,
        );
    }
}

// Whether what has this rectangle about it is filled.
fn is_filled(frame: Frame, rect: Rect) -> bool
    ensures { result ≡ is_filled frame rect }
{
    !frame.is_speck(rect) && frame.meets(rect)
}

// The rectangle about the points of walks, from this one on.
fn around_walks(map: &Map, walks: &[Vec<u32>], rings: &Groups, start: usize) -> Rect
    requires walks { AreWalks map.now.chains (map_list (λ w. w.items) walks.now) }
    requires beside { length walks.now ≡ length rings.now.next }
    ensures { (ns : List ℕ) → GoesThrough rings.now.next start ns →
        result ≡ around_walks map.now.chains (map_list (λ w. w.items) walks.now) no_points ns }
{
    let mut rect = Rect::NOTHING;
    let mut at = start;
    while at < rings.items() {
        rect = around_darts(map, rect, walk_at(walks, at));
        at = rings.next(at);
    }
    rect
}

// The rectangle, so widened that it holds the points of darts.
fn around_darts(map: &Map, rect: Rect, darts: &[u32]) -> Rect
    requires { (k : ℕ) → k < length darts.now → slice_index darts.now k < 2 * length map.now.chains }
    ensures { result ≡ around_darts map.now.chains rect darts.now }
{
    let mut rect = rect;
    for dart in darts {
        rect = around_dart(map, rect, *dart);
    }
    rect
}

// The same of a dart.
fn around_dart(map: &Map, rect: Rect, dart: u32) -> Rect
    requires { dart < 2 * length map.now.chains }
    ensures { result ≡ around_dart map.now.chains rect dart }
{
    around(rect, map.chain(dart / 2).points)
}

// Prints rings, from this one on, filled with a colour.
fn print_fill<P: Page>(
    map: &Map,
    frame: Frame,
    walks: &[Vec<u32>],
    rings: &Groups,
    start: usize,
    colour: u32,
    page: &mut P,
)
    requires walks { AreWalks map.now.chains (map_list (λ w. w.items) walks.now) }
    requires beside { length walks.now ≡ length rings.now.next }
    ensures { (ns : List ℕ) → GoesThrough rings.now.next start ns →
        P.adds page.old page.new
        (fill_text frame map.now.chains (map_list (λ w. w.items) walks.now) colour ns) }
{
    print_fill_head(colour, page);
    let pen = frame;
    let items = Rings { pen, map, walks };
    print_items(&items, b"", b"z", rings, start, page);
    page.add(b"\"/>\n");
}

impl Pen for Frame {
    ghost use Rattle.tigertopo_pictures.specs.Svg.Fills.{frame_pen};

    ghost pen = { frame_pen };

    fn start<P: Page>(&self, at: Point, page: &mut P) {
        print_move(self.spot(at), page);
    }

    fn step<P: Page>(&self, from: Point, to: Point, page: &mut P) {
        print_step(self.spot(from), self.spot(to), page);
    }
}

// Prints the way from one place of the picture to another, if it is another.
fn print_step<P: Page>(from: Spot, to: Spot, page: &mut P)
    ensures { P.adds page.old page.new (step_text from to) }
{
    if !is_spot(from, to) {
        print_pair(b"L", to.x, to.y, page);
    }
}

// Whether it is the same place.
fn is_spot(a: Spot, b: Spot) -> bool
    ensures { result ≡ is_spot a b }
{
    a.x == b.x && a.y == b.y
}
