//! Rings of polygons, as pens write them.

ghost use Rattle.std.specs.Prelude.{◌≡◌, ◌*◌, ◌<◌, ℕ, Some, flat_map, length, slice_get, slice_index};
ghost use Rattle.tl_map_county.specs.Darts.{directed};
ghost use Rattle.tigertopo_pictures.specs.Rings.{ThePen, line_text, dart_text, ring_text};

use crate::items::Items;
use crate::walks::walk_at;
use tl_cert_output::Page;
use tl_geom::Point;
use tl_map_county::Map;

/// What writes rings, from point to point.
pub trait Pen {
    // How it writes them.
    ghost pen: { Self → ThePen };

    /// Writes the point where a ring starts.
    fn start<P: Page>(&self, at: Point, page: &mut P)
        ensures { P.adds page.old page.new ((pen self.now).start at) };

    /// Writes the step from a point to the next.
    fn step<P: Page>(&self, from: Point, to: Point, page: &mut P)
        ensures { P.adds page.old page.new ((pen self.now).step from to) };
}

/// The walks of a map as rings, by the numbers of the walks.
#[derive(Clone, Copy)]
pub struct Rings<'a, N> {
    pub pen: N,
    pub map: &'a Map,
    pub walks: &'a [Vec<u32>],
}

impl<N: Pen> Items for Rings<'_, N> {
    ghost use Rattle.std.specs.Prelude.{◌<◌, length, map as map_list};
    ghost use Rattle.tl_check_sides.specs.Lists.{list_at};
    ghost use Rattle.tl_check_sides.specs.Walks.{AreWalks};
    ghost use Rattle.tigertopo_pictures.specs.Rings.{ring_text};

    ghost text = { λ rings n. ring_text (N.pen rings.pen) rings.map.now.chains (list_at (map_list (λ w. w.items) rings.walks.now) n) };

    ghost has = { λ rings n. AreWalks rings.map.now.chains (map_list (λ w. w.items) rings.walks.now) × (n < length rings.walks.now) };

    fn print<P: Page>(&self, number: usize, page: &mut P) {
        let walk = walk_at(self.walks, number);
        print_ring(&self.pen, self.map, walk, page);
    }
}

// Writes the ring of a walk.
fn print_ring<N: Pen, P: Page>(pen: &N, map: &Map, walk: &[u32], page: &mut P)
    requires some { 0 < length walk.now }
    requires darts { (k : ℕ) → k < length walk.now → slice_index walk.now k < 2 * length map.now.chains }
    ensures { P.adds page.old page.new
        (ring_text (N.pen pen.now) map.now.chains walk.now) }
{
    pen.start(map.dart_start(walk[0]), page);
    print_darts(pen, map, walk, page);
}

// Writes the way along darts.
fn print_darts<N: Pen, P: Page>(pen: &N, map: &Map, walk: &[u32], page: &mut P)
    requires { (k : ℕ) → k < length walk.now → slice_index walk.now k < 2 * length map.now.chains }
    ensures { P.adds page.old page.new
        (flat_map (dart_text (N.pen pen.now) map.now.chains) walk.now) }
{
    for dart in walk {
        print_dart(pen, map, *dart, page);
    }
}

fn print_dart<N: Pen, P: Page>(pen: &N, map: &Map, dart: u32, page: &mut P)
    requires { dart < 2 * length map.now.chains }
    ensures { P.adds page.old page.new
        (dart_text (N.pen pen.now) map.now.chains dart) }
{
    let points = map.chain(dart / 2).points;
    print_line(pen, points, dart % 2 == 0, page);
}

/// Writes the way along the points of a chain, from the first or from the last one.
pub fn print_line<N: Pen, P: Page>(pen: &N, points: &[Point], is_along: bool, page: &mut P)
    ensures { P.adds page.old page.new
        (line_text (N.pen pen.now) (directed is_along points.now)) }
{
    for place in 1..points.len() {
        let from = point_at(points, is_along, place - 1);
        let to = point_at(points, is_along, place);
        pen.step(from, to, page);
    }
}

/// A point of a chain by its place, from the first point or from the last one.
pub fn point_at(points: &[Point], is_along: bool, place: usize) -> Point
    requires { place < length points.now }
    ensures { slice_get (directed is_along points.now) place ≡ Some result }
{
    if is_along {
        points[place]
    } else {
        points[points.len() - 1 - place]
    }
}
