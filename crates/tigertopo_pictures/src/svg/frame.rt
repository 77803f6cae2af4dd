//! Which part of the plane a picture shows, and where points lie in it.

ghost use Rattle.std.specs.Prelude.{◌≡◌, ◌*◌, ◌<◌, ◌≤◌, ◌^◌, pos, ◌+ℤ◌, ◌-ℤ◌, ◌*ℤ◌, ◌&&◌, not, unsigned_abs};
ghost use Rattle.tigertopo_pictures.specs.Svg.Frames.{cosine, breadth, height, side, way, position, spot_at};
ghost use Rattle.tigertopo_pictures.specs.Svg.Frames.{spot_of, east, south, reach_east, reach_south, first_corner, last_corner};
ghost use Rattle.tigertopo_pictures.specs.Svg.Frames.{is_across, are_across, is_held, is_inside, is_beside, is_seen};
ghost use Rattle.tigertopo_pictures.specs.Svg.Frames.{meets, is_tiny, is_near, is_small, is_short, is_speck, frame_about, fitted, frame_at};

use crate::svg::bounds::{around_places, bounds_of};
use crate::svg::lean::is_beside;
use crate::svg::quotients::quotient;
use tl_geom::{Point, Rational, Rect};
use tl_map_county::Map;

/// How long a degree of latitude is, in ten-thousandths of one.
pub const WHOLE: u16 = 10_000;

/// What a picture shows: `wide` millionths of a degree to the east and `high` to the south of the point that lies `shift`
/// halves of a millionth to the west and to the north of `origin`. A degree of longitude is drawn `cosine` ten-thousandths
/// as long as one of latitude. The longer side takes 980 pixels, and about it is a margin of ten.
#[derive(Clone, Copy, Debug, PartialEq, Eq)]
pub struct Frame {
    pub origin: Point,
    pub shift: u32,
    pub wide: u32,
    pub high: u32,
    pub cosine: u16,
}

/// A place in a picture, to the east and to the south of the upper left corner of what is shown: in parts of which as many
/// make a tenth of a pixel as the longer side has ten-thousandths of a millionth of a degree.
#[derive(Clone, Copy, Debug, PartialEq, Eq)]
pub struct Position {
    pub x: i64,
    pub y: i64,
}

/// The same in whole tenths of a pixel.
#[derive(Clone, Copy, Debug, PartialEq, Eq)]
pub struct Spot {
    pub x: i64,
    pub y: i64,
}

impl Frame {
    /// The frame of the whole map: it is fitted to the points of its chains and to the places of the faults that are shown.
    pub fn fitted(map: &Map, places: &[Option<Rational>]) -> Frame
        ensures { result ≡ fitted map.now.chains places.now }
    {
        Frame::about(around_places(bounds_of(map), places))
    }

    // The frame about a rectangle.
    fn about(rect: Rect) -> Frame
        ensures { result ≡ frame_about rect }
    {
        Frame {
            origin: Point {
                x: rect.xmin,
                y: rect.ymax,
            },
            shift: 0,
            wide: rect.xmax.abs_diff(rect.xmin),
            high: rect.ymax.abs_diff(rect.ymin),
            cosine: cosine(middle(rect.ymin, rect.ymax)),
        }
    }

    /// The frame about a point, so many millionths of a degree wide and high.
    pub fn at(center: Point, width: u32) -> Frame
        ensures { result ≡ frame_at center width }
    {
        let twice = 2 * i64::from(center.y);
        Frame {
            origin: center,
            shift: width,
            wide: width,
            high: width,
            cosine: cosine(twice.unsigned_abs()),
        }
    }

    // How wide that is which is shown, in ten-thousandths of a millionth of a degree of latitude.
    fn breadth(self) -> u64
        ensures value { result ≡ breadth self }
        ensures bound { result ≤ 2 ^ 48 }
    {
        length(self.wide, self.cosine)
    }

    // How high.
    fn height(self) -> u64
        ensures value { result ≡ height self }
        ensures bound { result ≤ 2 ^ 48 }
    {
        length(self.high, WHOLE)
    }

    /// The longer side, in the same.
    pub fn side(self) -> u64
        ensures value { result ≡ side self }
        ensures some { 10000 ≤ result }
        ensures bound { result ≤ 2 ^ 48 }
    {
        self.breadth().max(self.height()).max(10_000)
    }

    /// Where a point lies in the picture.
    pub fn position(self, p: Point) -> Position
        ensures { result ≡ position self p }
    {
        Position {
            x: self.east(p.x),
            y: self.south(p.y),
        }
    }

    /// How far to the east a longitude lies.
    pub fn east(self, x: i32) -> i64
        ensures value { result ≡ east self x }
        ensures bound { unsigned_abs result < 2 ^ 62 }
    {
        way(self.origin.x, x, self.shift, 4_900 * u32::from(self.cosine))
    }

    /// How far to the south a latitude lies.
    pub fn south(self, y: i32) -> i64
        ensures value { result ≡ south self y }
        ensures bound { unsigned_abs result < 2 ^ 62 }
    {
        way(y, self.origin.y, self.shift, 49_000_000)
    }

    /// A place in whole tenths of a pixel.
    pub fn spot_at(self, at: Position) -> Spot
        ensures { result ≡ spot_at self at }
    {
        let side = self.side();
        let inverse = u64::MAX / side;
        Spot {
            x: quotient(at.x, side, inverse),
            y: quotient(at.y, side, inverse),
        }
    }

    /// Where a point lies, in whole tenths of a pixel.
    pub fn spot(self, p: Point) -> Spot
        ensures { result ≡ spot_of self p }
    {
        self.spot_at(self.position(p))
    }

    /// How far the picture reaches to the east without its margin.
    pub fn reach_east(self) -> u64
        ensures value { result ≡ reach_east self }
        ensures bound { result < 2 ^ 62 }
    {
        (9_800 * self.breadth()).max(5_800 * self.side())
    }

    /// How far to the south.
    pub fn reach_south(self) -> u64
        ensures value { result ≡ reach_south self }
        ensures bound { result < 2 ^ 62 }
    {
        9_800 * self.height()
    }

    // The north-western corner of the picture, margin included.
    fn first_corner(self) -> Position
        ensures { result ≡ first_corner self }
    {
        let margin = (100 * self.side()) as i64;
        Position {
            x: -margin,
            y: -margin,
        }
    }

    // The south-eastern corner.
    fn last_corner(self) -> Position
        ensures { result ≡ last_corner self }
    {
        let margin = 100 * self.side();
        Position {
            x: (self.reach_east() + margin) as i64,
            y: (self.reach_south() + margin) as i64,
        }
    }

    // Whether the rectangle about two positions and the picture meet.
    fn are_across(self, a: Position, b: Position) -> bool
        ensures { result ≡ are_across self a b }
    {
        are_within(self.first_corner(), self.last_corner(), a, b)
    }

    /// Whether a position lies in the picture, margin and borders included.
    pub fn holds(self, at: Position) -> bool
        ensures { result ≡ is_held self at }
    {
        self.are_across(at, at)
    }

    /// Whether a point does.
    pub fn has_inside(self, p: Point) -> bool
        ensures { result ≡ is_inside self p }
    {
        self.holds(self.position(p))
    }

    /// Whether a straight line from point to point has a point in the picture.
    pub fn sees(self, p: Point, q: Point) -> bool
        ensures { result ≡ is_seen self p q }
    {
        self.has_inside(p) || self.has_inside(q) || self.is_crossed(p, q)
    }

    /// Whether a rectangle and the picture meet.
    pub fn meets(self, rect: Rect) -> bool
        ensures { result ≡ meets self rect }
    {
        let first = Point {
            x: rect.xmin,
            y: rect.ymin,
        };
        let last = Point {
            x: rect.xmax,
            y: rect.ymax,
        };
        self.are_across(self.position(first), self.position(last))
    }

    // Whether one whose ends lie outside has.
    fn is_crossed(self, p: Point, q: Point) -> bool
        ensures { result ≡ (are_across self (position self p) (position self q) && not (is_beside self p q)) }
    {
        self.are_across(self.position(p), self.position(q))
            && !is_beside(self, p, q, self.first_corner(), self.last_corner())
    }

    // Whether so many millionths of a degree are shorter than a third of a pixel, by how long a degree is.
    fn is_tiny(self, gap: u32, weight: u16) -> bool
        ensures { result ≡ is_tiny self gap weight }
    {
        length(gap, weight) * 2_940 < self.side()
    }

    /// Whether the second point is nearer to the first than a third of a pixel, along both axes.
    pub fn is_near(self, p: Point, q: Point) -> bool
        ensures { result ≡ is_near self p q }
    {
        self.is_tiny(q.x.abs_diff(p.x), self.cosine) && self.is_tiny(q.y.abs_diff(p.y), WHOLE)
    }

    /// Whether a rectangle is smaller than a third of a pixel, along both axes.
    pub fn is_small(self, rect: Rect) -> bool
        ensures { result ≡ is_small self rect }
    {
        self.is_tiny(rect.xmax.abs_diff(rect.xmin), self.cosine)
            && self.is_tiny(rect.ymax.abs_diff(rect.ymin), WHOLE)
    }

    // Whether so many millionths of a degree are shorter than four pixels, by how long a degree is.
    fn is_short(self, gap: u32, weight: u16) -> bool
        ensures { result ≡ is_short self gap weight }
    {
        length(gap, weight) * 245 < self.side()
    }

    /// Whether a rectangle is smaller than four pixels, along both axes.
    pub fn is_speck(self, rect: Rect) -> bool
        ensures { result ≡ is_speck self rect }
    {
        self.is_short(rect.xmax.abs_diff(rect.xmin), self.cosine)
            && self.is_short(rect.ymax.abs_diff(rect.ymin), WHOLE)
    }
}

// How long a degree of longitude is beside one of latitude, in ten-thousandths, at the latitude that is half of so many
// millionths of a degree.
fn cosine(twice: u64) -> u16
    requires { twice ≤ 2 ^ 33 }
    ensures { result ≡ cosine twice }
{
    let square = square(twice);
    let all = 129_600_000_000_000_000 + square;
    let left = 129_600_000_000_000_000_u128.saturating_sub(4 * square);
    ((20_000 * left + all) / (2 * all)).max(1) as u16
}

// How far from the equator is twice the middle of two latitudes.
fn middle(a: i32, b: i32) -> u64
    ensures value { result ≡ unsigned_abs (a +ℤ b) }
    ensures bound { result ≤ 2 ^ 33 }
{
    (i64::from(a) + i64::from(b)).unsigned_abs()
}

// The square of a number.
fn square(n: u64) -> u128
    requires { n ≤ 2 ^ 33 }
    ensures value { result ≡ n * n }
    ensures bound { result ≤ 2 ^ 66 }
{
    u128::from(n) * u128::from(n)
}

// So many millionths of a degree, by how long one is.
fn length(count: u32, weight: u16) -> u64
    ensures value { result ≡ count * weight }
    ensures bound { result ≤ 2 ^ 48 }
{
    u64::from(count) * u64::from(weight)
}

// Twice how far it is from one coordinate to another, and so far more, by a weight.
fn way(from: i32, to: i32, shift: u32, weight: u32) -> i64
    requires { weight ≤ 322000000 }
    ensures value { result ≡ way from to shift weight }
    ensures bound { unsigned_abs result < 2 ^ 62 }
{
    weighted(steps(from, to, shift), weight)
}

// Twice how far it is from one coordinate to another, and so far more.
fn steps(from: i32, to: i32, shift: u32) -> i64
    ensures value { result ≡ pos 2 *ℤ (to -ℤ from) +ℤ pos shift }
    ensures bound { unsigned_abs result ≤ 3 * 2 ^ 32 }
{
    doubled(difference(from, to), shift)
}

// How far it is from one coordinate to another.
pub fn difference(from: i32, to: i32) -> i64
    ensures value { result ≡ to -ℤ from }
    ensures bound { unsigned_abs result ≤ 2 ^ 32 }
{
    i64::from(to) - i64::from(from)
}

// Twice a number, and so far more.
fn doubled(n: i64, shift: u32) -> i64
    requires { unsigned_abs n ≤ 2 ^ 32 }
    ensures value { result ≡ pos 2 *ℤ n +ℤ pos shift }
    ensures bound { unsigned_abs result ≤ 3 * 2 ^ 32 }
{
    2 * n + i64::from(shift)
}

// So many steps by a weight.
fn weighted(steps: i64, weight: u32) -> i64
    requires few { unsigned_abs steps ≤ 3 * 2 ^ 32 }
    requires small { weight ≤ 322000000 }
    ensures value { result ≡ steps *ℤ pos weight }
    ensures bound { unsigned_abs result < 2 ^ 62 }
{
    steps * i64::from(weight)
}

// Whether the rectangle about two positions and that from one corner to another meet.
fn are_within(first: Position, last: Position, a: Position, b: Position) -> bool
    ensures { result ≡ (is_across first.x last.x a.x b.x && is_across first.y last.y a.y b.y) }
{
    let east = is_across(first.x, last.x, a.x, b.x);
    let south = is_across(first.y, last.y, a.y, b.y);
    east && south
}

// Whether a part of what lies from one number to another, in either order, lies from the first to the last.
fn is_across(first: i64, last: i64, u: i64, v: i64) -> bool
    ensures { result ≡ is_across first last u v }
{
    let begins = u.min(v) <= last;
    let ends = first <= u.max(v);
    begins && ends
}
