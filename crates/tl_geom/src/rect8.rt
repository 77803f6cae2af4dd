//! Eight rectangles at once.
ghost use Rattle.std.specs.Prelude.{◌≡◌, ℕ, ◌<◌, ◌≤◌, ◌+◌, ◌*◌, ◌/◌, ◌%◌, ◌^◌, ◌↔◌, ◌≤ℤ◌, pos};
ghost use Rattle.std.specs.Prelude.{length, get_or, ◌∷◌, []};
ghost use Rattle.std.specs.Int.{bit_at, int_max, int_min};
ghost use Rattle.tl_geom.specs.Rectangle.{AreMeeting, nothing};
ghost use Rattle.tl_geom.specs.Keeping.Lanes.{AreLanes};

use crate::Rect;
use std::simd::prelude::*;

/// Eight rectangles, side by side. Lanes that are left over hold no point.
#[derive(Clone, Copy, Drop)]
pub struct Rect8 {
    xmin: i32x8,
    ymin: i32x8,
    xmax: i32x8,
    ymax: i32x8,
    ghost west: { AreLanes xmin },
    ghost south: { AreLanes ymin },
    ghost east: { AreLanes xmax },
    ghost north: { AreLanes ymax },
}

impl Rect8 {
    ghost use Rattle.tl_geom.specs.EightRectangles.{lane};

    /// At most eight rectangles, and as many that hold no point as are left over.
    pub fn gather(rects: &[Rect]) -> Rect8
        requires { length rects.now ≤ 8 }
        ensures { (k : ℕ) → k < 8 → lane result k ≡ get_or rects.now k nothing }
    {
        let (a, b) = (rect_at(rects, 0), rect_at(rects, 1));
        let (c, d) = (rect_at(rects, 2), rect_at(rects, 3));
        let (e, f) = (rect_at(rects, 4), rect_at(rects, 5));
        let (g, h) = (rect_at(rects, 6), rect_at(rects, 7));
        Rect8 {
            xmin: lanes_of(
                a.xmin, b.xmin, c.xmin, d.xmin, e.xmin, f.xmin, g.xmin, h.xmin,
            ),
            ymin: lanes_of(
                a.ymin, b.ymin, c.ymin, d.ymin, e.ymin, f.ymin, g.ymin, h.ymin,
            ),
            xmax: lanes_of(
                a.xmax, b.xmax, c.xmax, d.xmax, e.xmax, f.xmax, g.xmax, h.xmax,
            ),
            ymax: lanes_of(
                a.ymax, b.ymax, c.ymax, d.ymax, e.ymax, f.ymax, g.ymax, h.ymax,
            ),
        }
    }

    /// Which lanes meet the rectangle: bit `k` is set exactly where lane `k` does.
    pub fn meets8(&self, r: Rect) -> u8
        ensures { (k : ℕ) → k < 8 → (bit_at result k ≡ 1) ↔ AreMeeting (lane self.now k) r }
    {
        let west_to_east = overlap8(
            self.xmin,
            self.xmax,
            i32x8::splat(r.xmin),
            i32x8::splat(r.xmax),
        );
        let south_to_north = overlap8(
            self.ymin,
            self.ymax,
            i32x8::splat(r.ymin),
            i32x8::splat(r.ymax),
        );
        (west_to_east & south_to_north) as u8
    }

    /// Which pairs of lanes meet, each pair once: for `p` from 0 to 27, bit `p` is set exactly where lane `p % 8` meets the
    /// lane that is `p / 8 + 1` further on, counted in a circle. The other bits are clear.
    pub fn meeting_pairs(&self) -> u32
        ensures pairs { (p : ℕ) → p < 28 →
            (bit_at result p ≡ 1) ↔ AreMeeting (lane self.now (p % 8)) (lane self.now ((p % 8 + p / 8 + 1) % 8)) }
        ensures few { result < 2 ^ 28 }
    {
        let by_one = self.turned();
        let by_two = by_one.turned();
        let by_three = by_two.turned();
        let by_four = by_three.turned();
        in_rows(
            self.meets_each(&by_one),
            self.meets_each(&by_two),
            self.meets_each(&by_three),
            self.meets_each(&by_four) % 16,
        )
    }

    /// The same rectangles, each in the lane before, and the first one in the last lane.
    fn turned(&self) -> Rect8
        ensures { (k : ℕ) → k < 8 → lane result k ≡ lane self.now ((k + 1) % 8) }
    {
        Rect8 {
            xmin: turned8(self.xmin),
            ymin: turned8(self.ymin),
            xmax: turned8(self.xmax),
            ymax: turned8(self.ymax),
        }
    }

    /// Which lanes meet the same lane of others: bit `k` is set exactly where lane `k` does.
    fn meets_each(&self, others: &Rect8) -> u8
        ensures { (k : ℕ) → k < 8 → (bit_at result k ≡ 1) ↔ AreMeeting (lane self.now k) (lane others.now k) }
    {
        let west_to_east = overlap8(self.xmin, self.xmax, others.xmin, others.xmax);
        let south_to_north = overlap8(self.ymin, self.ymax, others.ymin, others.ymax);
        (west_to_east & south_to_north) as u8
    }
}

/// The rectangle at a place, or one that holds no point where there is none.
fn rect_at(rects: &[Rect], k: usize) -> Rect
    ensures { result ≡ get_or rects.now k nothing }
{
    if k < rects.len() {
        rects[k]
    } else {
        Rect {
            xmin: 1,
            ymin: 1,
            xmax: 0,
            ymax: 0,
        }
    }
}

/// Eight numbers side by side.
fn lanes_of(a: i32, b: i32, c: i32, d: i32, e: i32, f: i32, g: i32, h: i32) -> i32x8
    ensures lanes { AreLanes result }
    ensures value { result ≡ a ∷ b ∷ c ∷ d ∷ e ∷ f ∷ g ∷ h ∷ [] }
{
    i32x8::from_array([a, b, c, d, e, f, g, h])
}

/// The same numbers, each in the lane before, and the first one in the last lane.
fn turned8(v: i32x8) -> i32x8
    requires { AreLanes v }
    ensures lanes { AreLanes result }
    ensures value { (k : ℕ) → k < 8 → get_or result k (pos 0) ≡ get_or v ((k + 1) % 8) (pos 0) }
{
    v.rotate_elements_left::<1>()
}

/// Four rows of bits, eight to a row but four in the last one.
fn in_rows(a: u8, b: u8, c: u8, d: u8) -> u32
    requires { d < 16 }
    ensures rows { result ≡ ((d * 256 + c) * 256 + b) * 256 + a }
    ensures few { result < 2 ^ 28 }
{
    ((u32::from(d) * 256 + u32::from(c)) * 256 + u32::from(b)) * 256 + u32::from(a)
}

/// The greater number of each lane.
fn greater8(v: i32x8, w: i32x8) -> i32x8
    requires first { AreLanes v }
    requires second { AreLanes w }
    ensures lanes { AreLanes result }
    ensures value { (k : ℕ) → k < 8 →
        get_or result k (pos 0) ≡ int_max (get_or v k (pos 0)) (get_or w k (pos 0)) }
{
    v.simd_max(w)
}

/// The lesser number of each lane.
fn lesser8(v: i32x8, w: i32x8) -> i32x8
    requires first { AreLanes v }
    requires second { AreLanes w }
    ensures lanes { AreLanes result }
    ensures value { (k : ℕ) → k < 8 →
        get_or result k (pos 0) ≡ int_min (get_or v k (pos 0)) (get_or w k (pos 0)) }
{
    v.simd_min(w)
}

/// In which lanes some number lies from `low` to `high` and from `low2` to `high2`.
fn overlap8(low: i32x8, high: i32x8, low2: i32x8, high2: i32x8) -> u64
    requires low { AreLanes low }
    requires high { AreLanes high }
    requires low2 { AreLanes low2 }
    requires high2 { AreLanes high2 }
    ensures lanes { (k : ℕ) → k < 8 → (bit_at result k ≡ 1) ↔
        (int_max (get_or low k (pos 0)) (get_or low2 k (pos 0)) ≤ℤ int_min (get_or high k (pos 0)) (get_or high2 k (pos 0))) }
    ensures eight { result < 2 ^ 8 }
{
    at_most8(greater8(low, low2), lesser8(high, high2))
}

/// In which lanes the first number is at most the second one.
fn at_most8(v: i32x8, w: i32x8) -> u64
    requires first { AreLanes v }
    requires second { AreLanes w }
    ensures lanes { (k : ℕ) → k < 8 → (bit_at result k ≡ 1) ↔ (get_or v k (pos 0) ≤ℤ get_or w k (pos 0)) }
    ensures eight { result < 2 ^ 8 }
{
    v.simd_le(w).to_bitmask()
}
