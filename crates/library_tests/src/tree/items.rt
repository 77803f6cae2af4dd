//! Rectangles as items that count what they are asked, and a point as a probe.
ghost use Rattle.std.specs.Prelude.{◌<◌, ◌^◌, length};

use std::alloc::{AllocError, Global};
use std::cell::Cell;
use tl_geom::{Point, Rect};
use tl_tree::{Items, Probe};

/// Rectangles as items, of which no pair conflicts. They claim nothing of what they tell, count how often they are asked, and
/// keep whether they were asked of a pair that doesn't meet or, of the first four, of one pair twice.
#[derive(Drop)]
pub struct Counting {
    rects: Vec<Rect>,
    asked: Cell<u64>,
    pairs: Cell<u32>,
    wrong: Cell<bool>,
    ghost few: { length rects.items < 2 ^ 32 },
}

impl Counting {
    /// These rectangles.
    pub fn of(alloc: Global, rects: &[Rect]) -> Result<Counting, AllocError>
        requires { length rects.now < 2 ^ 32 }
    {
        let rects = Vec::from_slice(alloc, rects)?;
        Ok(Counting {
            rects,
            asked: Cell::new(0),
            pairs: Cell::new(0),
            wrong: Cell::new(false),
        })
    }

    /// How often they were asked since the last call, or nothing where they were asked wrongly.
    pub fn asked(&self) -> Option<u64> {
        self.pairs.set(0);
        let asked = self.asked.replace(0);
        if self.wrong.get() { None } else { Some(asked) }
    }

    /// How many pairs meet, of each item and those before it.
    pub fn meeting_pairs(&self) -> u64 {
        let mut count = 0u64;
        for j in 0..self.rects.len() {
            for i in 0..j {
                if self.rects[i].meets(self.rects[j]) {
                    count = count.wrapping_add(1);
                }
            }
        }
        count
    }
}

impl Items for Counting {
    ghost use Rattle.std.specs.Prelude.{length, slice_index_or, pos};

    type C = u8;

    ghost count = { λ items. length items.rects.items };

    ghost bounds_of = { λ items i. slice_index_or items.rects.items i
        (record { xmin = pos 0; ymin = pos 0; xmax = pos 0; ymax = pos 0 }) };

    ghost tells = { λ _ _ _ _. Unit {0} };

    ghost apart = { λ _ _ _ _ _ _. tt };

    fn len(&self) -> u32 {
        self.rects.len() as u32
    }

    fn bounds(&self, i: u32) -> Rect {
        self.rects[i as usize]
    }

    fn conflict(&self, i: u32, j: u32) -> Option<u8> {
        self.asked.set(self.asked.get().wrapping_add(1));
        let pair = if j < 4 { 1u32 << (4 * (i & 3) + j) } else { 0 };
        if self.pairs.get() & pair != 0 || !self.bounds(i).meets(self.bounds(j)) {
            self.wrong.set(true);
        }
        self.pairs.set(self.pairs.get() | pair);
        None
    }
}

/// The rectangle with these borders.
pub fn rect(xmin: i32, ymin: i32, xmax: i32, ymax: i32) -> Rect {
    Rect {
        xmin,
        ymin,
        xmax,
        ymax,
    }
}

/// A point, which hits the rectangles that hold it.
#[derive(Drop)]
pub struct Pin(pub Point);

impl Probe<Counting> for Pin {
    ghost use Rattle.std.specs.Prelude.{ℕ, slice_index_or, pos};
    ghost use Rattle.std.proofs.Common.{arith};
    ghost use Rattle.std.proofs.lemmas.Int.{ints};
    ghost use Rattle.tl_geom.specs.Rectangle.{Holds};

    ghost region_of = { λ pin. record { xmin = pin.0.x; ymin = pin.0.y; xmax = pin.0.x; ymax = pin.0.y } };

    ghost hit = { λ pin items i. Holds (slice_index_or items.rects.items i
        (record { xmin = pos 0; ymin = pos 0; xmax = pos 0; ymax = pos 0 })) pin.0 };

    fn region(&self) -> Rect {
        let Point { x, y } = self.0;
        Rect {
            xmin: x,
            ymin: y,
            xmax: x,
            ymax: y,
        }
    }

    fn hits(&self, items: &Counting, i: u32) -> bool {
        items.bounds(i).holds(self.0)
    }

    ghost hits_meet = { λ pin items i l h. record {
      point = pin.0;
      in_first = record {
        west = Prim.omega (arith, ints);
        east = Prim.omega (arith, ints);
        south = Prim.omega (arith, ints);
        north = Prim.omega (arith, ints);
      };
      in_second = h;
    } };
}
