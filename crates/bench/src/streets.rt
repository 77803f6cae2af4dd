//! Segments as items, which conflict where they share a point that isn't an end of both.
use std::alloc::{AllocError, Global};
use std::cell::Cell;
use tl_geom::{Contact, Point, Rect, Segment, contact};
use tl_tree::Items;

/// Segments, fewer than 2,147,483,648, and how many pairs were tested.
#[derive(Drop)]
pub struct Streets {
    segments: Vec<Segment>,
    tests: Cell<u64>,
    ghost few: { length segments.items < 2 ^ 32 },
}

ghost use Rattle.std.specs.Prelude.{◌<◌, ◌^◌, length};

impl Streets {
    pub fn new(alloc: Global) -> Streets {
        Streets {
            segments: Vec::new(alloc),
            tests: Cell::new(0),
        }
    }

    /// How many segments there are.
    pub fn count(&self) -> usize {
        self.segments.len()
    }

    /// Adds the segment between two points, if they differ and there is room.
    pub fn add(&mut self, a: Point, b: Point) -> Result<(), AllocError> {
        if let Some(s) = Segment::new(a, b) {
            if self.segments.len() < 1 << 31 {
                self.segments.push(s)?;
            }
        }
        Ok(())
    }

    /// The rectangles of the segments, made anew.
    pub fn rectangles(&self, alloc: Global) -> Result<Vec<Rect>, AllocError> {
        let mut rects = Vec::new(alloc);
        for s in &self.segments {
            rects.push(Rect::of(*s))?;
        }
        Ok(rects)
    }

    /// How many pairs were tested since the last call.
    pub fn tests(&self) -> u64 {
        let tests = self.tests.get();
        self.tests.set(0);
        tests
    }
}

impl Items for Streets {
    ghost use Rattle.std.specs.Prelude.{length};
    ghost use Rattle.bench.specs.Bounds.{rect_at};

    type C = Contact;

    ghost count = { λ streets. length streets.segments.items };

    ghost bounds_of = { λ streets. rect_at streets.segments.items };

    ghost tells = { λ _ _ _ _. Unit {0} };

    ghost apart = { λ _ _ _ _ _ _. tt };

    fn len(&self) -> u32 {
        self.segments.len() as u32
    }

    fn bounds(&self, i: u32) -> Rect {
        Rect::of(self.segments[i as usize])
    }

    #[inline]
    fn conflict(&self, i: u32, j: u32) -> Option<Contact> {
        self.tests.set(self.tests.get().wrapping_add(1));
        let told = contact(self.segments[i as usize], self.segments[j as usize]);
        if matches!(told, Contact::Crossing(_)) {
            Some(told)
        } else {
            None
        }
    }
}
