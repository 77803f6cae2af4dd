//! The order of items along a curve.

ghost use Rattle.std.specs.Prelude.{◌≡◌, ◌^◌, ◌<◌, IfOk, length};
ghost use Rattle.std.specs.List.Sorted.{IsPermutation};
ghost use Rattle.tl_tree_index.specs.Lists.{up, HoldsAll, items_in, AreItemsBelow};

use crate::Items;
use crate::curve::place_along;
use std::alloc::{AllocError, Global};
use tl_geom::Rect;

/// An item by its number, and where the middle of its rectangle stands along the curve.
#[derive(Clone, Copy)]
pub struct Placed {
    pub place: u32,
    pub item: u32,
}

/// All items in the order of the middles of their rectangles along the curve.
pub fn order_items<I: Items>(alloc: Global, items: &I) -> Result<Vec<Placed>, AllocError>
    ensures all { IfOk result (λ order. HoldsAll (I.count items.now) (items_in order.items)) }
    ensures known { IfOk result (λ order. AreItemsBelow (I.count items.now) order.items) }
    ensures counted { IfOk result (λ order. length order.items < 2 ^ 32) }
{
    let mut placed = place_items(alloc, items)?;
    sort_placed(&mut placed);
    Ok(placed)
}

/// Sorts items by their places.
fn sort_placed(placed: &mut Vec<Placed>)
    ensures { IsPermutation placed.old.items placed.new.items }
{
    placed.sort_unstable_by_key(|placed| placed.place);
}

/// The items by their numbers, each with its place.
fn place_items<I: Items>(alloc: Global, items: &I) -> Result<Vec<Placed>, AllocError>
    ensures all { IfOk result (λ placed. items_in placed.items ≡ up (I.count items.now)) }
    ensures known { IfOk result (λ placed. AreItemsBelow (I.count items.now) placed.items) }
    ensures counted { IfOk result (λ placed. length placed.items < 2 ^ 32) }
{
    let raster = raster_of(items);
    let mut placed = Vec::with_capacity(alloc, items.len() as usize)?;
    for item in 0..items.len() {
        let place = raster.place(items.bounds(item));
        placed.push(Placed { place, item })?;
    }
    Ok(placed)
}

/// The middle of a rectangle, doubled.
fn middle(rect: Rect) -> (i64, i64) {
    (
        i64::from(rect.xmin) + i64::from(rect.xmax),
        i64::from(rect.ymin) + i64::from(rect.ymax),
    )
}

/// Squares over all items, 65,536 or fewer from west to east and from south to north.
#[derive(Clone, Copy)]
struct Raster {
    west: i64,
    south: i64,
    shift: u32,
}

impl Raster {
    /// Where the middle of a rectangle stands along the curve.
    fn place(&self, rect: Rect) -> u32 {
        let (x, y) = middle(rect);
        place_along(
            square(x.abs_diff(self.west), self.shift),
            square(y.abs_diff(self.south), self.shift),
        )
    }
}

/// The square at a distance from the first one.
fn square(distance: u64, shift: u32) -> u32 {
    (distance.checked_shr(shift).unwrap_or(0) % 65_536) as u32
}

/// The squares over the middles of all items' rectangles.
fn raster_of<I: Items>(items: &I) -> Raster {
    let (mut west, mut east) = (i64::MAX, i64::MIN);
    let (mut south, mut north) = (i64::MAX, i64::MIN);
    for item in 0..items.len() {
        let (x, y) = middle(items.bounds(item));
        west = west.min(x);
        east = east.max(x);
        south = south.min(y);
        north = north.max(y);
    }
    let extent = east.abs_diff(west).max(north.abs_diff(south));
    let shift = (u64::BITS - extent.leading_zeros()).saturating_sub(16);
    Raster { west, south, shift }
}
