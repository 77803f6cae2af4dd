//! Polygons that sides at odds name.

ghost use Rattle.std.specs.Prelude.{◌≡◌, ◌++◌, IfOk, OnOk};
ghost use Rattle.tl_check_sides.specs.Listing.Disagreements.{HaveSidesAtOdds, AreAllDisagreements};
ghost use Rattle.tl_check_sides.specs.Listing.Touched.{AreAllTouched};
ghost use Rattle.tl_check_sides.specs.Listing.Keeping.Named.{named, AreNamed};

use crate::Disagreement;
use crate::listing::listed::sort_once;
use std::alloc::Global;
use tl_map_county::{Map, Side, reverse_dart};
use tl_tree_index::Memory;

/// The polygons of a map that sides at odds name, by rising number, where these are all sides at odds. An error says that memory was
/// refused.
pub fn touched_polygons(
    alloc: Global,
    map: &Map,
    sides: &[Disagreement],
) -> Result<Vec<u32>, Memory>
    requires { AreAllDisagreements map.now.chains sides.now }
    ensures { IfOk result (λ touched. AreAllTouched map.now.chains touched.items) }
{
    let mut touched = Vec::new(alloc);
    for place in 0..sides.len() {
        push_both(map, sides[place], &mut touched)?;
    }
    sort_once(&mut touched);
    Ok(touched)
}

/// Appends the polygons that two sides at odds name.
fn push_both(map: &Map, odds: Disagreement, touched: &mut Vec<u32>) -> Result<(), Memory>
    requires { HaveSidesAtOdds map.now.chains odds.first odds.next }
    ensures { OnOk result (AreNamed map.now.chains odds touched.old.items touched.new.items) }
{
    push_named(map.dart_left(odds.first), touched)?;
    push_named(map.dart_left(reverse_dart(odds.next)), touched)?;
    Ok(())
}

/// Appends the polygon that a side names, if it names one.
fn push_named(side: Side, touched: &mut Vec<u32>) -> Result<(), Memory>
    ensures { OnOk result (touched.new.items ≡ touched.old.items ++ named side) }
{
    let Side::Polygon(p) = side else {
        return Ok(());
    };
    match touched.push(p) {
        Ok(()) => Ok(()),
        Err(_) => Err(Memory),
    }
}
