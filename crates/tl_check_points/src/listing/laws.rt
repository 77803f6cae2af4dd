//! Laws of the definitions, each the contract of a function that does nothing.

ghost use Rattle.std.specs.Prelude.{◌≡◌, ◌↔◌, List, []};
ghost use Rattle.tl_map_county.specs.TheMap.{TheMap};
ghost use Rattle.tl_check_inside.specs.declared.misplaced.Misplaced.{Misplaced};
ghost use Rattle.tl_check_inside.specs.Placed.{ArePlaced};
ghost use Rattle.tl_check_sides.specs.Listing.Touched.{IsTouched};
ghost use Rattle.tl_check_points.specs.Listing.AllMisplaced.{AreAllMisplaced, NoneHidden};

/// The points of all polygons lie where they have to exactly where the list of all that don't is empty, and nothing is left out.
pub fn placed_where_no_fault_is_listed()
    ensures { (m : TheMap) (found : List Misplaced) → AreAllMisplaced NoneHidden m found → ArePlaced m ↔ (found ≡ []) }
{}

/// A map has one such list, where what hangs on touched polygons is left out.
pub fn a_map_has_one_list_of_all_misplaced()
    ensures { (m : TheMap) (found others : List Misplaced) → AreAllMisplaced (IsTouched m.chains) m found →
        AreAllMisplaced (IsTouched m.chains) m others → found ≡ others }
{}
