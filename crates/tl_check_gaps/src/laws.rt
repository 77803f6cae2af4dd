//! Laws of a point that stands between two neighbours of the list at its height, each the contract of a function that does nothing.

ghost use Rattle.std.specs.Prelude.{◌≡◌, ℕ, ℤ, pos, Bool, false, List, if◌then◌else◌};
ghost use Rattle.tl_geom.specs.declared.point.Point.{Point};
ghost use Rattle.tl_map_county.specs.declared.sides.Side.{Side};
ghost use Rattle.tl_map_county.specs.declared.sides.Side.TheVariants.{Outside, Polygon};
ghost use Rattle.tl_map_county.specs.TheMap.{TheMap, MapChain};
ghost use Rattle.tl_check_inside.specs.Inside.{AreCrossed, IsCount};
ghost use Rattle.tl_check_inside.specs.Places.{IsOffChains};
ghost use Rattle.tl_check_inside.specs.Placed.{IsPlacedIn};
ghost use Rattle.tl_check_planar.specs.ByHeight.Neighbours.{IsWide};
ghost use Rattle.tl_check_gaps.specs.Beside.{IsNoVertex, IsBetween, AreFacing, seen_side};

/// A point that lies strictly between two neighbours of the list at its height lies on no chain, and the ray that runs from it
/// to the east crosses all that stands east of it in the list, and nothing else.
pub fn what_stands_east_is_crossed()
    ensures off { (K : ℤ) (chains : List MapChain) (q : Point) (front back : List ℕ) → IsWide K chains → IsNoVertex K chains q →
        IsBetween K chains q front back → IsOffChains chains q }
    ensures crossed { (K : ℤ) (chains : List MapChain) (q : Point) (front back : List ℕ) → IsWide K chains → IsNoVertex K chains q →
        IsBetween K chains q front back → AreCrossed chains q back }
{}

/// Where facing sides agree along what stands east of it, the count of any sides at the point is 1 if the side that it sees to
/// its east is one of them, else 0. So it is placed in the polygon that it sees there.
pub fn a_point_is_placed_by_the_side_that_it_sees()
    ensures counted { (K : ℤ) (chains : List MapChain) (q : Point) (front back : List ℕ) (S : Side → Bool) →
        IsWide K chains → IsNoVertex K chains q → IsBetween K chains q front back → AreFacing chains back → S Outside ≡ false →
        IsCount chains q S (if S (seen_side chains back) then pos 1 else pos 0) }
    ensures placed { (K : ℤ) (m : TheMap) (q : Point) (front back : List ℕ) (p : ℕ) → IsWide K m.chains → IsNoVertex K m.chains q →
        IsBetween K m.chains q front back → AreFacing m.chains back → seen_side m.chains back ≡ Polygon p → IsPlacedIn m q p }
{}
