//! Laws of the definitions, each the contract of a function that does nothing.

ghost use Rattle.std.specs.Prelude.{◌≡◌, ◌↔◌, ◌<◌, ℕ, ℤ, pos, Bool, Some, List, length, slice_index, if◌then◌else◌};
ghost use Rattle.tl_geom.specs.declared.point.Point.{Point};
ghost use Rattle.tl_geom.specs.declared.direction.Direction.{Direction};
ghost use Rattle.tl_geom.specs.declared.rect.Rect.{Rect};
ghost use Rattle.tl_geom.specs.Rectangle.{Holds};
ghost use Rattle.tl_geom.specs.Turning.{IsOneDirection};
ghost use Rattle.tl_map_county.specs.TheMap.{TheMap, MapChain};
ghost use Rattle.tl_map_county.specs.Darts.{dart_start, dart_left, Heads};
ghost use Rattle.tl_map_county.specs.declared.sides.Side.{Side};
ghost use Rattle.tl_check_planar.specs.Planar.{IsPlanar};
ghost use Rattle.tl_check_sides.specs.Lists.{before, list_at};
ghost use Rattle.tl_check_sides.specs.Rounds.{AreRounds};
ghost use Rattle.tl_check_sides.specs.Sides.{IsNext, IsRing, SidesAgree};
ghost use Rattle.tl_check_sides.specs.Walks.{AreWalks};
ghost use Rattle.tl_tree_index.specs.Hits.{AreHits};
ghost use Rattle.tl_check_inside.specs.declared.place.Place.{Place};
ghost use Rattle.tl_check_inside.specs.Inside.{balance, is_polygon, IsCount, IsPolygonCount};
ghost use Rattle.tl_check_inside.specs.Places.{IsOffChains, IsPlaceOf};
ghost use Rattle.tl_check_faces.specs.Crossings.Heights.{crossed_at};
ghost use Rattle.tl_check_faces.specs.Crossings.Headings.{AreProper, HeadApart, FirstsOverlap};
ghost use Rattle.tl_check_faces.specs.Crossings.Neighbours.{AreDartsOf};
ghost use Rattle.tl_check_faces.specs.Crossings.Boxes.{IsOnBoundary, IsOfChains, IsOutsideOfBox};
ghost use Rattle.tl_check_faces.specs.Crossings.West.{IsWestCount};
ghost use Rattle.tl_check_faces.specs.Crossings.Told.{ListsByWest, IsNowhere};
ghost use Rattle.tl_check_faces.specs.Crossings.Rings.{HoldsRing, has_left, winding, ring_count, rings_count};

/// At each point any sides have one count, and no other.
pub fn sides_have_one_count()
    ensures { (chains : List MapChain) (q : Point) (S : Side → Bool) → AreProper chains →
        (n : ℤ) × IsCount chains q S n × ((other : ℤ) → IsCount chains q S other → other ≡ n) }
{}

/// Where two darts of one node head in one direction, their first segments overlap: beside the node they share rational
/// points that differ.
pub fn first_segments_of_one_heading_overlap()
    ensures { (chains : List MapChain) (d e : ℕ) (node : Point) (first second : Direction) → AreProper chains →
        dart_start chains d ≡ Some node → dart_start chains e ≡ Some node → Heads chains d first → Heads chains e second →
        IsOneDirection first second → FirstsOverlap chains d e node }
{}

/// So where chains are planar, no two darts of one node head in one direction.
pub fn darts_of_planar_chains_head_apart()
    ensures { (chains : List MapChain) → AreProper chains → IsPlanar chains → HeadApart chains }
{}

/// Among the darts of a node, taken by strictly rising headings, each is next after the one before it, and the first after
/// the last. So it is in each round of the rounds of chains.
pub fn next_is_the_neighbour()
    ensures of_a_node { (chains : List MapChain) (node : Point) (darts : List ℕ) (k : ℕ) → AreDartsOf chains node darts →
        k < length darts → IsNext chains (before darts k) (slice_index darts k) }
    ensures in_rounds { (chains : List MapChain) (rounds : List (List ℕ)) (r k : ℕ) → AreProper chains → AreRounds chains rounds →
        r < length rounds → k < length (list_at rounds r) →
        IsNext chains (before (list_at rounds r) k) (slice_index (list_at rounds r) k) }
{}

/// Where sides agree and darts head apart, over all segments that cross a height any side is as often near as far.
pub fn the_crossings_of_a_height_cancel()
    ensures { (chains : List MapChain) (y : ℤ) (S : Side → Bool) → AreProper chains → HeadApart chains → SidesAgree chains →
        balance S (crossed_at y chains) ≡ pos 0 }
{}

/// So the count of a polygon is 0, and no other number, at each point outside of the bounding box of its own boundary.
pub fn a_polygon_counts_nothing_outside_of_its_box()
    ensures { (chains : List MapChain) (q : Point) (p : ℕ) (n : ℤ) → AreProper chains → HeadApart chains → SidesAgree chains →
        IsOutsideOfBox (IsOnBoundary chains (is_polygon p)) q → IsPolygonCount chains q p n ↔ (n ≡ pos 0) }
{}

/// The count of any sides, as those of a landmark, is 0, and no other number, at each point outside of any rectangle
/// that holds their boundary.
pub fn sides_count_nothing_outside_of_a_rectangle()
    ensures { (chains : List MapChain) (r : Rect) (q : Point) (S : Side → Bool) (n : ℤ) → AreProper chains → HeadApart chains → SidesAgree chains →
        ((p : Point) → IsOnBoundary chains S p → Holds r p) → ¬ Holds r q → IsCount chains q S n ↔ (n ≡ pos 0) }
{}

/// Where chains are planar and sides agree, as on a sound map, the ray to the west counts at a point on no chain what the
/// ray to the east counts.
pub fn east_is_west()
    ensures { (chains : List MapChain) (q : Point) (S : Side → Bool) (n : ℤ) → AreProper chains → IsPlanar chains → SidesAgree chains →
        IsOffChains chains q → IsCount chains q S n ↔ IsWestCount chains q S n }
{}

/// So there [`tl_check_inside::locate`] lists the polygons and the landmarks whose count by the ray to the west isn't 0.
pub fn places_are_told_by_the_ray_to_the_west()
    ensures { (m : TheMap) (q : Point) (place : Place) → AreProper m.chains → IsPlanar m.chains → SidesAgree m.chains →
        IsPlaceOf m q place → ListsByWest m q place }
{}

/// And it lists no polygon and no landmark at a point outside of the box of all chains, as east or west of them.
pub fn nothing_lies_outside_of_the_box_of_all_chains()
    ensures { (m : TheMap) (q : Point) (place : Place) → AreProper m.chains → IsPlanar m.chains → SidesAgree m.chains →
        IsOutsideOfBox (IsOfChains m.chains) q → IsPlaceOf m q place → IsNowhere place }
{}

/// Sides that agree aren't enough for it: of three chains with one polygon on their left and another on their right, two
/// run alike from one node up to another, and the third leads back.
pub fn sides_that_agree_are_not_enough()
    ensures { (chains : List MapChain) × AreProper chains × SidesAgree chains
        × (balance (is_polygon 0) (crossed_at (pos 0) chains) ≡ pos 1) }
{}

/// Where sides agree, all darts of a ring have one side on their left. So a ring that has such a side there adds to the
/// count of such sides what all of its darts add, and a ring that hasn't adds nothing.
pub fn a_ring_has_one_left()
    ensures one_left { (chains : List MapChain) (ring : List ℕ) (k : ℕ) → SidesAgree chains → IsRing chains ring → k < length ring →
        dart_left chains (slice_index ring k) ≡ dart_left chains (slice_index ring 0) }
    ensures count { (chains : List MapChain) (ring : List ℕ) (q : Point) (S : Side → Bool) → SidesAgree chains → IsRing chains ring →
        ring_count chains q S ring ≡ (if has_left chains S (slice_index ring 0) then winding chains q ring else pos 0) }
{}

/// A ring winds about no point outside of a rectangle that holds the ring. So where sides agree, the count of any sides at
/// a point is what those of the walks add to it whose rectangles hold the point.
pub fn rings_that_hold_a_point_count_for_all()
    ensures outside { (chains : List MapChain) (ring : List ℕ) (r : Rect) (q : Point) → IsRing chains ring → HoldsRing chains r ring →
        ¬ Holds r q → winding chains q ring ≡ pos 0 }
    ensures count { (chains : List MapChain) (walks : List (List ℕ)) (rects : ℕ → Rect) (q : Point) (S : Side → Bool) (hits : List ℕ) (n : ℤ) →
        AreProper chains → SidesAgree chains → AreWalks chains walks →
        ((k : ℕ) → k < length walks → HoldsRing chains (rects k) (list_at walks k)) →
        AreHits (length walks) (λ k. Holds (rects k) q) hits →
        IsCount chains q S n ↔ (n ≡ rings_count chains q S walks hits) }
{}
