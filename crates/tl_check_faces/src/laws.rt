//! Laws of the definitions, each the contract of a function that does nothing.

ghost use Rattle.std.specs.Prelude.{◌≡◌, ◌≢◌, ◌↔◌, ℕ, ℤ, pos, ◌-ℤ◌, ◌<ℤ◌, ◌≤ℤ◌, Bool, List, [], ◌∷◌, ◌++◌};
ghost use Rattle.tl_geom.specs.declared.point.Point.{Point};
ghost use Rattle.tl_geom.specs.declared.rational.Rational.{Rational};
ghost use Rattle.tl_geom.specs.declared.segment.Segment.{Segment};
ghost use Rattle.tl_geom.specs.Plane.{IsOn, IsSame};
ghost use Rattle.tl_map_county.specs.declared.sides.Side.{Side};
ghost use Rattle.tl_map_county.specs.declared.sides.Side.TheVariants.{Outside};
ghost use Rattle.tl_map_county.specs.TheMap.{TheMap, MapChain};
ghost use Rattle.tl_check_planar.specs.Planar.{IsPlanar};
ghost use Rattle.tl_check_sides.specs.Sides.{SidesAgree};
ghost use Rattle.tl_check_faces.specs.Crossings.Headings.{AreProper, HeadApart};
ghost use Rattle.tl_check_inside.specs.declared.place.Place.{Place};
ghost use Rattle.tl_check_inside.specs.Inside.{IsCountAt, flanks_at};
ghost use Rattle.tl_check_inside.specs.Places.{IsPlaceOf};
ghost use Rattle.tl_check_planar.specs.ByHeight.Heights.{height, AreNear, low_end, high_end};
ghost use Rattle.tl_check_planar.specs.ByHeight.Neighbours.{IsNumbered};
ghost use Rattle.tl_check_planar.specs.ByHeight.Slabs.{IsListOf, AreSlabsTested};
ghost use Rattle.tl_check_faces.specs.Facing.{FacesAgree, IsClearBetween, IsClearFrom, step_x};
ghost use Rattle.tl_check_faces.specs.Clear.{IsClearAlong};
ghost use Rattle.tl_check_faces.specs.Lists.{AreSlabsFacing, AreAllNear, RunsWest, sides_by_height, west_side, east_side};
ghost use Rattle.tl_check_faces.specs.Disagreements.{FacingSide, from_place, facing_west, facing_east, IsFaceDisagreement, IsOutwardDisagreement};
ghost use Rattle.tl_check_faces.specs.Disagreements.{IsInSlab, IsMidway, HaveOneHeight};
ghost use Rattle.tl_check_faces.specs.Faults.{IsTrueFaceFault};
ghost use Rattle.tl_check_faces.specs.Located.{ListsWhatLies};
ghost use Rattle.tl_check_faces.specs.declared.fault.FaceFault.{FaceFault};
ghost use Rattle.tl_check_faces.specs.Truth.{LiesAt, HasOnePolygon, AreSidesTrue, AreFacesTrue};

/// Any sides have one count at a rational point.
pub fn sides_have_one_count_at_a_place()
    ensures { (chains : List MapChain) (q : Rational) (S : Side → Bool) (m n : ℤ) → IsCountAt chains q S m →
        IsCountAt chains q S n → m ≡ n }
{}

/// Where sides agree and darts head apart, as on planar chains, the count of any sides stays along a straight line that doesn't meet
/// their boundary: from the one end to the other, whatever other chains it crosses.
pub fn counts_stay_along_a_clear_line()
    ensures { (chains : List MapChain) (S : Side → Bool) (p q : Rational) (n : ℤ) → AreProper chains → HeadApart chains → SidesAgree chains →
        IsClearAlong chains S p q → IsCountAt chains p S n ↔ IsCountAt chains q S n }
{}

/// Where chains are planar and faces agree, each place that is on no chain lies in one polygon, or outside of all.
pub fn one_polygon()
    ensures { (chains : List MapChain) → IsPlanar chains → FacesAgree chains → HasOnePolygon chains }
{}

/// At no place lie two.
pub fn no_two_polygons()
    ensures { (chains : List MapChain) (q : Rational) (side other : Side) → LiesAt chains q side → LiesAt chains q other → side ≡ other }
{}

/// So there [`tl_check_inside::locate`] lists what lies at a point that is on no chain: a polygon alone where it lies there, and none in the
/// outside.
pub fn places_list_what_lies_there()
    ensures { (m : TheMap) (q : Point) (place : Place) → IsPlanar m.chains → FacesAgree m.chains → IsPlaceOf m q place →
        ListsWhatLies m q place }
{}

/// Where chains are planar and faces agree, each side of each chain names what lies there.
pub fn true_sides()
    ensures { (chains : List MapChain) → IsPlanar chains → FacesAgree chains → AreSidesTrue chains }
{}

/// The other way, on planar chains whose sides agree about nodes: where each side names what lies there, faces agree.
pub fn faces_agree_where_sides_are_true()
    ensures { (chains : List MapChain) → AreProper chains → IsPlanar chains → SidesAgree chains → AreSidesTrue chains → FacesAgree chains }
{}

/// So on such chains faces agree exactly where they are true.
pub fn faces_agree_exactly_where_they_are_true()
    ensures { (chains : List MapChain) → AreProper chains → IsPlanar chains → SidesAgree chains → FacesAgree chains ↔ AreFacesTrue chains }
{}

/// The first of the two by what a sweep can look at: in each slab the segments that are active stand in a list of which each two
/// neighbours are tested, and along it facing sides agree.
pub fn one_polygon_by_slabs()
    ensures { (K : ℤ) (chains : List MapChain) → AreAllNear K chains → IsPlanar chains → AreSlabsFacing K chains → HasOnePolygon chains }
{}

/// Where chains are planar and facing sides agree along the lists of all slabs, each side of each chain names what lies
/// there.
pub fn true_sides_by_slabs()
    ensures { (K : ℤ) (chains : List MapChain) → AreAllNear K chains → IsPlanar chains → AreSlabsFacing K chains → AreSidesTrue chains }
{}

/// Where chains are planar, all slabs have lists of which each two neighbours are tested.
pub fn planar_chains_have_lists()
    ensures { (K : ℤ) (chains : List MapChain) → pos 0 <ℤ K → AreAllNear K chains → IsPlanar chains → AreSlabsTested K chains }
{}

/// Where faces agree, too, facing sides agree along them.
pub fn slabs_have_lists()
    ensures { (K : ℤ) (chains : List MapChain) → pos 0 <ℤ K → AreAllNear K chains → IsPlanar chains → FacesAgree chains →
        AreSlabsFacing K chains }
{}

/// So such lists show that faces agree: what a sweep can look at is all of it.
pub fn faces_agree_by_slabs()
    ensures { (K : ℤ) (chains : List MapChain) → AreAllNear K chains → IsPlanar chains → AreSlabsFacing K chains → FacesAgree chains }
{}

/// Two neighbours of a slab's list face one another, from any places of one height within the slab, as from those midway. So where
/// the east side of the first isn't the west side of the next, faces disagree there.
pub fn neighbours_face()
    ensures at_one_height { (K n : ℤ) (chains : List MapChain) (front back : List ℕ) (s t : ℕ) (u w : Segment) (first : IsNumbered chains s u)
        (next : IsNumbered chains t w) (p q : Rational) → AreAllNear K chains → IsPlanar chains → IsListOf K n chains (front ++ (s ∷ (t ∷ back))) →
        IsOn u p → IsOn w q → IsInSlab K n p → HaveOneHeight K p q → east_side K first.joins.chain u ≢ west_side K next.joins.chain w →
        IsFaceDisagreement chains (facing_east K first.joins.chain u p) (facing_west K next.joins.chain w q) }
    ensures midway { (K n : ℤ) (chains : List MapChain) (front back : List ℕ) (s t : ℕ) (u w : Segment) (first : IsNumbered chains s u)
        (next : IsNumbered chains t w) (p q : Rational) → AreAllNear K chains → IsPlanar chains → IsListOf K n chains (front ++ (s ∷ (t ∷ back))) →
        IsMidway K n u p → IsMidway K n w q → east_side K first.joins.chain u ≢ west_side K next.joins.chain w →
        IsFaceDisagreement chains (facing_east K first.joins.chain u p) (facing_west K next.joins.chain w q) }
{}

/// The first segment of a slab's list faces the outside to the west, along the lines of one height.
pub fn first_faces_outward()
    ensures within { (K n : ℤ) (chains : List MapChain) (back : List ℕ) (s : ℕ) (u : Segment) (is : IsNumbered chains s u) (p : Rational) →
        AreAllNear K chains → IsPlanar chains → IsListOf K n chains (s ∷ back) → IsOn u p → IsInSlab K n p → west_side K is.joins.chain u ≢ Outside →
        IsOutwardDisagreement chains (facing_west K is.joins.chain u p) (pos 0 -ℤ K) (pos 0 -ℤ pos 1) }
    ensures midway { (K n : ℤ) (chains : List MapChain) (back : List ℕ) (s : ℕ) (u : Segment) (is : IsNumbered chains s u) (p : Rational) →
        AreAllNear K chains → IsPlanar chains → IsListOf K n chains (s ∷ back) → IsMidway K n u p → west_side K is.joins.chain u ≢ Outside →
        IsOutwardDisagreement chains (facing_west K is.joins.chain u p) (pos 0 -ℤ K) (pos 0 -ℤ pos 1) }
{}

/// The last faces it to the east.
pub fn last_faces_outward()
    ensures within { (K n : ℤ) (chains : List MapChain) (front : List ℕ) (s : ℕ) (u : Segment) (is : IsNumbered chains s u) (p : Rational) →
        AreAllNear K chains → IsPlanar chains → IsListOf K n chains (front ++ (s ∷ [])) → IsOn u p → IsInSlab K n p →
        east_side K is.joins.chain u ≢ Outside → IsOutwardDisagreement chains (facing_east K is.joins.chain u p) K (pos 1) }
    ensures midway { (K n : ℤ) (chains : List MapChain) (front : List ℕ) (s : ℕ) (u : Segment) (is : IsNumbered chains s u) (p : Rational) →
        AreAllNear K chains → IsPlanar chains → IsListOf K n chains (front ++ (s ∷ [])) → IsMidway K n u p →
        east_side K is.joins.chain u ≢ Outside → IsOutwardDisagreement chains (facing_east K is.joins.chain u p) K (pos 1) }
{}

/// The other way: where two segments face one another along a line of one height within a slab, from places on them with nothing
/// between, they are neighbours in each list of the slab, the western one before the eastern one.
pub fn facing_segments_are_neighbours()
    ensures { (K n : ℤ) (chains : List MapChain) (list : List ℕ) (s t : ℕ) (u w : Segment) (p q : Rational) → AreAllNear K chains →
        IsPlanar chains → IsListOf K n chains list → IsNumbered chains s u → IsNumbered chains t w → IsOn u p → IsOn w q →
        IsInSlab K n p → HaveOneHeight K p q → pos 0 <ℤ step_x p q → IsClearBetween chains p q →
        (front : List ℕ) × (back : List ℕ) × (list ≡ front ++ (s ∷ (t ∷ back))) }
{}

/// And a segment that faces nothing along that line is the first of the list if nothing lies to the west, and the last if nothing
/// lies to the east.
pub fn segments_that_face_nothing_are_first_or_last()
    ensures first { (K n : ℤ) (chains : List MapChain) (list : List ℕ) (s : ℕ) (u : Segment) (p : Rational) → AreAllNear K chains →
        IsPlanar chains → IsListOf K n chains list → IsNumbered chains s u → IsOn u p → IsInSlab K n p →
        IsClearFrom chains p (pos 0 -ℤ K) (pos 0 -ℤ pos 1) → (back : List ℕ) × (list ≡ s ∷ back) }
    ensures last { (K n : ℤ) (chains : List MapChain) (list : List ℕ) (s : ℕ) (u : Segment) (p : Rational) → AreAllNear K chains →
        IsPlanar chains → IsListOf K n chains list → IsNumbered chains s u → IsOn u p → IsInSlab K n p →
        IsClearFrom chains p K (pos 1) → (front : List ℕ) × (list ≡ front ++ (s ∷ [])) }
{}

/// The line of each segment has a place midway between any height and the next, strictly within the slab. It lies on the segment where
/// that is active there, and two such places have one height.
pub fn segments_have_places_midway()
    ensures found { (K n : ℤ) (u : Segment) → AreNear K u.a u.b → (p : Rational) × IsMidway K n u p }
    ensures on { (K n : ℤ) (u : Segment) (p : Rational) → AreNear K u.a u.b → height K (low_end K u) ≤ℤ n → n <ℤ height K (high_end K u) →
        IsMidway K n u p → IsOn u p }
    ensures within { (K n : ℤ) (u : Segment) (p : Rational) → AreNear K u.a u.b → IsMidway K n u p → IsInSlab K n p }
    ensures level { (K n : ℤ) (u w : Segment) (p q : Rational) → AreNear K u.a u.b → AreNear K w.a w.b → IsMidway K n u p → IsMidway K n w q →
        HaveOneHeight K p q }
{}

/// Where there is one such disagreement, faces don't agree.
pub fn disagreements_contradict()
    ensures face { (chains : List MapChain) (one other : FacingSide) → IsFaceDisagreement chains one other → ¬ FacesAgree chains }
    ensures outward { (chains : List MapChain) (one : FacingSide) (x y : ℤ) → IsOutwardDisagreement chains one x y → ¬ FacesAgree chains }
{}

/// Faces that disagree from a place disagree from it however it is written, as in lowest terms.
pub fn disagreements_are_of_places()
    ensures first { (chains : List MapChain) (one other : FacingSide) (p : Rational) → IsSame one.place p →
        IsFaceDisagreement chains one other → IsFaceDisagreement chains (from_place one p) other }
    ensures last { (chains : List MapChain) (one other : FacingSide) (p : Rational) → IsSame other.place p →
        IsFaceDisagreement chains one other → IsFaceDisagreement chains one (from_place other p) }
    ensures outward { (chains : List MapChain) (one : FacingSide) (x y : ℤ) (p : Rational) → IsSame one.place p →
        IsOutwardDisagreement chains one x y → IsOutwardDisagreement chains (from_place one p) x y }
{}

/// Where a fault of faces is true of a map, its faces don't agree. So none is true of a map whose faces agree.
pub fn a_true_face_fault_contradicts()
    ensures { (m : TheMap) (fault : FaceFault) → IsTrueFaceFault m fault → ¬ FacesAgree m.chains }
{}

/// Where a fault of faces is true of a map whose chains are planar and whose sides agree about nodes, faces aren't
/// true. So none is true of such a map that has one polygon at each place, and whose sides name what lies there.
pub fn a_true_face_fault_denies_true_faces()
    ensures { (m : TheMap) (fault : FaceFault) → AreProper m.chains → IsPlanar m.chains → SidesAgree m.chains → IsTrueFaceFault m fault →
        ¬ AreFacesTrue m.chains }
{}

/// The sides of a segment by its height are its flanks, unless it runs level to the west: then they are the other way round.
pub fn flanks_are_sides_by_height()
    ensures flanks { (K : ℤ) (chains : List MapChain) (s : ℕ) (u : Segment) (n : IsNumbered chains s u) → AreNear K u.a u.b →
        ¬ RunsWest u → flanks_at chains s ≡ sides_by_height K n.joins.chain u }
    ensures level { (K : ℤ) (chains : List MapChain) (s : ℕ) (u : Segment) (n : IsNumbered chains s u) → AreNear K u.a u.b → RunsWest u →
        ((flanks_at chains s).near ≡ east_side K n.joins.chain u) × ((flanks_at chains s).far ≡ west_side K n.joins.chain u) }
{}
