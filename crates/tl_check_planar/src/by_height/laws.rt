//! Laws of the definitions, each the contract of a function that does nothing.

ghost use Rattle.std.specs.Prelude.{ℤ, List};
ghost use Rattle.tl_geom.specs.declared.rational.Rational.{Rational};
ghost use Rattle.tl_geom.specs.declared.segment.Segment.{Segment};
ghost use Rattle.tl_geom.specs.Plane.{IsOn};
ghost use Rattle.tl_map_county.specs.TheMap.{MapChain};
ghost use Rattle.tl_check_planar.specs.Planar.{IsPlanar};
ghost use Rattle.tl_check_planar.specs.ByHeight.Heights.{AreNear, Spans, IsNotEast};
ghost use Rattle.tl_check_planar.specs.ByHeight.Neighbours.{IsWestOf, IsWide};
ghost use Rattle.tl_check_planar.specs.ByHeight.Slabs.{AreSlabsTested, AreVerticesTested};

/// A place that isn't east of a segment isn't east of one that the segment is west of, if both have a point at its height.
/// And if the place lies on the eastern one, it lies on both.
pub fn what_is_west_stays_west()
    ensures { (K : ℤ) (u w : Segment) (r : Rational) → AreNear K u.a u.b → AreNear K w.a w.b → IsWestOf K u w →
        Spans K u r → Spans K w r → IsNotEast K u r → IsNotEast K w r × (IsOn w r → IsOn u r) }
{}

/// Where the lists of all slabs are tested and so are the vertices, the chains are planar.
pub fn tested_chains_are_planar()
    ensures { (K : ℤ) (chains : List MapChain) → IsWide K chains → AreSlabsTested K chains → AreVerticesTested chains →
        IsPlanar chains }
{}
