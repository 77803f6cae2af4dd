//! Laws of the definitions, each the contract of a function that does nothing.
ghost use Rattle.std.specs.Prelude.{◌≡◌, ◌↔◌, ◌<◌, ℕ, List};
ghost use Rattle.tl_geom.specs.declared.rational.Rational.{Rational};
ghost use Rattle.tl_geom.specs.declared.segment.Segment.{Segment};
ghost use Rattle.tl_geom.specs.Rectangle.{rect_of};
ghost use Rattle.tl_map_county.specs.TheMap.{MapChain};
ghost use Rattle.tl_map_county.specs.Segments.{IsSegmentOf, Joins};
ghost use Rattle.tl_check_planar.specs.Planar.{IsPlanar};
ghost use Rattle.tl_check_planar.specs.Meets.{IsMeet, AreFree};
ghost use Rattle.tl_check_planar.specs.Rectangles.{segment_rect};

/// Chains are planar exactly where no two of their segments conflict.
pub fn planar_where_no_two_conflict()
    ensures { (chains : List MapChain) →
        IsPlanar chains ↔ ((s t : ℕ) → s < t → AreFree chains s t) }
{}

/// Chains with two segments that conflict are not planar.
pub fn a_meet_is_not_planar()
    ensures { (chains : List MapChain) (s t : ℕ) (r : Rational) → s < t → IsMeet chains s t r → ¬ IsPlanar chains }
{}

/// The rectangle of a segment by its number is that of the segment.
pub fn rectangle_of_a_segment()
    ensures { (chains : List MapChain) (s c k : ℕ) (segment : Segment) →
        IsSegmentOf chains s c k → Joins chains c k segment → segment_rect chains s ≡ rect_of segment }
{}
