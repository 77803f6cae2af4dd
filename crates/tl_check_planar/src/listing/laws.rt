//! Laws of the definitions, each the contract of a function that does nothing.

ghost use Rattle.std.specs.Prelude.{◌≡◌, ◌↔◌, ◌⊎◌, ◌<◌, ℕ, Bool, true, false, List, [], slice_index_or};
ghost use Rattle.tl_geom.specs.declared.rational.Rational.{Rational};
ghost use Rattle.tl_map_county.specs.TheMap.{MapChain};
ghost use Rattle.tl_map_county.specs.Remaining.{remaining};
ghost use Rattle.tl_check_planar.specs.declared.meet.Meet.{Meet};
ghost use Rattle.tl_check_planar.specs.Planar.{IsPlanar};
ghost use Rattle.tl_check_planar.specs.Meets.{IsMeet};
ghost use Rattle.tl_check_planar.specs.Listing.Meets.{AreAllMeets};

/// Chains are planar exactly where the list of all meets is empty.
pub fn planar_where_no_meet_is_listed()
    ensures { (chains : List MapChain) (meets : List Meet) → AreAllMeets chains meets →
        IsPlanar chains ↔ (meets ≡ []) }
{}

/// Where the chains that aren't marked are planar, of two segments that conflict one is of a chain that is marked.
pub fn a_meet_has_a_chain_that_is_marked()
    ensures { (marks : List Bool) (chains : List MapChain) (s t : ℕ) (r : Rational) → IsPlanar (remaining marks chains) → s < t →
        (meet : IsMeet chains s t r) → (slice_index_or marks meet.shared.c false ≡ true) ⊎ (slice_index_or marks meet.shared.d false ≡ true) }
{}
