//! Laws of the definitions, each the contract of a function that does nothing.

ghost use Rattle.std.specs.Prelude.{ℕ, List};
ghost use Rattle.tl_map_county.specs.TheMap.{MapChain};
ghost use Rattle.tl_map_county.specs.declared.sides.Side.{Side};
ghost use Rattle.tl_check_sides.specs.Sides.{SidesAgree, IsClosed};
ghost use Rattle.tl_check_sides.specs.Walks.{AreWalks};

/// Where sides agree, rings in which each dart stands once sort into boundaries: each side's boundary is closed rings.
pub fn closed_boundaries()
    ensures { (chains : List MapChain) (walks : List (List ℕ)) (side : Side) →
        AreWalks chains walks → SidesAgree chains → IsClosed chains side }
{}
