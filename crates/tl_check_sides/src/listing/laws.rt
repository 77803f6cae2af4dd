//! Laws of the definitions, each the contract of a function that does nothing.

ghost use Rattle.std.specs.Prelude.{◌≡◌, ◌↔◌, ℕ, List, []};
ghost use Rattle.tl_map_county.specs.TheMap.{MapChain};
ghost use Rattle.tl_check_sides.specs.declared.fault.Disagreement.{Disagreement};
ghost use Rattle.tl_check_sides.specs.Sides.{SidesAgree};
ghost use Rattle.tl_check_sides.specs.declared.cells.at_odds.CellsAtOdds.{CellsAtOdds};
ghost use Rattle.tl_check_sides.specs.Cells.Cells.{CellsAgree, AreCellsAtOdds};
ghost use Rattle.tl_check_sides.specs.Listing.CellOdds.{AreToldAtOdds, AreAllCellsAtOdds};
ghost use Rattle.tl_check_sides.specs.Listing.Disagreements.{AreAllDisagreements};

/// Darts that are told as a pair are at odds.
pub fn pairs_that_are_told_are_at_odds()
    ensures { (chains : List MapChain) (a b id_a id_b : ℕ) → AreToldAtOdds chains a b id_a id_b →
        AreCellsAtOdds chains a b id_a id_b }
{}

/// Where there is no pair to tell, cells agree.
pub fn cells_agree_where_no_pair_is_told()
    ensures { (chains : List MapChain) → ((a b id_a id_b : ℕ) → ¬ AreToldAtOdds chains a b id_a id_b) →
        CellsAgree chains }
{}

/// Sides agree exactly where the list of all disagreements is empty.
pub fn sides_agree_where_no_disagreement_is_listed()
    ensures { (chains : List MapChain) (found : List Disagreement) → AreAllDisagreements chains found →
        SidesAgree chains ↔ (found ≡ []) }
{}

/// Cells agree exactly where the list of all pairs at odds is empty.
pub fn cells_agree_where_no_pair_is_listed()
    ensures { (chains : List MapChain) (found : List CellsAtOdds) → AreAllCellsAtOdds chains found →
        CellsAgree chains ↔ (found ≡ []) }
{}
