//! Laws of the definitions, each the contract of a function that does nothing.

ghost use Rattle.std.specs.Prelude.{ℕ, List};
ghost use Rattle.tl_map_county.specs.TheMap.{MapChain};
ghost use Rattle.tl_check_sides.specs.Cells.Cells.{CellsAgree, AreCellsAtOdds};

/// Where two darts are at odds, cells don't agree.
pub fn cells_at_odds_do_not_agree()
    ensures { (chains : List MapChain) (a b id_a id_b : ℕ) → AreCellsAtOdds chains a b id_a id_b → ¬ CellsAgree chains }
{}
