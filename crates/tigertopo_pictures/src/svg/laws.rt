//! Laws of the definitions, each the contract of a function that does nothing.

ghost use Rattle.std.specs.Prelude.{◌≡◌, ◌≢◌, ◌<◌, ℕ, List, slice_index};
ghost use Rattle.tl_map_county.specs.TheMap.{MapChain};
ghost use Rattle.tigertopo_pictures.specs.Svg.Colours.{AreColours, AreNeighbours, hue};

/// Neighbours have different colours.
pub fn neighbours_differ()
    ensures { (chains : List MapChain) (count : ℕ) (colours : List ℕ) → AreColours chains count colours → (p q : ℕ) → p < count → q < count →
        p ≢ q → AreNeighbours chains p q → slice_index colours p ≢ slice_index colours q }
{}

/// The first 360 colours have different hues.
pub fn hues_differ()
    ensures { (a b : ℕ) → a < 360 → b < 360 → hue a ≡ hue b → a ≡ b }
{}
