//! The layers of a map, and how they are spelt.

ghost use Rattle.std.specs.Prelude.{◌≡◌, ◌≢◌, Option, MatchOption, option_map};
ghost use Rattle.tigertopo_words.specs.Arguments.{IsLayer, layer_word};

/// A layer of a map: features of one kind, which a file of GeoJSON can have by themselves.
#[derive(Clone, Copy)]
pub enum Layer {
    /// The chains.
    Chains,
    /// The polygons' points.
    Points,
    /// The polygons.
    Polygons,
    /// The landmarks' points.
    Landmarks,
}

/// The layer that was given, if one was. A word that names none has no answer.
pub fn layer_by(given: Option<&str>) -> Option<Option<Layer>>
    ensures { let word = option_map (λ text. text.now) given.entry in
        MatchOption result ((layer : Option Layer) → ¬ IsLayer word layer) (IsLayer word) }
{
    let Some(word) = given else {
        return Some(None);
    };
    match layer_named(word) {
        Some(layer) => Some(Some(layer)),
        None => None,
    }
}

/// The layer of this name.
pub fn layer_named(word: &str) -> Option<Layer>
    ensures { MatchOption result ((layer : Layer) → word.now ≢ layer_word layer) (λ layer. word.now ≡ layer_word layer) }
{
    match word {
        "chains" => Some(Layer::Chains),
        "points" => Some(Layer::Points),
        "polygons" => Some(Layer::Polygons),
        "landmarks" => Some(Layer::Landmarks),
        _ => None,
    }
}
