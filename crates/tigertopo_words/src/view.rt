//! How a view is spelt, by the word of a point and that of a width.

ghost use Rattle.std.specs.Prelude.{ℕ, Option, MatchOption, option_map};
ghost use Rattle.tigertopo_words.specs.Arguments.{IsView, SpellsView, SpellsWidth};
ghost use Rattle.tigertopo_words.specs.declared.asked.View.{View};

use crate::asked::View;
use crate::budget::number_of;
use crate::point::point_of;

// The greatest width of a view, in millionths of a degree: the whole way round.
const GREATEST_WIDTH: u64 = 360_000_000;

/// The view that was given, if one was. One word without the other, and words that spell no point and no width, have no answer.
pub fn view_of(center: Option<&str>, width: Option<&str>) -> Option<Option<View>>
    ensures { let at = option_map (λ text. text.now) center.entry in
        let wide = option_map (λ text. text.now) width.entry in
        MatchOption result ((view : Option View) → ¬ IsView at wide view) (IsView at wide) }
{
    match (center, width) {
        (None, None) => Some(None),
        (Some(center), Some(width)) => match seen_by(center, width) {
            Some(view) => Some(Some(view)),
            None => None,
        },
        _ => None,
    }
}

// The view that two words spell.
fn seen_by(center: &str, width: &str) -> Option<View>
    ensures { MatchOption result ((view : View) → ¬ SpellsView center.now width.now view) (SpellsView center.now width.now) }
{
    let Some(center) = point_of(center) else {
        return None;
    };
    let Some(width) = width_of(width) else {
        return None;
    };
    Some(View { center, width })
}

/// The width that a word spells.
pub fn width_of(word: &str) -> Option<u32>
    ensures { MatchOption result ((width : ℕ) → ¬ SpellsWidth word.now width) (SpellsWidth word.now) }
{
    let Some(width) = number_of(word) else {
        return None;
    };
    if width < 1 || GREATEST_WIDTH < width {
        return None;
    }
    Some(width as u32)
}
