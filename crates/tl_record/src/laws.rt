//! What holds of the definitions alone. Each law is a function that does nothing: its contract is the law.

ghost use Rattle.std.specs.Prelude.{◌≡◌, ◌↔◌, ◌+◌, ◌<◌, ◌≤◌, ℕ, List, Some, length, slice_get};
ghost use Rattle.tl_record.specs.declared.layout.Layout.{Layout};
ghost use Rattle.tl_record.specs.Lines.{raw_lines, AreLinesOf};
ghost use Rattle.tl_record.specs.declared.stop.Cause.TheVariants.{TooManyLines};
ghost use Rattle.tl_record.specs.Limits.{most_lines};
ghost use Rattle.tl_record.specs.Records.{records_of, lines_read};
ghost use Rattle.tl_record.specs.Refusals.{refusals_of};
ghost use Rattle.tl_record.specs.Left.{left_of, accepted_records};

/// A text has one list of raw lines: those that it is made of when they are joined by line feeds.
pub fn a_text_has_its_lines()
    ensures { (text : List ℕ) (lines : List (List ℕ)) → (raw_lines text ≡ lines) ↔ AreLinesOf text lines }
{}

/// The first refusal of a text is the one at which reading its records stops, and a text that has none is read whole.
pub fn the_first_refusal_stops_reading()
    ensures { (layout : Layout) (text : List ℕ) →
        slice_get (refusals_of layout text) 0 ≡ (records_of layout text).refusal }
{}

/// What is left of a text without its refused lines has all its records, those behind refused lines too, and no refused line; unless the text
/// has too many lines, which are refused if they are empty.
pub fn what_is_left_has_the_accepted_records()
    ensures few { (layout : Layout) (text : List ℕ) → length (raw_lines text) ≤ most_lines
        → lines_read layout (left_of layout text) ≡ accepted_records layout text }
    ensures many { (layout : Layout) (text : List ℕ) → most_lines < length (raw_lines text)
        → (lines_read layout (left_of layout text)).refusal ≡ Some (most_lines + 1, TooManyLines) }
{}
