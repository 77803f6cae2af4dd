//! What holds of the definitions alone. Each law is a function that does nothing: its contract is the law.

ghost use Rattle.std.specs.Prelude.{◌≡◌, ◌≤◌, ◌++◌, ◌*ℤ◌, ℕ, List, map, codes, unsigned_abs};
ghost use Rattle.tl_geom.specs.declared.point.Point.{Point};
ghost use Rattle.tl_geom.specs.declared.rational.Rational.{Rational};
ghost use Rattle.tl_record.specs.Limits.{greatest_longitude, greatest_latitude};
ghost use Rattle.tl_record.specs.Lines.{raw_lines};
ghost use Rattle.tigertopo_files.specs.Joining.{joined};
ghost use Rattle.tigertopo_words.specs.Points.{Spells};
ghost use Rattle.tigertopo_faults.specs.Places.Degrees.{location_text};
ghost use Rattle.tigertopo_faults.specs.Places.LinePlaces.{line_count, lines_of_all, place_of, StandsAt};

/// The lines of several texts as one are those of all texts, one after the other.
pub fn texts_keep_their_lines()
    ensures { (texts : List (List ℕ)) → raw_lines (joined texts) ≡ lines_of_all texts }
{}

/// A line of several texts as one is the line of the text that its place names; and where there is no place, there is no
/// such line.
pub fn a_line_stands_at_its_place()
    ensures { (texts : List (List ℕ)) (number : ℕ) → 1 ≤ number →
        StandsAt texts number (place_of (map line_count texts) number) }
{}

/// What is printed of a place at whole millionths of a degree can be given: with `@` in front it spells the point, where that lies
/// within the limits of records.
pub fn a_printed_place_can_be_given()
    ensures { (at : Rational) (p : Point) → at.x ≡ p.x *ℤ at.d → at.y ≡ p.y *ℤ at.d
        → unsigned_abs p.x ≤ greatest_longitude → unsigned_abs p.y ≤ greatest_latitude → Spells (codes "@" ++ location_text at) p }
{}
