//! The file and the line of a line of several files as one text.

ghost use Rattle.std.specs.Prelude.{◌≡◌, option_map};
ghost use Rattle.tigertopo_faults.specs.Places.LinePlaces.{place_of, place_pair};

/// A line of one of several texts.
#[derive(Clone, Copy, Debug, PartialEq, Eq)]
pub struct TextLine {
    /// The text's number, counted from 0.
    pub text: usize,
    /// The line's number in it, counted from 1.
    pub line: u64,
}

/// Where line `number`, counted from 1, of all texts as one stands, if they have so many lines. `counts` says how many
/// lines each of them has.
pub fn place_of(counts: &[u64], number: u64) -> Option<TextLine>
    ensures { option_map place_pair result ≡ place_of counts.now number }
{
    let mut line = number;
    for text in 0..counts.len() {
        let count = counts[text];
        if line <= count {
            return Some(TextLine { text, line });
        }
        line -= count;
    }
    None
}
