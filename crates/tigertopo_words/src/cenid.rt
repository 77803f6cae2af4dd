//! How the name of a border's polygon is spelt: as a CENID.

ghost use Rattle.std.specs.Prelude.{◌≡◌, ℕ, List, MatchOption, option_map, slice_index_or};
ghost use Rattle.std.specs.List.{list_all};
ghost use Rattle.tl_record.specs.Fields.{is_cenid_byte};
ghost use Rattle.tigertopo_words.specs.Arguments.{IsCenid, SpellsCenid};

/// The CENID that was given: one to five bytes from 0x20 to 0x7E, filled up with blanks. Another word, and none, have no answer.
pub fn cenid_of(given: Option<&str>) -> Option<[u8; 5]>
    ensures { let word = option_map (λ text. text.now) given.entry in
        MatchOption result ((cenid : List ℕ) → ¬ IsCenid word cenid) (IsCenid word) }
{
    match given {
        Some(word) => cenid_spelt(word.as_bytes()),
        None => None,
    }
}

// The CENID that a word spells.
fn cenid_spelt(word: &[u8]) -> Option<[u8; 5]>
    ensures { MatchOption result ((cenid : List ℕ) → ¬ SpellsCenid word.now cenid) (SpellsCenid word.now) }
{
    if word.is_empty() || 5 < word.len() || !is_printed(word) {
        return None;
    }
    Some([
        byte_at(word, 0),
        byte_at(word, 1),
        byte_at(word, 2),
        byte_at(word, 3),
        byte_at(word, 4),
    ])
}

// Whether all bytes are such that a CENID may have them.
fn is_printed(word: &[u8]) -> bool
    ensures { result ≡ list_all is_cenid_byte word.now }
{
    word.iter().all(|byte| 0x20 <= *byte && *byte <= 0x7e)
}

// The byte at a place, or a blank behind the last one.
fn byte_at(word: &[u8], place: usize) -> u8
    ensures { result ≡ slice_index_or word.now place 32 }
{
    if place < word.len() {
        word[place]
    } else {
        b' '
    }
}
