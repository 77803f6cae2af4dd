//! The kinds of lines that a certificate has, but for those of nodes.

ghost use Rattle.std.specs.Prelude.{◌≡◌, ◌⊎◌, ◌<◌, ◌≤◌, ◌^◌, ◌↔◌, ◌∷◌, ◌++◌, [], ℕ, List, ⊤};
ghost use Rattle.std.specs.Prelude.{IsTrue, MatchOption, IfSome, length};
ghost use Rattle.tl_cert.specs.Certificates.{IsNumber, AreCountsInRange};
ghost use Rattle.tl_cert.specs.Text.{number, numbered_line, head_line, counts_line, end_line};
ghost use Rattle.tl_cert.specs.Keeping.Words.{StartsWord, StandsFirst, counts_words};
ghost use Rattle.tl_cert.specs.Keeping.Steps.{CanHave, roots};

use crate::certificate::Counts;
use crate::front::front_number;
use crate::number::{behind, last_number, split_number};

/// A kind of lines, each of which spells a value.
pub trait LineKind {
    /// What a line of this kind spells.
    type Value;

    // The line of a value, without its line feed.
    ghost spelt: { Self → Self.Value → List ℕ };

    // Which values a line may spell.
    ghost fits: { Self → Self.Value → Type 0 };

    /// The value that the line spells.
    fn parse(&self, line: &[u8]) -> Option<Self::Value>
        ensures { MatchOption result ((value : Self.Value) → fits self.now value → ¬ (line.now ≡ spelt self.now value))
            (λ value. fits self.now value × (line.now ≡ spelt self.now value)) };

    /// The value of the line that stands whole at the front of the bytes, and the line's length, where that is seen at
    /// once. None says nothing.
    fn front(&self, bytes: &[u8]) -> Option<(Self::Value, usize)>
        ensures { IfSome result (λ front. fits self.now front.0 × StandsFirst bytes.now (spelt self.now front.0) front.1) }
    {
        None
    }
}

/// A letter and a number that is not below `least`.
#[derive(Clone, Copy)]
pub struct Numbered {
    pub letter: u8,
    pub least: u32,
}

impl LineKind for Numbered {
    type Value = u32;

    ghost spelt = { λ kind n. numbered_line (kind.letter ∷ []) n };

    ghost fits = { λ kind n. IsNumber n × (kind.least ≤ n) };

    fn parse(&self, line: &[u8]) -> Option<u32> {
        let Some(n) = number_behind(line, self.letter) else {
            return None;
        };
        if n < self.least {
            return None;
        }
        Some(n)
    }

    #[inline(always)]
    fn front(&self, bytes: &[u8]) -> Option<(u32, usize)> {
        let Some((n, len)) = front_number(bytes, self.letter) else {
            return None;
        };
        if n < self.least {
            return None;
        }
        Some((n, len))
    }
}

/// The number of a line that has one behind this letter.
fn number_behind(line: &[u8], letter: u8) -> Option<u32>
    ensures { MatchOption result ((n : ℕ) → IsNumber n → ¬ (line.now ≡ numbered_line (letter ∷ []) n))
        (λ n. IsNumber n × (line.now ≡ numbered_line (letter ∷ []) n)) }
{
    let Some(others) = behind(line, letter) else {
        return None;
    };
    last_number(others)
}

/// Whether so many trees can have so many nodes in all.
pub fn can_have(version: u8, trees: u64, nodes: u64) -> bool
    requires trees { trees < 2 ^ 40 }
    requires nodes { nodes < 2 ^ 40 }
    ensures { IsTrue result ↔ CanHave version trees nodes }
{
    if trees == nodes {
        return true;
    }
    if trees == 0 || nodes < trees {
        return false;
    }
    let others = nodes - trees;
    if version >= 2 {
        others >= 2
    } else {
        others % 2 == 0
    }
}

/// How many trees so many nodes are: one, or none.
pub fn roots_of(nodes: u32) -> u32
    ensures { result ≡ roots nodes }
{
    nodes.min(1)
}

/// The number of nodes of a tree.
#[derive(Clone, Copy)]
pub struct TreeSize {
    pub version: u8,
}

impl LineKind for TreeSize {
    type Value = u32;

    ghost spelt = { λ kind n. numbered_line (84 ∷ []) n };

    ghost fits = { λ kind n. IsNumber n × CanHave kind.version (roots n) n };

    fn parse(&self, line: &[u8]) -> Option<u32> {
        let Some(n) = number_behind(line, b'T') else {
            return None;
        };
        if !can_have(self.version, u64::from(roots_of(n)), u64::from(n)) {
            return None;
        }
        Some(n)
    }
}

/// The first line, which tells the version.
#[derive(Clone, Copy)]
pub struct Head;

impl LineKind for Head {
    type Value = u8;

    ghost spelt = { λ kind version. head_line version };

    ghost fits = { λ kind version. (version ≡ 1) ⊎ (version ≡ 2) };

    fn parse(&self, line: &[u8]) -> Option<u8> {
        if line == b"TIGERCERT 1".as_slice() {
            return Some(1);
        }
        if line == b"TIGERCERT 2".as_slice() {
            return Some(2);
        }
        None
    }
}

/// The map's counts.
#[derive(Clone, Copy)]
pub struct CountsLine;

/// The counts that stand first, and the bytes behind them.
fn split_counts(bytes: &[u8]) -> Option<(Counts, &[u8])>
    ensures { MatchOption result
        ((c : Counts) (others : List ℕ) → AreCountsInRange c → StartsWord others
        → ¬ (bytes.now ≡ counts_words c ++ others))
        (λ split. (bytes.now ≡ counts_words split.0 ++ split.1.now) × StartsWord split.1.now
        × AreCountsInRange split.0) }
{
    let Some((chains, others)) = split_number(bytes) else {
        return None;
    };
    let Some((segments, others)) = split_number(others) else {
        return None;
    };
    let Some((nodes, others)) = split_number(others) else {
        return None;
    };
    let Some((polygons, others)) = split_number(others) else {
        return None;
    };
    let counts = Counts {
        chains,
        segments,
        nodes,
        polygons,
    };
    Some((counts, others))
}

impl LineKind for CountsLine {
    type Value = Counts;

    ghost spelt = { λ kind counts. counts_line counts };

    ghost fits = { λ kind counts. AreCountsInRange counts };

    fn parse(&self, line: &[u8]) -> Option<Counts> {
        let Some(others) = behind(line, b'C') else {
            return None;
        };
        let Some((counts, others)) = split_counts(others) else {
            return None;
        };
        if !others.is_empty() {
            return None;
        }
        Some(counts)
    }
}

/// The last line.
#[derive(Clone, Copy)]
pub struct EndLine;

impl LineKind for EndLine {
    type Value = ();

    ghost spelt = { λ kind value. end_line };

    ghost fits = { λ kind value. ⊤ };

    fn parse(&self, line: &[u8]) -> Option<()> {
        if line == b"END".as_slice() {
            return Some(());
        }
        None
    }
}
