//! Numbers: how many pairs of segments may be tested, and how many faults are told.

ghost use Rattle.std.specs.Prelude.{ℕ, ◌↔◌, MatchOption, IsTrue, option_map};
ghost use Rattle.tigertopo_words.specs.Arguments.{IsBudget, IsSpelt, AskForFaults, AskForTold};
ghost use Rattle.tigertopo_words.specs.Spelling.{MaySpell};

use crate::arguments::is_set;

/// What an audit is asked to tell.
#[derive(Clone, Copy)]
pub enum Told {
    /// One fault, where there is one.
    One,
    /// All of them, or the first so many, and how many there are. Where `skips`, lines that are refused are passed over: the faults of
    /// the records that are left are told too.
    All { most: Option<u64>, skips: bool },
}

/// The budget that was given, or the greatest where none was. A number is spelt with no sign and no leading zero; of a
/// text that spells none there is no budget.
pub fn budget_of(given: Option<&str>) -> Option<u64>
    ensures { MatchOption result ((n : ℕ) → ¬ IsBudget (option_map (λ text. text.now) given.entry) n)
        (λ n. IsBudget (option_map (λ text. text.now) given.entry) n) }
{
    match given {
        Some(text) => number_of(text),
        None => Some(u64::MAX),
    }
}

/// What an audit is asked to tell, by the values that were given for --all, for --most and for --skip-refused: one fault, or all of them
/// or the first so many. A number or --skip-refused without --all asks for nothing, and neither does a text that spells no number.
pub fn asked_by(all: Option<&str>, most: Option<&str>, skipped: Option<&str>) -> Option<Told>
    ensures { let each = option_map (λ text. text.now) all.entry in
        let number = option_map (λ text. text.now) most.entry in
        let passed = option_map (λ text. text.now) skipped.entry in
        MatchOption result (¬ AskForFaults each number passed) (AskForTold each number passed) }
{
    let skips = is_set(skipped);
    if !is_set(all) {
        return if skips || most.is_some() {
            None
        } else {
            Some(Told::One)
        };
    }
    match most {
        Some(text) => Some(Told::All {
            most: Some(number_of(text)?),
            skips,
        }),
        None => Some(Told::All { most: None, skips }),
    }
}

/// The number that the text spells, with no sign and no leading zero.
pub fn number_of(text: &str) -> Option<u64>
    ensures { MatchOption result ((n : ℕ) → ¬ IsSpelt text.now n) (λ n. IsSpelt text.now n) }
{
    if !may_spell(text.as_bytes()) {
        return None;
    }
    match text.parse::<u64>() {
        Ok(number) => Some(number),
        Err(_) => None,
    }
}

// Whether there are bytes, with no sign and no leading zero before others.
fn may_spell(bytes: &[u8]) -> bool
    ensures { IsTrue result ↔ MaySpell bytes.now }
{
    !bytes.is_empty() && bytes[0] != b'+' && (bytes[0] != b'0' || bytes.len() == 1)
}
