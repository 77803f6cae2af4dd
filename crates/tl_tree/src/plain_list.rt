//! The plain index: a list of all items.
ghost use Rattle.std.specs.Prelude.{◌≡◌, ◌<◌, ◌≤◌};
ghost use Rattle.tl_tree_index.specs.Pairs.{row_sum, AllRow, AreToldApart, indices};
ghost use Rattle.tl_tree.specs.Keeping.Walking.{MayLeave};

use crate::search::{Progress, answer, test_pair};
use crate::{BoxIndex, Items, Memory, Probe, Search};
use std::marker::Model;

/// All items, with no tree over them: each pair whose rectangles meet is tested, and each item is asked.
#[derive(Drop)]
pub struct PlainList {
    len: u32,
}

impl Model for PlainList {
    ghost use Rattle.std.specs.Prelude.{ℕ};

    ghost Value = { ℕ };

    ghost view = { λ list. list.len };
}

impl PlainList {
    /// The list of `len` items, which fits items of that number.
    pub fn new(len: u32) -> PlainList
        ensures { result ≡ len }
    {
        PlainList { len }
    }
}

/// Tests an item against each item below it.
fn test_below<I: Items>(items: &I, j: u32, progress: &mut Progress<I::C>) -> bool
    requires known { j < I.count items.now }
    requires nothing_found { progress.old.found ≡ None }
    ensures { MayLeave (I.count items.now) (I.bounds_of items.now) (I.tells items.now)
        (λ f. row_sum f j (indices j))
        (AllRow (AreToldApart (I.tells items.now)) j (indices j)) progress.old progress.new result }
{
    for i in 0..j {
        if !test_pair(items, j, i, progress) {
            return false;
        }
    }
    true
}

impl BoxIndex for PlainList {
    ghost fits = { λ list n _. list ≡ n };

    fn first_conflict<I: Items>(&self, items: &I, budget: u64) -> Search<I::C> {
        let mut progress = Progress {
            left: budget,
            found: None,
        };
        for j in 0..self.len {
            if !test_below(items, j, &mut progress) {
                return answer(false, progress);
            }
        }
        answer(true, progress)
    }

    fn collect_hits<I: Items, P: Probe<I>>(
        &self,
        items: &I,
        probe: &P,
        out: &mut Vec<u32>,
    ) -> Result<(), Memory> {
        let before = out.len();
        for i in 0..self.len {
            if probe.hits(items, i) && out.push(i).is_err() {
                out.truncate(before);
                return Err(Memory);
            }
        }
        Ok(())
    }
}
