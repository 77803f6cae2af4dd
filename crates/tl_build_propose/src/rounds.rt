//! The rounds of a map: the darts of each node in the order of their headings.

ghost use Rattle.std.specs.Prelude.{◌≡◌, ◌≢◌, ◌↔◌, [], ℕ, ◌-◌, ◌<◌, ◌≤◌, zero};
ghost use Rattle.std.specs.Prelude.{length, map, All, IfOk, IsTrue, slice_index_or};
ghost use Rattle.std.specs.List.{concat};
ghost use Rattle.tl_check_sides.specs.declared.headed.HeadedDart.{HeadedDart};
ghost use Rattle.tl_build_propose.specs.Keeping.Lists.{darts_in, lists_in};
ghost use Rattle.tl_build_propose.specs.Keeping.Sorting.{AreSorted, AreStarts, AreCut};

use std::alloc::{AllocError, Global};
use tl_check_sides::{HeadedDart, sort_darts};
use tl_map_county::{Keyed, Map, run_end};

/// The darts of a map, those of each node together and counter-clockwise from east.
pub fn sort_starts(alloc: Global, map: &Map) -> Result<Vec<HeadedDart>, AllocError>
    ensures { IfOk result (λ starts. AreStarts map.now.chains starts.items) }
{
    sort_darts(alloc, map)
}

/// The rounds of darts that stand together by their nodes.
pub fn cut_rounds(
    alloc: Global,
    nodes: u32,
    starts: &[HeadedDart],
) -> Result<Vec<Vec<u32>>, AllocError>
    ensures whole { IfOk result (λ rounds. concat (map (λ r. r.items) rounds.items) ≡ darts_in starts.now) }
    ensures some { IfOk result (λ rounds. All (λ r. zero < length r.items) rounds.items) }
    ensures cut { IfOk result (λ rounds. AreSorted starts.now → AreCut starts.now [] (lists_in rounds.items)) }
{
    let mut rounds = Vec::with_capacity(alloc, nodes as usize)?;
    let mut rest = starts;
    while !rest.is_empty() {
        let (round, behind) = rest.split_at(first_round(rest));
        rounds.push(darts_of(alloc, round)?)?;
        rest = behind;
    }
    Ok(rounds)
}

/// How many of some darts, the first and those behind it, start at its node.
pub fn first_round(starts: &[HeadedDart]) -> usize
    requires { zero < length starts.now }
    ensures some { zero < result }
    ensures within { result ≤ length starts.now }
    ensures together { (k : ℕ) (d : HeadedDart) → zero < k → k < result →
        (slice_index_or starts.now k d).node ≡ (slice_index_or starts.now (k - 1) d).node }
    ensures apart { (d : HeadedDart) → result < length starts.now →
        (slice_index_or starts.now result d).node ≢ (slice_index_or starts.now (result - 1) d).node }
{
    run_end(starts, 1, starts[0].key())
}

/// The numbers of darts.
fn darts_of(alloc: Global, starts: &[HeadedDart]) -> Result<Vec<u32>, AllocError>
    ensures { IfOk result (λ darts. darts.items ≡ darts_in starts.now) }
{
    let mut darts = Vec::with_capacity(alloc, starts.len())?;
    for start in starts {
        darts.push(start.dart)?;
    }
    Ok(darts)
}
