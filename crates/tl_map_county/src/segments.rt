//! The chain of each segment, by the segment's number.

ghost use Rattle.std.specs.Prelude.{◌≤◌, All, IfOk, length};
ghost use Rattle.tl_map_county.specs.Chains.{CompleteChain, IsProperChain};
ghost use Rattle.tl_map_county.specs.Limits.{most_segments};
ghost use Rattle.tl_map_county.specs.Keeping.Numbered.{AreNumberedSegments};

use crate::chains::Chains;
use std::alloc::{AllocError, Global};

/// Lists the chain of each segment.
pub fn number_segments(alloc: Global, chains: &Chains) -> Result<Vec<u32>, AllocError>
    requires { All (λ (c : CompleteChain). IsProperChain c.points) chains.now.chains }
    ensures { IfOk result (λ of. AreNumberedSegments chains.now.chains of.items × (length of.items ≤ most_segments)) }
{
    let total = chains.segments() as usize;
    let mut of = Vec::with_capacity(alloc, total)?;
    for c in 0..chains.len() {
        let count = chains.points(c).len() - 1;
        of.resize(of.len() + count, c)?;
    }
    Ok(of)
}
