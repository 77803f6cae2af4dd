//! What lies on the two sides of a segment that a ray crosses.

ghost use Rattle.std.specs.Prelude.{◌≡◌, ◌<◌, length, All, OnOk};
ghost use Rattle.tl_map_county.specs.Segments.{segments_before};
ghost use Rattle.tl_check_inside.specs.Inside.{flanks_at};
ghost use Rattle.tl_check_inside.specs.Keeping.Tallies.{flanks_in};

use tl_map_county::{Map, Side};
use tl_tree_index::Memory;

/// The two sides of a segment: the near side, which a point west of it sees, and the far side. The near side is the left
/// one where the segment goes up, and the right one where it doesn't.
#[derive(Clone, Copy, Debug, PartialEq, Eq)]
pub struct Flanks {
    pub near: Side,
    pub far: Side,
}

/// The sides of a segment by its number.
pub fn flanks_of(map: &Map, s: u32) -> Flanks
    requires { s < segments_before map.now.chains (length map.now.chains) }
    ensures { result ≡ flanks_at map.now.chains s }
{
    let segment = map.segment(s);
    let chain = map.chain(map.segment_chain(s));
    if segment.a().y < segment.b().y {
        Flanks {
            near: chain.left,
            far: chain.right,
        }
    } else {
        Flanks {
            near: chain.right,
            far: chain.left,
        }
    }
}

/// Lists the sides of these segments, in the place of those that were listed.
pub fn list_flanks(map: &Map, segments: &[u32], flanks: &mut Vec<Flanks>) -> Result<(), Memory>
    requires known { All (λ s. s < segments_before map.now.chains (length map.now.chains)) segments.now }
    ensures { OnOk result (flanks.new.items ≡ flanks_in map.now.chains segments.now) }
{
    flanks.clear();
    for place in 0..segments.len() {
        if flanks.push(flanks_of(map, segments[place])).is_err() {
            return Err(Memory);
        }
    }
    Ok(())
}
