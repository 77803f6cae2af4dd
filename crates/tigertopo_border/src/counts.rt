//! The numbers of a border.

ghost use Rattle.std.specs.Prelude.{◌≡◌, ◌<◌, length};
ghost use Rattle.tigertopo_border.specs.Border.{chain_count, segment_count, segments_at};

use crate::chain::has_blank;
use tl_map_county::Map;

/// How many chains the border of a map has.
pub fn chain_count(map: &Map) -> u32
    ensures { result ≡ chain_count map.now }
{
    let mut count = 0;
    for number in 0..map.chains() {
        count += u32::from(has_blank(&map.chain(number)));
    }
    count
}

/// How many segments it has.
pub fn segment_count(map: &Map) -> u32
    ensures { result ≡ segment_count map.now }
{
    // so that a sum of segments fits
    map.segments();
    let mut count = 0;
    for number in 0..map.chains() {
        count += segments_at(map, number);
    }
    count
}

// How many of them are of the chain of this number.
fn segments_at(map: &Map, number: u32) -> u32
    requires { number < length map.now.chains }
    ensures { result ≡ segments_at map.now number }
{
    // so that the number of the chain's points fits
    map.segments();
    let chain = map.chain(number);
    if has_blank(&chain) {
        chain.points.len() as u32 - 1
    } else {
        0
    }
}
