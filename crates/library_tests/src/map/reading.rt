//! Chains and maps from reads that give one byte, and from those that fail.

use crate::map::keys::keys_of;
use std::alloc::Global;
use std::io;
use std::io::{ErrorKind, Read};
use tl_geom::Point;
use tl_map::{Chains, MapStop, read_chains, read_map};
use tl_record::{FailAt, Meter, Source};

/// A reader of a text that gives one byte a read.
#[derive(Drop)]
struct OneByte<'a> {
    rest: &'a [u8],
}

impl Read for OneByte<'_> {
    fn read(&mut self, buf: &mut [u8]) -> io::Result<usize> {
        let count = buf.len().min(1);
        self.rest.read(&mut buf[..count])
    }
}

/// A line, and a square as one chain, which comes behind it and has the lower TLID.
const TWO_CHAINS: &str =
    "10000         2                                                                                                                                                                               +000000001+00000001+000000009+00000009
10000         1                                                                                                                                                                               +000000010+00000010+000000010+00000010
20000         1  1+000000030+00000010+000000030+00000030+000000010+00000030
I0000         1
I0000         2";

/// That text, of which each read gives one byte, and the one behind so many others fails.
fn failing<'a>(others: u64) -> FailAt<Meter<OneByte<'a>>> {
    let rest = TWO_CHAINS.as_bytes();
    FailAt::new(Meter::new(OneByte { rest }), others, ErrorKind::Interrupted)
}

const POINTS: [Point; 5] = [
    Point { x: 10, y: 10 },
    Point { x: 30, y: 10 },
    Point { x: 30, y: 30 },
    Point { x: 10, y: 30 },
    Point { x: 10, y: 10 },
];

fn are_two(chains: &Chains) -> bool {
    chains.len() == 2
        && (chains.segments(), chains.skipped()) == (5, 0)
        && (chains.tlid(0), chains.tlid(1)) == (1, 2)
        && chains.points(0) == POINTS.as_slice()
        && chains.points(1).len() == 2
}

/// Whether the chains are those two where the read behind so many others fails; none where it stops them, and is counted.
fn read_two(alloc: Global, others: u64) -> Option<bool> {
    let mut source = failing(others);
    let is_stopped = match read_chains(alloc, &mut source) {
        Ok(chains) => return Some(are_two(&chains)),
        Err(stop) => stop == MapStop::Device,
    };
    if is_stopped && source.failures() == 1 {
        None
    } else {
        Some(false)
    }
}

/// Whether the map has these two.
fn read_map_of_two(alloc: Global, others: u64) -> Option<bool> {
    match read_map(alloc, keys_of(9).ok()?, &mut failing(others)) {
        Ok(map) => Some(map.segments() == 5 && map.nodes() == 3),
        Err(MapStop::Device) => None,
        Err(_) => Some(false),
    }
}

#[test]
fn each_read_fails(rt: HostRuntime) {
    // the last read finds the end
    for others in 0..=TWO_CHAINS.len() as u64 {
        let is_stopped = read_two(rt.alloc(), others).is_none()
            && read_map_of_two(rt.alloc(), others).is_none();
        assert!(rt; is_stopped, "{others}");
    }
    assert!(rt; read_two(rt.alloc(), u64::MAX) == Some(true));
    assert!(rt; read_map_of_two(rt.alloc(), u64::MAX) == Some(true));
}
