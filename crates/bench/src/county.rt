//! A county: a square of blocks, whose sides are streets of 1 to 5 segments, now and then one left out.
use crate::streets::Streets;
use std::alloc::{AllocError, Global};
use tl_geom::Point;

// The side of a block, in millionths of a degree.
const SIDE: i64 = 1200;

const WEST: i64 = -76_700_000;

const SOUTH: i64 = 39_200_000;

/// A generator of numbers that are all alike from run to run.
#[derive(Drop)]
struct Numbers {
    state: u64,
}

impl Numbers {
    fn below(&mut self, n: u64) -> u64 {
        self.state = self
            .state
            .wrapping_mul(6364136223846793005)
            .wrapping_add(1442695040888963407);
        if n == 0 { 0 } else { (self.state >> 33) % n }
    }
}

fn clamped(v: i64) -> i32 {
    i32::try_from(v).unwrap_or(i32::MAX)
}

/// The points of a street that starts at a node, a little aside of the straight line, eastward or northward.
fn street(
    streets: &mut Streets,
    numbers: &mut Numbers,
    i: i64,
    j: i64,
    across: bool,
) -> Result<(), AllocError> {
    let x = WEST.wrapping_add(i.wrapping_mul(SIDE));
    let y = SOUTH.wrapping_add(j.wrapping_mul(SIDE));
    let parts = match numbers.below(4) {
        0 => 1,
        1 => 2,
        2 => 3,
        _ => 5,
    };
    let mut last = Point {
        x: clamped(x),
        y: clamped(y),
    };
    for step in 1i64..=5 {
        if step > parts {
            break;
        }
        let along = SIDE.wrapping_mul(step).checked_div(parts).unwrap_or(0);
        let drawn = i64::try_from(numbers.below(199)).unwrap_or(0);
        let aside = if step == parts {
            0
        } else {
            drawn.wrapping_sub(99)
        };
        let (east, north) = if across {
            (aside, along)
        } else {
            (along, aside)
        };
        let next = Point {
            x: clamped(x.wrapping_add(east)),
            y: clamped(y.wrapping_add(north)),
        };
        streets.add(last, next)?;
        last = next;
    }
    Ok(())
}

/// The streets of a county of at least as many segments, if they fit between the borders of an i32.
pub fn county(alloc: Global, segments: u32) -> Result<Streets, AllocError> {
    let mut streets = Streets::new(alloc);
    let mut numbers = Numbers { state: 2006 };
    let wanted = segments as usize;
    let mut side = 1i64;
    for _ in 0..40_000 {
        if side.wrapping_mul(side).wrapping_mul(77) >= i64::from(segments).wrapping_mul(16) {
            break;
        }
        side = side.wrapping_add(1);
    }
    for j in 0..side {
        for i in 0..side {
            if streets.count() < wanted {
                street(&mut streets, &mut numbers, i, j, false)?;
            }
            if streets.count() < wanted && i.wrapping_add(j) & 3 != 0 {
                street(&mut streets, &mut numbers, i, j, true)?;
            }
        }
    }
    Ok(streets)
}
