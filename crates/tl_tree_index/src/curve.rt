//! A curve through the plane along which what is near mostly stays near.

/// How many times a square is quartered.
const LEVELS: u32 = 16;

// The curve passes the quarters of a square in one of four ways. They are numbered here by twice the eastern half and once
// the northern: of each way the turn at which it passes each quarter, and the way in which it passes through that quarter.
const TURNS: [[u32; 4]; 4] = [[0, 1, 3, 2], [0, 3, 1, 2], [2, 3, 1, 0], [2, 1, 3, 0]];

const WAYS: [[u8; 4]; 4] = [[1, 0, 3, 0], [0, 2, 1, 1], [2, 1, 2, 3], [3, 3, 0, 2]];

/// The place along Hilbert's curve of a square of 65,536 by 65,536, counted from the southwest. Greater numbers are taken
/// without their upper bits.
pub fn place_along(x: u32, y: u32) -> u32 {
    let mut place = 0;
    let mut way = 0;
    for level in (0..LEVELS).rev() {
        let quarter = ((x >> level) % 2 * 2 + (y >> level) % 2) as usize;
        place = place << 2 | TURNS[way as usize % 4][quarter];
        way = WAYS[way as usize % 4][quarter];
    }
    place
}
