//! What a map says of its chains, polygons, landmarks, nodes, segments and darts.

use crate::map::keys::keys_of;
use std::alloc::Global;
use tl_geom::Point;
use tl_map::{Map, Side, read_map_with};
use tl_record::{Meter, Options, PLAIN, PolyKey};

/// A square with landmarks, and a chain north of it with a zero-cell id at its start. Polygon 1 of another CENID has another
/// key.
const SQUARE: &str =
    "10000         1                                                                                                                                                                               +000000010+00000010+000000010+00000010
20000         1  1+000000030+00000010+000000030+00000030+000000010+00000030
I0000         1                         A0001         1
P0000     B0001         1+000000025+00000025
P0000     A0001         1+000000020+00000020
70000              7
70000              5                                  +000000001+00000002
70000              7                                  +000000003+00000004
80000     A0001         1         7
80000     A0001         1         7
10000         2                                                                                                                                                                               +000000005+00000030-000000007+00000031
20000         2  1+000000004+00000033
I0000         2              5          B0001         1A0001         1";

const A1: PolyKey = PolyKey {
    cenid: *b"A0001",
    polyid: 1,
};

fn at(x: i32, y: i32) -> Point {
    Point { x, y }
}

fn has_numbers(map: &Map) -> bool {
    (map.chains(), map.segments(), map.nodes()) == (2, 6, 3)
        && (map.polygons(), map.landmarks(), map.skipped()) == (2, 2, 0)
}

fn has_chains(map: &Map) -> bool {
    if map.chains() < 2 {
        return false;
    }
    let (first, second) = (map.chain(0), map.chain(1));
    (first.tlid, first.left, first.right) == (1, Side::Polygon(1), Side::Outside)
        && (second.tlid, second.left, second.right) == (2, Side::Polygon(0), Side::Polygon(1))
        && second.points == [at(5, 30), at(4, 33), at(-7, 31)].as_slice()
}

fn has_polygons_and_landmarks(map: &Map) -> bool {
    if map.polygons() < 2 || map.landmarks() < 2 {
        return false;
    }
    let (polygon, seven, five) = (map.polygon(1), map.landmark(0), map.landmark(1));
    polygon.key == A1
        && polygon.point == at(20, 20)
        && (seven.land, seven.point) == (7, None)
        && seven.polygons == [1].as_slice()
        && (five.land, five.point) == (5, Some(at(1, 2)))
        && five.polygons.is_empty()
}

fn has_segment(map: &Map) -> bool {
    if map.segments() < 5 {
        return false;
    }
    let segment = map.segment(4);
    map.segment_chain(4) == 1 && (segment.a(), segment.b()) == (at(5, 30), at(4, 33))
}

/// What is wanted of a dart: its number, its node, where it starts and ends, its heading, and what lies on its left.
type Dart = (u32, u32, (i32, i32), (i32, i32), (i64, i64), Side);

// Nodes are numbered from west to east.
const DARTS: [Dart; 4] = [
    (0, 2, (10, 10), (10, 10), (20, 0), Side::Polygon(1)),
    (1, 2, (10, 10), (10, 10), (0, 20), Side::Outside),
    (2, 1, (5, 30), (-7, 31), (-1, 3), Side::Polygon(0)),
    (3, 0, (-7, 31), (5, 30), (11, 2), Side::Polygon(1)),
];

fn has_dart(map: &Map, (dart, node, from, to, heading, left): Dart) -> bool {
    if dart / 2 >= map.chains() {
        return false;
    }
    let direction = map.dart_heading(dart);
    map.dart_node(dart) == node
        && map.dart_left(dart) == left
        && map.dart_start(dart) == at(from.0, from.1)
        && map.dart_end(dart) == at(to.0, to.1)
        && (direction.x, direction.y) == heading
        && map.dart_cell(dart) == if dart == 2 { Some(5) } else { None }
}

/// Whether the map is as it has to be.
fn is_right(map: &Map) -> bool {
    has_numbers(map)
        && has_chains(map)
        && has_polygons_and_landmarks(map)
        && has_segment(map)
        && map.darts() == 4
        && DARTS.iter().all(|dart| has_dart(map, *dart))
}

/// Whether the map that is read with these keys is.
fn is_seen(alloc: Global, byte: u8) -> bool {
    let Ok(hasher) = keys_of(byte) else {
        return false;
    };
    let options = Options {
        zero_cells: true,
        released: false,
        ..PLAIN
    };
    match read_map_with(alloc, hasher, &mut Meter::new(SQUARE.as_bytes()), options) {
        Ok(map) => is_right(&map),
        Err(_) => false,
    }
}

#[test]
fn a_square_with_landmarks(rt: HostRuntime) {
    for byte in [0, 5, 255] {
        assert!(rt; is_seen(rt.alloc(), byte), "{byte}");
    }
}
