//! The records of small maps, and certificates.

use crate::keys::fixed_keys;
use std::alloc::Global;
use tl_map::read_map;
use tl_map_county::Map;
use tl_record::Meter;

/// The map of records.
pub fn map_of(alloc: Global, records: &str) -> Option<Map> {
    read_map(
        alloc,
        fixed_keys().ok()?,
        &mut Meter::new(records.as_bytes()),
    )
    .ok()
}

/// A square of polygon 1.
pub const SQUARE: &str =
    "10000         1                                                                                                                                                                               +000000010+00000010+000000010+00000010
20000         1  1+000000030+00000010+000000030+00000030+000000010+00000030
I0000         1                         A0001         1
P0000     A0001         1+000000020+00000020";

/// That with a chain from its corner to a dead end in it.
pub const DEAD_END: &str =
    "10000         1                                                                                                                                                                               +000000010+00000010+000000010+00000010
20000         1  1+000000030+00000010+000000030+00000030+000000010+00000030
I0000         1                         A0001         1
P0000     A0001         1+000000020+00000020
10000         2                                                                                                                                                                               +000000010+00000010+000000015+00000015
I0000         2                         A0001         1A0001         1";

/// A square of polygon 2 within one of polygon 1, and a landmark on both.
pub const ISLAND: &str =
    "10000         1                                                                                                                                                                               +000000010+00000010+000000010+00000010
20000         1  1+000000030+00000010+000000030+00000030+000000010+00000030
I0000         1                         A0001         1
P0000     A0001         1+000000020+00000020
10000         2                                                                                                                                                                               +000000014+00000014+000000014+00000014
20000         2  1+000000018+00000014+000000018+00000018+000000014+00000018
I0000         2                         A0001         2A0001         1
P0000     A0001         2+000000016+00000016
70000              7
80000     A0001         1         7
80000     A0001         2         7";

/// That with nothing on the right of the inner square, so that polygon 1 holds the point of polygon 2 too.
pub const OPEN: &str =
    "10000         1                                                                                                                                                                               +000000010+00000010+000000010+00000010
20000         1  1+000000030+00000010+000000030+00000030+000000010+00000030
I0000         1                         A0001         1
P0000     A0001         1+000000020+00000020
10000         2                                                                                                                                                                               +000000014+00000014+000000014+00000014
20000         2  1+000000018+00000014+000000018+00000018+000000014+00000018
I0000         2                         A0001         2
P0000     A0001         2+000000016+00000016
70000              7
80000     A0001         1         7
80000     A0001         2         7";

/// The island with the point of polygon 1 on its chain.
pub const ON_CHAIN: &str =
    "10000         1                                                                                                                                                                               +000000010+00000010+000000010+00000010
20000         1  1+000000030+00000010+000000030+00000030+000000010+00000030
I0000         1                         A0001         1
P0000     A0001         1+000000010+00000020
10000         2                                                                                                                                                                               +000000014+00000014+000000014+00000014
20000         2  1+000000018+00000014+000000018+00000018+000000014+00000018
I0000         2                         A0001         2A0001         1
P0000     A0001         2+000000016+00000016
70000              7
80000     A0001         1         7
80000     A0001         2         7";

/// The island with the point of polygon 1 in polygon 2.
pub const IN_HOLE: &str =
    "10000         1                                                                                                                                                                               +000000010+00000010+000000010+00000010
20000         1  1+000000030+00000010+000000030+00000030+000000010+00000030
I0000         1                         A0001         1
P0000     A0001         1+000000017+00000015
10000         2                                                                                                                                                                               +000000014+00000014+000000014+00000014
20000         2  1+000000018+00000014+000000018+00000018+000000014+00000018
I0000         2                         A0001         2A0001         1
P0000     A0001         2+000000016+00000016
70000              7
80000     A0001         1         7
80000     A0001         2         7";

/// Two chains that start in one line.
pub const OVERLAP: &str =
    "10000         1                                                                                                                                                                               +000000000+00000000+000000010+00000010
10000         2                                                                                                                                                                               +000000000+00000000+000000020+00000020
I0000         1
I0000         2";

/// Two chains that cross in the middle of the plane.
pub const CROSSING: &str =
    "10000         1                                                                                                                                                                               -180000000-90000000+180000000+90000000
10000         2                                                                                                                                                                               -180000000+90000000+180000000-90000000
I0000         1
I0000         2";

/// That of the square with a dead end.
pub const DEAD_END_CERT: &str =
    "TIGERCERT 1\nC 2 5 2 1\nT 1\nL 10 10 30 30 5\nS 0\nS 1\nS 2\nS 3\nS 4\nN 2\nR 3\nD 0\nD 2\nD 1\nR 1\nD 3\nW 2\nK 3\nD 0\nD 2\nD 3\nK 1\nD 1\nEND\n";

/// That of the island.
pub const ISLAND_CERT: &str =
    "TIGERCERT 1\nC 2 8 2 2\nT 1\nL 10 10 30 30 8\nS 0\nS 1\nS 2\nS 3\nS 4\nS 5\nS 6\nS 7\nN 2\nR 2\nD 0\nD 1\nR 2\nD 2\nD 3\nW 4\nK 1\nD 0\nK 1\nD 1\nK 1\nD 2\nK 1\nD 3\nEND\n";

/// That of the square with its round turned, and with no walk.
pub const TURNED_CERT: &str =
    "TIGERCERT 1\nC 1 4 1 1\nT 1\nL 10 10 30 30 4\nS 0\nS 1\nS 2\nS 3\nN 1\nR 2\nD 1\nD 0\nW 0\nEND\n";
