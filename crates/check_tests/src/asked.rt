//! What is said of small maps.

use crate::indexes::are_right_by_all;
use crate::maps::{
    CROSSING, DEAD_END_CERT, IN_HOLE, ISLAND, ISLAND_CERT, ON_CHAIN, OPEN, OVERLAP, SQUARE,
    TURNED_CERT, map_of,
};
use crate::parts::{is_misplaced, meet_at};
use crate::verdicts::{is_decided, is_decided_in_memory};
use std::alloc::Global;
use tl_check::{CertFault, Report, Verdict};
use tl_check_inside::Misplaced;
use tl_check_sides::RoundFault;
use tl_geom::Rational;
use tl_map_county::Map;
use tl_record::PolyKey;

/// What is asked of a map, and the answer that is wanted.
#[derive(Clone, Copy)]
enum Asked {
    /// Where its two chains meet.
    Meet(Rational),
    /// Which polygon's point is misplaced, and how.
    Misplaced(Option<Misplaced>),
    /// Where the points of the island lie.
    Places,
    /// What is decided by the certificate.
    Verdict(Verdict),
}

/// Whether a map answers so, by a certificate where one is asked for.
fn answers(alloc: Global, map: &Map, cert: &str, asked: Asked) -> bool {
    match asked {
        Asked::Meet(at) => meet_at(map, at),
        Asked::Misplaced(wanted) => is_misplaced(alloc, map, wanted),
        Asked::Places => are_right_by_all(alloc, map),
        Asked::Verdict(wanted) => {
            is_decided(alloc, map, cert, wanted) && is_decided_in_memory(alloc, map, cert, wanted)
        }
    }
}

/// Whether the map of records does.
fn is_answered(alloc: Global, records: &str, cert: &str, asked: Asked) -> bool {
    match map_of(alloc, records) {
        Some(map) => answers(alloc, &map, cert, asked),
        None => false,
    }
}

/// The key of a polygon.
fn key(polyid: u64) -> PolyKey {
    PolyKey {
        cenid: *b"A0001",
        polyid,
    }
}

#[test]
fn small_maps(rt: HostRuntime) {
    let (polygon, other) = (key(1), key(2));
    let report = Report {
        chains: 2,
        segments: 8,
        nodes: 2,
        polygons: 2,
        landmarks: 1,
        rings: 4,
    };
    let turned = CertFault::Round(RoundFault::OrderNotRising(0));
    let (counts, sound) = (
        Verdict::CertFault(CertFault::Counts),
        Verdict::Sound(report),
    );
    let half = Rational { x: 10, y: 10, d: 2 };
    let middle = Rational {
        x: 0,
        y: 0,
        d: 129_600_000_000_000_000,
    };
    let in_other = Misplaced::InOther {
        polygon: other,
        other: polygon,
    };
    for (records, cert, asked) in [
        (OVERLAP, "", Asked::Meet(half)),
        (CROSSING, "", Asked::Meet(middle)),
        (ISLAND, "", Asked::Places),
        (ISLAND, "", Asked::Misplaced(None)),
        (
            ON_CHAIN,
            "",
            Asked::Misplaced(Some(Misplaced::OnChain { polygon, tlid: 1 })),
        ),
        (
            IN_HOLE,
            "",
            Asked::Misplaced(Some(Misplaced::Outside { polygon })),
        ),
        (OPEN, "", Asked::Misplaced(Some(in_other))),
        (ISLAND, ISLAND_CERT, Asked::Verdict(sound)),
        (
            SQUARE,
            TURNED_CERT,
            Asked::Verdict(Verdict::CertFault(turned)),
        ),
        (SQUARE, DEAD_END_CERT, Asked::Verdict(counts)),
    ] {
        assert!(rt; is_answered(rt.alloc(), records, cert, asked));
    }
}
