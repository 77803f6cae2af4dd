//! The check of a map and a certificate in memory.

ghost use Rattle.std.specs.Prelude.{IfErr};
ghost use Rattle.tl_check_planar.specs.Planar.{IsPlanar};
ghost use Rattle.tl_check_verdict.specs.Sound.{IsSound, IsSoundFor};
ghost use Rattle.tl_check_verdict.specs.Valid.{AllowsSearch, IsValid};
ghost use Rattle.tl_check_verdict.specs.Truth.{IsTrueOfMap, IsTrueOfMapFor, IsTrueOfCert};
ghost use Rattle.tl_check.specs.Keeping.Searching.{AreFirstGaps};
ghost use Rattle.tl_check.specs.Keeping.Read.{IsOfCert};
ghost use Rattle.tl_check.specs.Keeping.Streams.{Shows};
ghost use Rattle.tl_check_verdict.specs.Verdicts.{OnSound, OnSoundButFaces, IfSound, IfMapFault, IfCertFault, OnDartFault, UnlessMeet, OnSearched, IsReport, IsWithinBudget, MayStop};

use crate::answer::answer;
use crate::as_read::take_counted;
use crate::faces::with_faces;
use crate::rounds::{end_rounds, take_round};
use crate::walks::{conclude, take_walk};
use std::alloc::Global;
use tl_cert::Certificate;
use tl_cert_output::Stop;
use tl_check_faces::OddGap;
use tl_check_verdict::Verdict;
use tl_map_county::Map;

/// Decides whether a map is sound, by a certificate of it. `budget` is how many pairs of segments may be tested whose
/// rectangles meet.
///
/// [`Stop::Memory`] and [`Stop::Budget`] are the only stops.
pub fn check_map(alloc: Global, map: &Map, cert: &Certificate, budget: u64) -> Result<Verdict, Stop>
    // The map is sound.
    ensures sound { OnSound result (IsSound map.now) }
    // The certificate is valid for the map.
    ensures valid { OnSoundButFaces result (IsValid map.now cert.now) }
    // At most as many pairs of segments as the budget have rectangles that meet.
    ensures within { OnSoundButFaces result (IsWithinBudget budget map.now) }
    // The report has the map's numbers.
    ensures report { IfSound result (IsReport map.now) }
    // Each fault is true, and none is of faces.
    ensures map_fault { IfMapFault result (IsTrueOfMap map.now) }
    ensures cert_fault { IfCertFault result (IsTrueOfCert map.now cert.now) }
    // One of rounds or of walks comes only where the chains are planar.
    ensures behind { OnDartFault result (IsPlanar map.now.chains) }
    // Where a search may be made by the certificate, and two segments meet where they may not, the answer is such a meet, or a
    // stop.
    ensures meets { UnlessMeet result (AllowsSearch map.now cert.now → IsPlanar map.now.chains) }
    // A fault of the map comes only where a search may be made by the certificate, and so does a stop for the budget.
    ensures searched { OnSearched result (AllowsSearch map.now cert.now) }
    // It stops where memory was refused, or more than the budget had to be tested.
    ensures stops { IfErr result (MayStop map.now budget) }
{
    check_map_with(alloc, map, cert, budget, false)
}

/// Decides as [`check_map`] does whether a map is sound, and where `faces` are asked for, whether they agree. They are looked at
/// only where nothing else is wrong with the map.
pub fn check_map_with(
    alloc: Global,
    map: &Map,
    cert: &Certificate,
    budget: u64,
    faces: bool,
) -> Result<Verdict, Stop>
    // The map is sound, and keeps what is asked of its faces.
    ensures sound { OnSound result (IsSoundFor faces map.now) }
    ensures valid { OnSoundButFaces result (IsValid map.now cert.now) }
    ensures within { OnSoundButFaces result (IsWithinBudget budget map.now) }
    ensures report { IfSound result (IsReport map.now) }
    // Each fault is true; one of faces comes only where they are asked for, and nothing else is wrong with the map.
    ensures map_fault { IfMapFault result (IsTrueOfMapFor faces map.now) }
    ensures cert_fault { IfCertFault result (IsTrueOfCert map.now cert.now) }
    ensures behind { OnDartFault result (IsPlanar map.now.chains) }
    ensures meets { UnlessMeet result (AllowsSearch map.now cert.now → IsPlanar map.now.chains) }
    ensures searched { OnSearched result (AllowsSearch map.now cert.now) }
    ensures stops { IfErr result (MayStop map.now budget) }
{
    decide(alloc, map, cert, budget, faces)
}

// The same, with one clause for all that the answer says.
fn decide(
    alloc: Global,
    map: &Map,
    cert: &Certificate,
    budget: u64,
    faces: bool,
) -> Result<Verdict, Stop>
    ensures { IsOfCert map.now faces budget cert.now result }
{
    let mut gaps = Vec::new(alloc);
    let decided = check_whole(alloc, map, cert, budget, &mut gaps);
    with_faces(map, faces, decided, &gaps)
}

// The answer, with one clause for what it says by its kind, and the gaps that a sweep has told, where the map is sound.
fn check_whole(
    alloc: Global,
    map: &Map,
    cert: &Certificate,
    budget: u64,
    gaps: &mut Vec<OddGap>,
) -> Result<Verdict, Stop>
    ensures shows { Shows map.now cert.now budget result }
    ensures meets { UnlessMeet result (AllowsSearch map.now cert.now → IsPlanar map.now.chains) }
    ensures told { OnSound result (AreFirstGaps map.now gaps.new.items) }
{
    let mut state = match take_counted(alloc, map, cert.counts(), cert.tree(), budget) {
        Ok(state) => state,
        Err(halt) => return answer(halt),
    };
    for round in cert.rounds() {
        state = take_round(map, state, round);
    }
    state = match end_rounds(alloc, map, state) {
        Ok(state) => state,
        Err(halt) => return answer(halt),
    };
    for walk in cert.walks() {
        state = take_walk(map, state, walk);
    }
    conclude(alloc, map, state, gaps)
}
