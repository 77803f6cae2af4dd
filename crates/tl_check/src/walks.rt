//! The walks of a certificate.

ghost use Rattle.std.specs.Prelude.{zero, ◌<◌, length, IfOk, IfErr};
ghost use Rattle.tl_cert.specs.Certificates.{TheCertificate};
ghost use Rattle.tl_check_verdict.specs.Verdicts.{OnSound};
ghost use Rattle.tl_check.specs.Keeping.Parts.{with_walk, Holds, IsLed, TakesWalks, IsEnded, IsFaulty};
ghost use Rattle.tl_check.specs.Keeping.Searching.{AreFirstGaps};
ghost use Rattle.tl_check.specs.Keeping.Streams.{IsConcluded};

use crate::answer::answer;
use crate::points::look_at_suspects;
use crate::rounds::end_rounds;
use crate::search::LeftOpen;
use crate::state::State;
use std::alloc::Global;
use tl_cert_output::Stop;
use tl_check_faces::OddGap;
use tl_check_verdict::{CertFault, Verdict, report};
use tl_map_county::Map;

/// Takes one walk more.
pub fn take_walk(map: &Map, state: State, walk: &[u32]) -> State
    requires some { zero < length walk.now }
    requires held { (c : TheCertificate) × Holds map.now c state }
    requires takes { TakesWalks state }
    ensures { IsLed map.now (λ c. with_walk c walk.now) TakesWalks state result }
{
    match state {
        State::Walking(mut walks, left) => match walks.take(map, walk) {
            Ok(()) => State::Walking(walks, left),
            Err(fault) => State::Wrong(CertFault::Walk(fault)),
        },
        faulty => faulty,
    }
}

/// The answer behind the last part. Rounds that haven't ended yet end first, and then the walks. Where both are the map's,
/// the points that were left open are looked at, and the map is sound if they lie where they have to. Then the gaps that were
/// left open are given.
pub fn conclude(
    alloc: Global,
    map: &Map,
    state: State,
    gaps: &mut Vec<OddGap>,
) -> Result<Verdict, Stop>
    requires held { (c : TheCertificate) × Holds map.now c state }
    ensures concluded { IsConcluded map.now state result }
    ensures told { OnSound result (AreFirstGaps map.now gaps.new.items) }
{
    let ended = match end_rounds(alloc, map, state) {
        Ok(ended) => ended,
        Err(halt) => return answer(halt),
    };
    match end_walks(map, ended) {
        Ok((count, left)) => match look_at_suspects(alloc, map, &left.suspects) {
            Ok(()) => {
                *gaps = left.gaps;
                Ok(Verdict::Sound(report(map, count)))
            }
            Err(halt) => answer(halt),
        },
        Err(fault) => Ok(Verdict::CertFault(fault)),
    }
}

/// Ends the walks: the certificate is valid and has so many walks, and this is left open, or it has a fault.
fn end_walks(map: &Map, state: State) -> Result<(u32, LeftOpen), CertFault>
    requires held { (c : TheCertificate) × Holds map.now c state }
    requires takes { TakesWalks state }
    ensures ended { IfOk result (λ ended. IsEnded map.now state ended.0 ended.1) }
    ensures faulty { IfErr result (IsFaulty map.now state) }
{
    match state {
        State::Walking(walks, left) => match walks.end(map) {
            Ok(count) => Ok((count, left)),
            Err(fault) => Err(CertFault::Walk(fault)),
        },
        State::Unrounded(fault) => Err(CertFault::Round(fault)),
        State::Wrong(fault) => Err(fault),
        State::Rounding(_, _) => unreachable!(),
    }
}
