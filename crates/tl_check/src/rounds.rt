//! The rounds of a certificate, and the sides about each node.

ghost use Rattle.std.specs.Prelude.{◌<◌, zero, length};
ghost use Rattle.tl_cert.specs.Certificates.{TheCertificate};
ghost use Rattle.tl_check.specs.Keeping.Parts.{with_round, Holds, IsLed, Leads, AreRoundsSoFar, TakesRounds};

use crate::search::LeftOpen;
use crate::state::{Halt, State};
use std::alloc::Global;
use tl_check_sides::{Rounds, Walks};
use tl_check_verdict::{CertFault, MapFault};
use tl_map_county::Map;

/// Takes one round more.
pub fn take_round(map: &Map, state: State, round: &[u32]) -> State
    requires some { zero < length round.now }
    requires held { (c : TheCertificate) × Holds map.now c state }
    requires takes { TakesRounds state }
    ensures { IsLed map.now (λ c. with_round c round.now) TakesRounds state result }
{
    match state {
        State::Rounding(mut rounds, left) => match rounds.take(map, round) {
            Ok(()) => State::Rounding(rounds, left),
            Err(fault) => State::Wrong(CertFault::Round(fault)),
        },
        wrong => wrong,
    }
}

/// Ends the rounds, unless they have ended already: where they are the map's and sides agree, walks are taken next.
pub fn end_rounds(alloc: Global, map: &Map, state: State) -> Result<State, Halt>
    requires held { (c : TheCertificate) × Holds map.now c state }
    ensures { Leads map.now (λ c. c) state result }
{
    match state {
        State::Rounding(rounds, left) => begin_walks(alloc, map, rounds, left),
        ended => Ok(ended),
    }
}

/// Begins the walks behind rounds that had no fault so far.
fn begin_walks(alloc: Global, map: &Map, rounds: Rounds, left: LeftOpen) -> Result<State, Halt>
    requires held { (c : TheCertificate) × AreRoundsSoFar map.now c rounds left }
    ensures { Leads map.now (λ c. c) (State.Rounding rounds left) result }
{
    let next = match rounds.end(map) {
        Ok(next) => next,
        Err(fault) => return Ok(State::Unrounded(fault)),
    };
    match next.disagreement(map) {
        None => {}
        Some(found) => {
            return Err(Halt::Fault(MapFault::Side {
                node: map.dart_start(found.first),
                first: found.first,
                next: found.next,
            }));
        }
    }
    let walks = Walks::new(alloc, map, next)?;
    Ok(State::Walking(walks, left))
}
