//! A sweep from event to event, and what is done on its way.
ghost use Rattle.std.specs.Prelude.{◌≡◌, ◌<◌, ℕ, List, [], false, IfOk, IsTrue, length};
ghost use Rattle.tl_map_county.specs.TheMap.{TheMap};
ghost use Rattle.tl_check_active.specs.declared.events.Event.{Event};
ghost use Rattle.tl_check_active.specs.Blocks.Lined.{list_of};
ghost use Rattle.tl_check_active.specs.Gathered.{AreGathered};

use crate::ahead::look_ahead;
use crate::blocks::{Line, Places};
use crate::events::Events;
use crate::vertices::gather;
use std::alloc::{AllocError, Global};
use tl_map_county::Map;

/// What is done on the way of a sweep over a map: what lies below each vertex is looked at, and then the vertex is passed.
pub trait Watcher {
    /// What is noted on the way.
    type Notes;

    // What is so where so many places of the events are passed, with this list of active segments.
    ghost keeps: { Self → Self.Notes → TheMap → List (List Event) → ℕ → List ℕ → Type 0 };

    // What is so where a vertex isn't passed.
    ghost stops: { Self → Self.Notes → TheMap → Type 0 };

    /// Looks at what lies below the events at a place and above those before it. The error is that memory was refused.
    fn look(
        &self,
        notes: &mut Self::Notes,
        map: &Map,
        line: &mut Line,
        events: &Events,
        from: usize,
    ) -> Result<(), AllocError>
        requires within { from < length events.now }
        requires keeps { keeps self.now notes.old map.now events.now from (list_of line.old) }
        ensures { IfOk result (λ done. keeps self.now notes.new map.now events.now from (list_of line.new)) };

    /// Passes a vertex, that of the events from one place up to another, with the segments that end there and those that begin there; or
    /// answers no. The error is that memory was refused.
    fn pass(
        &self,
        notes: &mut Self::Notes,
        map: &Map,
        events: &Events,
        from: usize,
        to: usize,
        line: &mut Line,
        outs: &mut Vec<u32>,
        ins: &mut Vec<u32>,
        places: &mut Places,
    ) -> Result<bool, AllocError>
        requires gathered { AreGathered events.now from to outs.old.items ins.old.items }
        requires keeps { keeps self.now notes.old map.now events.now from (list_of line.old) }
        ensures passed { IfOk result (λ done. IsTrue done → keeps self.now notes.new map.now events.now to (list_of line.new)) }
        ensures stopped { IfOk result (λ done. done ≡ false → stops self.now notes.new map.now) };
}

/// Sweeps over all events of a map from the lowest to the highest with an empty list of active segments. It answers no where a vertex isn't
/// passed, and ends there. The error is that memory was refused.
pub fn sweep_over<W: Watcher>(
    alloc: Global,
    map: &Map,
    events: &Events,
    watcher: &W,
    notes: &mut W::Notes,
) -> Result<bool, AllocError>
    requires begun { W.keeps watcher.now notes.old map.now events.now 0 [] }
    ensures passed { IfOk result (λ done. IsTrue done → (list : List ℕ) × W.keeps watcher.now notes.new map.now events.now (length events.now) list) }
    ensures stopped { IfOk result (λ done. done ≡ false → W.stops watcher.now notes.new map.now) }
{
    let mut line = Line::new(alloc);
    let mut outs = Vec::new(alloc);
    let mut ins = Vec::new(alloc);
    let mut places = Places::new(alloc, map.segments() as usize)?;
    let mut from = 0;
    while from < events.len() {
        look_ahead(map, events, from, &line, &mut places);
        watcher.look(notes, map, &mut line, events, from)?;
        let to = gather(events, from, &mut outs, &mut ins)?;
        if !watcher.pass(
            notes,
            map,
            events,
            from,
            to,
            &mut line,
            &mut outs,
            &mut ins,
            &mut places,
        )? {
            return Ok(false);
        }
        from = to;
    }
    Ok(true)
}
