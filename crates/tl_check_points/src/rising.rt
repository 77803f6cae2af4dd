//! Whether events rise.
ghost use Rattle.std.specs.Prelude.{IsTrue};
ghost use Rattle.tl_check_active.specs.Events.{joined, AreEventsRising};

use tl_check_active::{Events, is_lower};

/// Whether no event is higher than a later one.
pub fn are_rising(events: &Events) -> bool
    ensures { IsTrue result → AreEventsRising (joined events.now) }
{
    let count = events.len();
    if count == 0 {
        return true;
    }
    let mut last = events.point(0);
    for k in 1..count {
        let p = events.point(k);
        if is_lower(p, last) {
            return false;
        }
        last = p;
    }
    true
}
