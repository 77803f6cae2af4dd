//! How long steps take.

use std::time::Instant;

/// What the clock says, where it says anything.
pub fn now(rt: &HostRuntime) -> Option<Instant> {
    Instant::now(rt).ok()
}

/// Tells on the error output how long a step took that began then. Where the clock or that output fails, nothing is told.
pub fn say_taken(rt: &HostRuntime, step: &str, begun: Option<Instant>) {
    let Some(begun) = begun else {
        return;
    };
    if let Ok(taken) = begun.elapsed(rt) {
        let _ = eprintln!(rt; "{step}: {} us", taken.as_micros());
    }
}
