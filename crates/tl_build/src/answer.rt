//! What is built of a map, and what is decided of records.

use std::fmt;
use tl_cert::Certificate;
use tl_check_verdict::{MapFault, Report};

/// What is built of a map.
#[derive(Drop)]
pub enum Built {
    /// The map is sound, and this certificate is valid for it.
    Cert(Certificate),
    /// The map has this fault.
    Fault(MapFault),
}

/// What is decided of records.
#[derive(Clone, Copy, PartialEq, Eq)]
pub enum Audit {
    /// The map of the records is sound.
    Sound(Report),
    /// The records have no map, or their map has this fault.
    Fault(MapFault),
}

impl fmt::Debug for Audit {
    fn fmt<W: fmt::Write>(&self, f: &mut fmt::Formatter<W>) -> fmt::Result {
        match self {
            Audit::Sound(report) => fmt::Display::fmt(report, f),
            Audit::Fault(fault) => fmt::Display::fmt(fault, f),
        }
    }
}
