//! Verdicts.

use crate::fault::{CertFault, MapFault};
use std::fmt;

/// What is decided of a map by a certificate.
#[derive(Clone, Copy, PartialEq, Eq)]
pub enum Verdict {
    /// The map is sound.
    Sound(Report),
    /// The map, or what should draw one, has this fault.
    MapFault(MapFault),
    /// The certificate has this fault, and nothing is said of the map.
    CertFault(CertFault),
}

impl fmt::Debug for Verdict {
    fn fmt<W: fmt::Write>(&self, f: &mut fmt::Formatter<W>) -> fmt::Result {
        match self {
            Verdict::Sound(report) => fmt::Display::fmt(report, f),
            Verdict::MapFault(fault) => fmt::Display::fmt(fault, f),
            Verdict::CertFault(fault) => fmt::Display::fmt(fault, f),
        }
    }
}

/// How many chains, segments, nodes, polygons and landmarks a sound map has, and how many rings its sides' boundaries have
/// together, that of the outside too. It is printed as `chains=C segments=S nodes=N polygons=P landmarks=L rings=R`.
#[derive(Clone, Copy, PartialEq, Eq)]
pub struct Report {
    pub chains: u32,
    pub segments: u32,
    pub nodes: u32,
    pub polygons: u32,
    pub landmarks: u32,
    pub rings: u32,
}

impl fmt::Display for Report {
    ghost use Rattle.std.specs.Prelude.{Some};
    ghost use Rattle.tl_check_verdict.specs.Messages.{report_text};

    ghost output = { λ report. Some (report_text report) };

    fn fmt<W: fmt::Write>(&self, f: &mut fmt::Formatter<W>) -> fmt::Result {
        write!(
            f,
            "chains={} segments={} nodes={} polygons={} landmarks={} rings={}",
            self.chains, self.segments, self.nodes, self.polygons, self.landmarks, self.rings
        )
    }
}

impl fmt::Debug for Report {
    fn fmt<W: fmt::Write>(&self, f: &mut fmt::Formatter<W>) -> fmt::Result {
        fmt::Display::fmt(self, f)
    }
}
