//! What is answered to a command: a text, and the exit status beside it.

ghost use Rattle.std.specs.Prelude.{◌≡◌};

use crate::line::add_answer;
use crate::stop::{CERT_FAULT, DONE, MAP_FAULT, REFUSED};
use std::alloc::{AllocError, Global};
use tl_cert_output::{Page, Text};
use tl_check_verdict::{MapFault, Report, Verdict};
use tl_list_text::Listing;
use tl_map_county::{Chains, Map};

/// What is answered to a command.
#[derive(Drop)]
pub enum Answer {
    /// The chains, with their points.
    Chains(Chains),
    /// The landmarks of a map, with their polygons.
    Landmarks(Map),
    /// It was decided whether the map is sound.
    Verdict(Verdict),
    /// A certificate was made of the map, which has these numbers.
    Built(Report),
    /// A certificate was written in version 2.
    Converted(Converted),
    /// The map was exported.
    Exported(Exported),
    /// The map was drawn.
    Drawn(Drawn),
    /// The map's border was written.
    Bordered(Bordered),
    /// All that is wrong, or the first so many of it.
    Listing { listing: Listing, most: Option<u64> },
    /// Lines that were put together before.
    Lines { status: u8, text: Vec<u8> },
}

/// How many nodes, rounds and walks a certificate has that was converted.
#[derive(Clone, Copy)]
pub struct Converted {
    pub nodes: usize,
    pub rounds: usize,
    pub walks: usize,
}

/// How many chains, polygons and rings were exported. Of a map that isn't sound no number of rings is told.
#[derive(Clone, Copy)]
pub struct Exported {
    pub chains: u32,
    pub polygons: u32,
    pub rings: Option<u64>,
}

/// How many chains a picture shows, and where they are asked for, how many faults, and how many polygons of the map are touched.
#[derive(Clone, Copy)]
pub struct Drawn {
    pub chains: u32,
    pub faults: Option<u64>,
    pub touched: u64,
}

/// How many chains and segments a border has that was written.
#[derive(Clone, Copy)]
pub struct Bordered {
    pub chains: u32,
    pub segments: u32,
}

impl Answer {
    ghost use Rattle.tigertopo_program.specs.Texts.{answer_status};

    /// That the records or their map have this fault.
    pub fn fault(fault: MapFault) -> Answer
        ensures { result ≡ Answer.Verdict (Verdict.MapFault fault) }
    {
        Answer::Verdict(Verdict::MapFault(fault))
    }

    /// The exit status of the program, where this is answered.
    pub fn status(&self) -> u8
        ensures { result ≡ answer_status self.now }
    {
        match self {
            Answer::Verdict(Verdict::Sound(_)) => DONE,
            Answer::Verdict(Verdict::MapFault(_)) => MAP_FAULT,
            Answer::Verdict(Verdict::CertFault(_)) => CERT_FAULT,
            Answer::Exported(Exported { rings: None, .. }) => MAP_FAULT,
            Answer::Listing {
                listing: Listing::Faults { .. },
                ..
            } => MAP_FAULT,
            Answer::Listing {
                listing: Listing::Refused(_),
                ..
            } => REFUSED,
            Answer::Listing {
                listing: Listing::Sound(_),
                ..
            } => DONE,
            Answer::Lines { status, .. } => *status,
            Answer::Chains(_) | Answer::Landmarks(_) | Answer::Built(_) | Answer::Converted(_) =>
                DONE,
            Answer::Exported(_) | Answer::Drawn(_) | Answer::Bordered(_) => DONE,
        }
    }
}

impl Text for Answer {
    ghost use Rattle.std.specs.Prelude.{⊤};
    ghost use Rattle.tigertopo_program.specs.Texts.{answer_text};

    ghost text = { answer_text };

    ghost is_ready = { λ answer. ⊤ };

    fn add_to<P: Page>(&self, _alloc: Global, page: &mut P) -> Result<(), AllocError> {
        add_answer(self, page);
        Ok(())
    }
}
