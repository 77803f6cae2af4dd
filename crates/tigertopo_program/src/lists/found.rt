//! What is found in records.

ghost use Rattle.tigertopo_program.specs.Lists.Keeping.{IsFoundWith};
ghost use Rattle.tigertopo_program.specs.Records.{StopsNever};

use crate::reading::Question;
use std::alloc::Global;
use std::hash::RandomState;
use tl_cert_output::Stop;
use tl_list::{Found, list_with_map};
use tl_record::{Options, Source};

/// All that is wrong with records, with their map, where they have one, and where refused lines are skipped, with what is left without them,
/// as a question. Where lines are noted, the records have their lines, and refused lines their first bytes.
#[derive(Clone, Copy)]
pub(crate) struct FindingsIn {
    pub options: Options,
    pub skips: bool,
    pub notes: bool,
}

impl Question for FindingsIn {
    type Answer = Found;

    ghost answers = { λ asked known. IsFoundWith asked.options asked.skips asked.notes known };

    ghost stops = { λ asked known. StopsNever };

    fn ask<R: Source>(
        &self,
        alloc: Global,
        hasher: RandomState,
        records: &mut R,
    ) -> Result<Found, Stop> {
        list_with_map(alloc, hasher, records, self.options, self.skips, self.notes)
    }
}
