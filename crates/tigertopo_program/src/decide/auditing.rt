//! The decision of records with no certificate given.

ghost use Rattle.std.specs.Prelude.{None, map, string_bytes};
ghost use Rattle.tl_record.specs.Layout.{layout_with};
ghost use Rattle.tigertopo_files.specs.World.{Does, world};
ghost use Rattle.tigertopo_program.specs.Answers.{AuditAnswers, IsSaid};
ghost use Rattle.tigertopo_files.specs.Reading.{text_under};
ghost use Rattle.tigertopo_program.specs.Records.{IsAudited, StopsRecords};

use crate::answer::Answer;
use crate::reading::{Question, over_records};
use std::alloc::Global;
use std::hash::RandomState;
use tigertopo_files::FileSystem;
use tl_build::{Audit, audit_with};
use tl_cert_output::Stop;
use tl_check_verdict::Verdict;
use tl_record::{Options, Source};

// Whether the map of the records is sound, or the fault of records that have none.
#[derive(Clone, Copy)]
struct AuditOf {
    options: Options,
}

impl Question for AuditOf {
    type Answer = Verdict;

    ghost answers = { λ asked known. IsAudited asked.options known };

    ghost stops = { λ asked known. StopsRecords (layout_with asked.options) known };

    fn ask<R: Source>(
        &self,
        alloc: Global,
        hasher: RandomState,
        records: &mut R,
    ) -> Result<Verdict, Stop> {
        match audit_with(alloc, hasher, records, self.options)? {
            Audit::Sound(report) => Ok(Verdict::Sound(report)),
            Audit::Fault(fault) => Ok(Verdict::MapFault(fault)),
        }
    }
}

/// Decides with no certificate given whether the map of the records of these files is sound.
pub fn audit<F: FileSystem>(
    files: &mut F,
    alloc: Global,
    hasher: RandomState,
    options: Options,
    names: &[String],
) -> Result<Answer, Stop>
    ensures { Does (world F.under F.log F.knows files.old files.new) (map string_bytes names.now) None
        (IsSaid (AuditAnswers options (text_under (F.under files.old) (map string_bytes names.now))))
        (StopsRecords (layout_with options) (text_under (F.under files.old) (map string_bytes names.now))) result }
{
    let verdict = over_records(files, alloc, hasher, names, &AuditOf { options })?;
    Ok(Answer::Verdict(verdict))
}
