//! The subjects that some faults speak of.

ghost use Rattle.std.specs.Prelude.{◌≡◌, Contains, IfOk, OnOk, Some, option_copied};
ghost use Rattle.tigertopo_faults.specs.declared.records.subject.Subject.{Subject as SubjectOf};
ghost use Rattle.tigertopo_faults.specs.Records.SpokenOf.{chains_of};
ghost use Rattle.tigertopo_faults.specs.Records.Wanting.{HasAll, HasSubjects};

use crate::records::subject::{Subject, subjects_of};
use indexmap::IndexSet;
use std::alloc::{AllocError, Global};
use std::hash::RandomState;
use tl_check_verdict::MapFault;
use tl_map_county::Map;

/// All subjects that faults speak of, each once.
pub fn wanted_subjects(
    alloc: Global,
    hasher: RandomState,
    map: Option<&Map>,
    faults: &[MapFault],
) -> Result<IndexSet<Subject, RandomState>, AllocError>
    ensures { IfOk result (λ subjects. HasAll (chains_of (option_copied map.entry)) faults.now subjects.keys) }
{
    let mut subjects = IndexSet::with_hasher(alloc, hasher);
    for fault in faults {
        let (first, second) = subjects_of(map, fault);
        want(&mut subjects, first)?;
        want(&mut subjects, second)?;
    }
    Ok(subjects)
}

// Adds a subject, if there is one.
fn want(
    subjects: &mut IndexSet<Subject, RandomState>,
    subject: Option<Subject>,
) -> Result<(), AllocError>
    ensures kept { OnOk result ((s : SubjectOf) → Contains subjects.old.keys s → Contains subjects.new.keys s) }
    ensures added { OnOk result ((s : SubjectOf) → subject ≡ Some s → Contains subjects.new.keys s) }
{
    if let Some(subject) = subject {
        subjects.insert(subject)?;
    }
    Ok(())
}
