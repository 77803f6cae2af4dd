//! The lines of records, kept under the subjects that name them.

ghost use Rattle.std.specs.Prelude.{◌≡◌, length};

use crate::records::line::RecordLine;
use crate::records::subject::{Subject, subjects_naming};
use indexmap::IndexSet;
use std::alloc::{AllocError, Global};
use std::hash::RandomState;
use tl_list_text::NotedRecords;
use tl_record::Record;

/// Records with their lines, each under all wanted subjects that name it.
#[derive(Drop)]
pub struct KeptLines {
    subjects: IndexSet<Subject, RandomState>,
    // The lines of each subject, in the order of the subjects.
    lines: Vec<Vec<RecordLine>>,
    ghost paired: { length lines.items ≡ length subjects.keys },
}

impl KeptLines {
    ghost use Rattle.std.specs.Prelude.{◌≡◌, ◌<◌, [], true, Contains, IfOk, OnOk, Some, slice_get, option_map};
    ghost use Rattle.indexmap.specs.IndexSet.{index_of};
    ghost use Rattle.tigertopo_faults.specs.declared.records.subject.Subject.{Subject as SubjectOf};
    ghost use Rattle.tigertopo_faults.specs.Records.Naming.{same_subject};
    ghost use Rattle.tigertopo_faults.specs.Records.Kept.{kept_of, is_wanted, Grows, Notes, NotesAll};

    /// No line, of any of these subjects.
    pub fn new(
        alloc: Global,
        subjects: IndexSet<Subject, RandomState>,
    ) -> Result<KeptLines, AllocError>
        ensures wanted { IfOk result (λ lines. (s : SubjectOf) → Contains subjects.keys s → is_wanted lines s ≡ true) }
        ensures empty { IfOk result (λ lines. (s : SubjectOf) → kept_of lines s ≡ []) }
    {
        let mut lines = Vec::with_capacity(alloc, subjects.len())?;
        for _ in 0..subjects.len() {
            lines.push(Vec::new(alloc))?;
        }
        Ok(KeptLines { subjects, lines })
    }

    /// How many subjects are wanted.
    pub(crate) fn len(&self) -> usize
        ensures { result ≡ length self.now.subjects.keys }
    {
        self.lines.len()
    }

    /// The subject with this number.
    pub(crate) fn subject(&self, number: usize) -> Subject
        requires { number < length self.now.subjects.keys }
        ensures { slice_get self.now.subjects.keys number ≡ Some result }
    {
        self.subjects.as_slice()[number]
    }

    /// The number of a subject, counted from 0, if it is wanted.
    pub(crate) fn number_of(&self, subject: &Subject) -> Option<usize>
        ensures { result ≡ index_of same_subject self.now.subjects subject.now }
    {
        self.subjects.get_index_of(subject)
    }

    /// The lines of the subject with this number.
    pub(crate) fn at(&self, number: usize) -> &[RecordLine]
        requires { number < length self.now.subjects.keys }
        ensures { option_map (λ lines. lines.items) (slice_get self.now.lines.items number) ≡ Some result.now }
    {
        self.lines[number].as_slice()
    }

    /// The records that a subject names, in the order of the text. Of a subject that isn't wanted there are none.
    pub(crate) fn about(&self, subject: &Subject) -> &[RecordLine]
        ensures { result.now ≡ kept_of self.now subject.now }
    {
        match self.subjects.get_index_of(subject) {
            Some(number) if number < self.lines.len() => self.lines[number].as_slice(),
            _ => &[],
        }
    }

    // Adds a line to those of a subject, if it is wanted.
    fn add(&mut self, subject: Option<Subject>, line: RecordLine) -> Result<(), AllocError>
        ensures { OnOk result (Grows self.old self.new subject line) }
    {
        let Some(subject) = subject else {
            return Ok(());
        };
        match self.subjects.get_index_of(&subject) {
            Some(number) if number < self.lines.len() => {
                self.lines[number].push(line)?;
                Ok(())
            }
            _ => Ok(()),
        }
    }

    // Adds a record's line to those of each wanted subject that names it.
    pub(crate) fn note(&mut self, line: u64, holds: Record) -> Result<(), AllocError>
        ensures { OnOk result (Notes self.old self.new (line, holds)) }
    {
        let (narrow, wide) = subjects_naming(&holds);
        let line = RecordLine {
            line,
            holds,
            ends: None,
        };
        self.add(narrow, line)?;
        self.add(wide, line)
    }

    /// Adds the lines of several records, one after the other.
    pub fn note_all(&mut self, found: &NotedRecords) -> Result<(), AllocError>
        ensures { OnOk result (NotesAll self.old self.new found.now) }
    {
        for place in 0..found.len() {
            let (line, holds) = found.get(place);
            self.note(line, holds)?;
        }
        Ok(())
    }
}
