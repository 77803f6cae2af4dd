//! Whether a map is sound, by a certificate.

ghost use Rattle.std.specs.Prelude.{◌++◌, ◌∷◌, [], None, map, string_bytes};
ghost use Rattle.tigertopo_files.specs.Files.{bytes_under};
ghost use Rattle.tigertopo_files.specs.Reading.{text_under};
ghost use Rattle.tigertopo_files.specs.World.{Does, world};
ghost use Rattle.tigertopo_program.specs.Answers.{CheckAnswers, IsSaid};
ghost use Rattle.tigertopo_program.specs.Records.{IsChecked, StopsCheck};

use crate::answer::Answer;
use crate::reading::read_files;
use std::alloc::Global;
use std::hash::RandomState;
use tigertopo_files::{FileSystem, Reading};
use tl_cert_output::Stop;
use tl_check::check_with;
use tl_check_verdict::Verdict;
use tl_record::{Options, Source};

// Whether the map of records is sound, by a certificate, which is read by itself.
#[derive(Clone, Copy)]
struct CheckOf {
    hasher: RandomState,
    options: Options,
    budget: u64,
}

impl Reading for CheckOf {
    type Answer = Verdict;

    ghost answers = { λ asked known spelt. IsChecked asked.options asked.budget known spelt };

    ghost stops = { λ asked known spelt. StopsCheck asked.options asked.budget known spelt };

    fn read<R: Source, S: Source>(
        &self,
        alloc: Global,
        joined: &mut R,
        single: &mut S,
    ) -> Result<Verdict, Stop> {
        check_with(
            alloc,
            self.hasher,
            joined,
            single,
            self.budget,
            self.options,
        )
    }
}

/// Decides by a certificate whether the map of the records of these files is sound. Where a line is refused or the records have no map,
/// nothing of the certificate is read.
pub fn check<F: FileSystem>(
    files: &mut F,
    alloc: Global,
    hasher: RandomState,
    options: Options,
    names: &[String],
    cert: &String,
    budget: u64,
) -> Result<Answer, Stop>
    ensures { let known = text_under (F.under files.old) (map string_bytes names.now) in
        let spelt = bytes_under (F.under files.old) (string_bytes cert.now) in
        Does (world F.under F.log F.knows files.old files.new) (map string_bytes names.now ++ string_bytes cert.now ∷ []) None
        (IsSaid (CheckAnswers options budget known spelt)) (StopsCheck options budget known spelt) result }
{
    let asked = CheckOf {
        hasher,
        options,
        budget,
    };
    let verdict = read_files(files, alloc, names, Some(cert), &asked)?;
    Ok(Answer::Verdict(verdict))
}
