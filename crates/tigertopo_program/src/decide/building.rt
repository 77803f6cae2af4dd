//! Certificates that are made of records.

ghost use Rattle.std.specs.Prelude.{◌≡◌, [], Some, map as map_list, string_bytes, length};
ghost use Rattle.tl_record.specs.Layout.{layout_with};
ghost use Rattle.tigertopo_files.specs.Files.{IsFree};
ghost use Rattle.tigertopo_files.specs.World.{Does, world};
ghost use Rattle.tigertopo_files.specs.declared.beginning.FileKind.TheVariants.{Certificate as CertificateKind};
ghost use Rattle.tl_check_verdict.specs.Sound.{IsSoundFor};
ghost use Rattle.tl_check_verdict.specs.Valid.{IsValid};
ghost use Rattle.tigertopo_program.specs.Answers.{IsSaid};
ghost use Rattle.tigertopo_files.specs.Reading.{text_under};
ghost use Rattle.tigertopo_program.specs.Records.{StopsNever, StopsRecords};
ghost use Rattle.tigertopo_program.specs.Building.{BuildAnswers, IsBuildOf};

use crate::answer::Answer;
use crate::convert::CertificateText;
use crate::making::answer_with_file;
use crate::reading::over_records;
use crate::records::MapOf;
use std::alloc::Global;
use std::hash::RandomState;
use tigertopo_files::{FileKind, FileSystem};
use tl_build::{Built, build_with};
use tl_cert::{Certificate, look_at_certificate};
use tl_cert_output::Stop;
use tl_check_verdict::report;
use tl_map_county::Map;
use tl_record::Options;

/// Makes a certificate of the map of the records of these files, where that keeps what the options ask, of the name `made`, which it may
/// take. It takes it when it is whole.
pub fn build<F: FileSystem>(
    files: &mut F,
    alloc: Global,
    hasher: RandomState,
    options: Options,
    names: &[String],
    made: &String,
) -> Result<Answer, Stop>
    requires { IsFree (F.under files.old) (string_bytes made.now) (map_list string_bytes names.now) CertificateKind }
    ensures { let w = world F.under F.log F.knows files.old files.new in
        let known = text_under (F.under files.old) (map_list string_bytes names.now) in
        Does w (map_list string_bytes names.now) (Some (string_bytes made.now))
        (IsSaid (BuildAnswers w options known (string_bytes made.now))) (StopsRecords (layout_with options) known) result }
{
    match over_records(files, alloc, hasher, names, &MapOf { options })? {
        Ok(map) => build_of_map(files, alloc, options.faces, names, made, &map),
        Err(fault) => Ok(Answer::fault(fault)),
    }
}

// Makes a certificate of a map that keeps what is asked of it.
fn build_of_map<F: FileSystem>(
    files: &mut F,
    alloc: Global,
    faces: bool,
    names: &[String],
    made: &String,
    map: &Map,
) -> Result<Answer, Stop>
    requires { IsFree (F.under files.old) (string_bytes made.now) (map_list string_bytes names.now) CertificateKind }
    ensures { let w = world F.under F.log F.knows files.old files.new in
        Does w [] (Some (string_bytes made.now)) (IsBuildOf w (string_bytes made.now) faces map.now) StopsNever result }
{
    match build_with(alloc, map, faces)? {
        Built::Cert(certificate) => keep(files, alloc, faces, names, made, map, &certificate),
        Built::Fault(fault) => Ok(Answer::fault(fault)),
    }
}

// Makes the file of a certificate of such a map.
fn keep<F: FileSystem>(
    files: &mut F,
    alloc: Global,
    faces: bool,
    names: &[String],
    made: &String,
    map: &Map,
    certificate: &Certificate,
) -> Result<Answer, Stop>
    requires free { IsFree (F.under files.old) (string_bytes made.now) (map_list string_bytes names.now) CertificateKind }
    requires sound { IsSoundFor faces map.now }
    requires valid { IsValid map.now certificate.now }
    requires version { certificate.now.version ≡ 2 }
    ensures { let w = world F.under F.log F.knows files.old files.new in
        Does w [] (Some (string_bytes made.now)) (IsBuildOf w (string_bytes made.now) faces map.now) StopsNever result }
{
    look_at_certificate(certificate);
    let report = report(map, rings_of(certificate));
    answer_with_file(
        files,
        alloc,
        made,
        names,
        FileKind::Certificate,
        &CertificateText { certificate },
        Answer::Built(report),
    )
}

// How many walks the certificate has.
fn rings_of(certificate: &Certificate) -> u32
    ensures { result ≡ length certificate.now.walks }
{
    certificate.walks().len() as u32
}
