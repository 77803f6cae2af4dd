//! Certificates in version 2.

ghost use Rattle.std.specs.Prelude.{◌≡◌, ◌∷◌, [], Some, string_bytes};
ghost use Rattle.tl_cert.specs.Text.{certificate_text};
ghost use Rattle.tigertopo_files.specs.Files.{bytes_under, IsFree};
ghost use Rattle.tigertopo_files.specs.World.{Does, world};
ghost use Rattle.tigertopo_files.specs.declared.beginning.FileKind.TheVariants.{Certificate as CertificateKind};
ghost use Rattle.tigertopo_program.specs.Answers.{ConvertAnswers, IsConversionOf, IsReadCertificate, IsSaid, counts_of};
ghost use Rattle.tigertopo_program.specs.Records.{StopsNever};

use crate::answer::{Answer, Converted};
use crate::making::answer_with_file;
use crate::reading::read_files;
use std::alloc::{AllocError, Global};
use std::slice;
use tigertopo_files::{FileKind, FileSystem, Reading};
use tl_cert::{Certificate, print_cert, read_cert};
use tl_cert_output::{Page, Stop, Text};
use tl_check_verdict::{CertFault, Verdict, fault_of_text};
use tl_record::Source;

/// A certificate as a text.
#[derive(Clone, Copy)]
pub struct CertificateText<'a> {
    pub certificate: &'a Certificate,
}

impl Text for CertificateText<'_> {
    ghost use Rattle.std.specs.Prelude.{⊤};

    ghost text = { λ text. certificate_text text.certificate.now };

    ghost is_ready = { λ text. ⊤ };

    fn add_to<P: Page>(&self, _alloc: Global, page: &mut P) -> Result<(), AllocError> {
        print_cert(self.certificate, page);
        Ok(())
    }
}

/// Reads the certificate of the first name, and makes one of the second, in version 2, which may take that name. It takes it when it is
/// whole.
pub fn convert<F: FileSystem>(
    files: &mut F,
    alloc: Global,
    cert: &String,
    made: &String,
) -> Result<Answer, Stop>
    requires { IsFree (F.under files.old) (string_bytes made.now) (string_bytes cert.now ∷ []) CertificateKind }
    ensures { let w = world F.under F.log F.knows files.old files.new in
        Does w (string_bytes cert.now ∷ []) (Some (string_bytes made.now))
        (IsSaid (ConvertAnswers w (bytes_under (F.under files.old) (string_bytes cert.now)) (string_bytes made.now))) StopsNever result }
{
    match read_files(files, alloc, &[], Some(cert), &CertificateIn)? {
        Ok(certificate) => make(files, alloc, cert, made, &certificate.to_v2()),
        Err(fault) => Ok(Answer::Verdict(Verdict::CertFault(fault))),
    }
}

// The certificate that a file is which is read by itself, or the line that no certificate has.
#[derive(Clone, Copy)]
struct CertificateIn;

impl Reading for CertificateIn {
    type Answer = Result<Certificate, CertFault>;

    ghost answers = { λ asked known single. IsReadCertificate single };

    ghost stops = { λ asked known single. StopsNever };

    fn read<R: Source, S: Source>(
        &self,
        alloc: Global,
        _joined: &mut R,
        single: &mut S,
    ) -> Result<Result<Certificate, CertFault>, Stop> {
        match read_cert(alloc, single) {
            Ok(certificate) => Ok(Ok(certificate)),
            Err(stop) => Ok(Err(fault_of_text(stop)?)),
        }
    }
}

// Makes the file of a certificate.
fn make<F: FileSystem>(
    files: &mut F,
    alloc: Global,
    cert: &String,
    made: &String,
    certificate: &Certificate,
) -> Result<Answer, Stop>
    requires { IsFree (F.under files.old) (string_bytes made.now) (string_bytes cert.now ∷ []) CertificateKind }
    ensures { let w = world F.under F.log F.knows files.old files.new in
        Does w [] (Some (string_bytes made.now)) (IsConversionOf w (string_bytes made.now) certificate.now) StopsNever result }
{
    let text = CertificateText { certificate };
    let counts = counts_of(certificate);
    answer_with_file(
        files,
        alloc,
        made,
        slice::from_ref(cert),
        FileKind::Certificate,
        &text,
        Answer::Converted(counts),
    )
}

// How many nodes, rounds and walks a certificate has.
fn counts_of(certificate: &Certificate) -> Converted
    ensures { result ≡ counts_of certificate.now }
{
    Converted {
        nodes: certificate.tree().len(),
        rounds: certificate.rounds().len(),
        walks: certificate.walks().len(),
    }
}
