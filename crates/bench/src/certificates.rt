//! Certificates, written and read.

use crate::answer::Answer;
use crate::failure::Failure;
use crate::files::{Input, open};
use crate::made::made_certificate;
use crate::steps::{now, say_taken};
use std::fs::File;
use tl_cert::{CertPart, CertReader, Certificate, read_cert, write_cert};
use tl_record::MeterOut;

/// How many nodes, rounds and walks a certificate has.
fn lengths_of(certificate: &Certificate) -> Answer {
    Answer::Certificate {
        nodes: certificate.tree().len(),
        rounds: certificate.rounds().len(),
        walks: certificate.walks().len(),
    }
}

/// Writes a certificate.
fn write(rt: &HostRuntime, certificate: &Certificate, name: &str) -> Result<Answer, Failure> {
    let Ok(file) = File::create(rt, name) else {
        return Err(Failure::File);
    };
    let mut out = MeterOut::new(file);
    let begun = now(rt);
    let written = write_cert(certificate, &mut out);
    say_taken(rt, "written", begun);
    match written {
        Ok(()) => Ok(lengths_of(certificate)),
        Err(_) => Err(Failure::Written),
    }
}

/// Makes the certificate of a county of so many chains, and writes it.
pub fn make(rt: &HostRuntime, chains: u32, name: &str) -> Result<Answer, Failure> {
    match made_certificate(rt.alloc(), chains) {
        Ok(Some(certificate)) => write(rt, &certificate, name),
        Ok(None) => Err(Failure::Certificate),
        Err(_) => Err(Failure::Memory),
    }
}

/// Reads a certificate.
fn certificate_of(rt: &HostRuntime, name: &str) -> Result<Certificate, Failure> {
    let mut source = open(rt, name)?;
    let begun = now(rt);
    let read = read_cert(rt.alloc(), &mut source);
    say_taken(rt, "certificate read", begun);
    match read {
        Ok(certificate) => Ok(certificate),
        Err(_) => Err(Failure::Certificate),
    }
}

/// Reads a certificate, and tells its lengths.
pub fn read(rt: &HostRuntime, name: &str) -> Result<Answer, Failure> {
    match certificate_of(rt, name) {
        Ok(certificate) => Ok(lengths_of(&certificate)),
        Err(stop) => Err(stop),
    }
}

/// Reads the parts of a certificate, and keeps none.
fn count_parts(reader: &mut CertReader<Input>) -> Result<Answer, Failure> {
    let (mut nodes, mut rounds, mut walks) = (0usize, 0usize, 0usize);
    for _ in 0..u64::MAX {
        match reader.next_part() {
            Ok(Some(part)) => match &part {
                CertPart::Counts(_, _) => {}
                CertPart::Tree(tree) => nodes = tree.len(),
                CertPart::Round(_) => rounds = rounds.wrapping_add(1),
                CertPart::Walk(_) => walks = walks.wrapping_add(1),
            },
            Ok(None) => {
                return Ok(Answer::Certificate {
                    nodes,
                    rounds,
                    walks,
                });
            }
            Err(_) => return Err(Failure::Certificate),
        }
    }
    Err(Failure::Certificate)
}

/// Reads the parts of the certificate in a file.
pub fn count(rt: &HostRuntime, name: &str) -> Result<Answer, Failure> {
    let mut reader = CertReader::new(rt.alloc(), open(rt, name)?);
    let begun = now(rt);
    let counted = count_parts(&mut reader);
    say_taken(rt, "parts read", begun);
    counted
}
