//! A whole certificate from its text.

ghost use Rattle.std.specs.Prelude.{◌≡◌, IfOk, IfErr, IfSome};
ghost use Rattle.std.specs.Io.KnownBytes.{IsAtEnd};
ghost use Rattle.tl_cert.specs.declared.reader.Standing.TheVariants.{Reading};
ghost use Rattle.tl_cert.specs.declared.place.NextPart.TheVariants.{Start};
ghost use Rattle.tl_cert.specs.Certificates.{IsCertificate};
ghost use Rattle.tl_cert.specs.Beginnings.{IsTextOf};
ghost use Rattle.tl_cert.specs.Reading.{source_of, lines_of, standing_of, unread, StopsReading, TellsDevice};
ghost use Rattle.tl_cert.specs.Keeping.Collecting.{Collects};

use crate::certificate::Certificate;
use crate::collected::Parts;
use crate::reader::CertReader;
use crate::stop::CertStop;
use std::alloc::Global;
use tl_record::Source;

/// Collects all parts that a reader has to give.
fn collect_parts<R: Source>(
    alloc: Global,
    reader: &mut CertReader<R>,
) -> Result<Certificate, CertStop>
    requires standing { standing_of reader.old ≡ Reading Start }
    requires lines { lines_of reader.old ≡ 0 }
    ensures certificate { IfOk result IsCertificate }
    ensures text { IfOk result (λ c. IfSome (unread R.remaining reader.old) (λ text. IsTextOf c text)) }
    ensures stops { IfErr result (λ stop. IfSome (unread R.remaining reader.old) (λ text. StopsReading text stop)) }
    ensures ended { IfOk result (λ _. IsAtEnd (R.remaining (source_of reader.new))) }
    ensures failures { TellsDevice (R.failure_count (source_of reader.old))
        (R.failure_count (source_of reader.new)) result }
    ensures same_reference { R.reference (source_of reader.new) ≡ R.reference (source_of reader.old) }
{
    let mut parts = Parts::empty(alloc);
    'parts: loop {
        match reader.next_part() {
            Ok(Some(part)) => match parts.take(part) {
                Ok(()) => {}
                Err(_) => return Err(CertStop::Memory),
            },
            Ok(None) => return Ok(Certificate::of_parts(parts)),
            Err(stop) => return Err(stop),
        }
    }
}

/// Reads a certificate from its text, to the end of the source.
///
/// [`CertStop::Text`] is answered where no certificate has the text; [`CertStop::Device`] where a read fails, an
/// interrupted one too; [`CertStop::Memory`] where there is no memory for what was read. Nothing is handed out then.
pub fn read_cert<R: Source>(alloc: Global, source: &mut R) -> Result<Certificate, CertStop>
    // What is read is a certificate, and where the bytes are known, they are its text.
    ensures certificate { IfOk result IsCertificate }
    ensures text { IfOk result (λ c. IfSome (R.remaining source.old) (λ text. IsTextOf c text)) }
    // Where no certificate has the text, the line that none has.
    ensures stops { IfErr result (λ stop. IfSome (R.remaining source.old) (λ text. StopsReading text stop)) }
    // What is read was read to the source's end.
    ensures ended { IfOk result (λ _. IsAtEnd (R.remaining source.new)) }
    // `Device` is answered where a read failed in this call, and nowhere else.
    ensures failures { TellsDevice (R.failure_count source.old) (R.failure_count source.new) result }
{
    let mut reader = CertReader::new(alloc, source);
    collect_parts(alloc, &mut reader)
}
