//! Bytes that are written to a sink.

ghost use Rattle.std.specs.Prelude.{[], OnOk};
ghost use Rattle.std.specs.Io.KnownBytes.{Appends};
ghost use Rattle.tl_cert_output.specs.Writing.{CountsFailure, TriesToPassOn};

use std::io;
use std::io::ErrorKind;
use tl_record::Sink;

/// Writes all of the bytes. An error says that a write failed: one that answered an error, an interrupted one too, or
/// one that took nothing. The sink then took some of the bytes, from the front.
pub fn write_all<S: Sink>(bytes: &[u8], out: &mut S) -> io::Result<()>
    ensures bytes { OnOk result (Appends (S.contents out.old) (S.contents out.new) bytes.now) }
    ensures passes { TriesToPassOn (S.contents out.old) (S.contents out.new) [] [] bytes.now result }
    ensures failures { CountsFailure (S.failure_count out.old) (S.failure_count out.new) result }
{
    let mut written = 0;
    while written < bytes.len() {
        let taken = out.put(&bytes[written..])?;
        if taken == 0 {
            return Err(io::Error::from(ErrorKind::WriteZero));
        }
        written += taken;
    }
    Ok(())
}
