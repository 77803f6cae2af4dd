//! What is told of what the system's calls answer.

ghost use Rattle.std.specs.Prelude.{◌≡◌, ⊤, IfOk, IfErr, string_bytes};
ghost use Rattle.std.specs.IoError.{error_kind};
ghost use Rattle.tl_cert_output.specs.Stops.{StopsFor};
ghost use Rattle.tigertopo_system_files.specs.Calls.{stop_for, as_stop, found_of, IsWithoutNumber};

use std::alloc::{AllocError, Global};
use std::io;
use std::io::{Error, ErrorKind};
use tl_cert_output::Stop;

/// What is told of an error of the system.
pub fn stop_of(error: &Error) -> Stop
    ensures exact { result ≡ stop_for (error_kind error.now) }
    ensures stop { StopsFor ⊤ result }
{
    match error.kind() {
        ErrorKind::OutOfMemory => Stop::Memory,
        _ => Stop::Device,
    }
}

/// What is told of an answer of the system.
pub fn or_stop<T: Drop>(answer: io::Result<T>) -> Result<T, Stop>
    ensures exact { result ≡ as_stop answer }
    ensures stop { IfErr result (StopsFor ⊤) }
{
    match answer {
        Ok(value) => Ok(value),
        Err(error) => Err(stop_of(&error)),
    }
}

/// What was found, where that nothing stands under a name isn't an error.
pub fn found<T: Drop>(answer: io::Result<T>) -> io::Result<Option<T>>
    ensures { result ≡ found_of answer }
{
    match answer {
        Ok(value) => Ok(Some(value)),
        Err(error) => {
            if error.kind() == ErrorKind::NotFound {
                return Ok(None);
            }
            Err(error)
        }
    }
}

/// An error in the system's words, without its number.
pub fn words_of(alloc: Global, error: &Error) -> Result<String, AllocError> {
    let Ok(text) = format!(in alloc; "{error}") else {
        return String::from_str(alloc, "unknown error");
    };
    without_number(alloc, text.as_str())
}

// The words of an error before its number, and all of them where it has none.
fn without_number(alloc: Global, text: &str) -> Result<String, AllocError>
    ensures { IfOk result (λ words. IsWithoutNumber text.now (string_bytes words)) }
{
    match text.split_once(" (os error ") {
        Some((words, _)) => String::from_str(alloc, words),
        None => String::from_str(alloc, text),
    }
}
