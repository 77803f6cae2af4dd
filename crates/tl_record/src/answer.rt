//! What a reader answers, with the record beside it.

ghost use Rattle.std.specs.Prelude.{◌≡◌};
ghost use Rattle.tl_record.specs.Reader.{answer_with};

use crate::record::Record;
use crate::stop::ReadStop;

/// An answer, and the record that was put into the caller's place, as one.
pub(crate) fn with_record(
    answer: Result<Option<u64>, ReadStop>,
    found: Record,
) -> Result<Option<(u64, Record)>, ReadStop>
    ensures { result ≡ answer_with answer found }
{
    match answer {
        Ok(Some(number)) => Ok(Some((number, found))),
        Ok(None) => Ok(None),
        Err(stop) => Err(stop),
    }
}
