//! The list of a text's refused lines.

ghost use Rattle.std.specs.Prelude.{◌≡◌, ◌++◌, IfOk, IfErr, IfSome, ⊤, map};
ghost use Rattle.tl_record.specs.declared.reader.Standing.TheVariants.{Reading};
ghost use Rattle.tl_record.specs.Layout.{layout_with};
ghost use Rattle.tl_record.specs.Refusals.{refusals_of};
ghost use Rattle.tl_record.specs.Reader.{source_of, standing_of, refusals_to_come};
ghost use Rattle.tl_record.specs.Searching.{pair_of};
ghost use Rattle.tl_map_rules.specs.Listing.Refusals.Listing.{BeginsWith, ListsAll, TellsDevice};
ghost use Rattle.tl_cert_output.specs.Stops.{StopsFor};

use std::alloc::Global;
use tl_cert_output::Stop;
use tl_record::{Options, RecordReader, Refusal, RefusalStop, Source};

/// Lists behind these all lines that are refused from where a reader is, the one at which it stopped among them, in the order
/// of the text.
pub fn list_refusals<R: Source>(
    list: Vec<Refusal>,
    reader: &mut RecordReader<R>,
) -> Result<Vec<Refusal>, Stop>
    // Where the bytes are known: all refusals that the reader had to give, and no other.
    ensures refusals { IfOk result (λ all. IfSome (refusals_to_come R.remaining reader.old)
        (λ refusals. ListsAll (map pair_of list.items ++ refusals) all.items)) }
    // They stand behind these.
    ensures front { IfOk result (λ all. BeginsWith list.items all.items) }
    // `Device` is answered where a read failed, and nowhere else.
    ensures failures { TellsDevice (standing_of reader.old) (R.failure_count (source_of reader.old))
        (R.failure_count (source_of reader.new)) result }
    // It stops where memory was refused, a read failed, or the text has no end within 2^64 - 1 bytes.
    ensures stops { IfErr result (StopsFor ⊤) }
    // Its source is the one that it was.
    ensures same_reference { R.reference (source_of reader.new) ≡ R.reference (source_of reader.old) }
{
    let mut all = list;
    'refusals: loop {
        match reader.next_refusal() {
            Ok(Some(refusal)) => all.push(refusal)?,
            Ok(None) => return Ok(all),
            Err(RefusalStop::Device) => return Err(Stop::Device),
            // No memory holds the list of a text that has no end.
            Err(RefusalStop::Endless) => return Err(Stop::Memory),
        }
    }
}

/// Lists all lines of a text that are refused, by the columns that the options choose, in the order of the text.
pub fn refused_lines<R: Source>(
    alloc: Global,
    records: &mut R,
    options: Options,
) -> Result<Vec<Refusal>, Stop>
    // Where the bytes are known: each line that is refused, its number and the cause, and no other line.
    ensures refusals { IfOk result (λ list. IfSome (R.remaining records.old)
        (λ text. ListsAll (refusals_of (layout_with options) text) list.items)) }
    // `Device` is answered where a read failed in this call, and nowhere else.
    ensures failures { TellsDevice Reading (R.failure_count records.old) (R.failure_count records.new) result }
    // It stops where memory was refused, a read failed, or the text has no end within 2^64 - 1 bytes.
    ensures stops { IfErr result (StopsFor ⊤) }
{
    let mut reader = RecordReader::with(records, options);
    list_refusals(Vec::new(alloc), &mut reader)
}
