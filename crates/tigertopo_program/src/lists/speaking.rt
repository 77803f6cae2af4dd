//! Where faults lie and the records that they speak of, where these are asked for.

ghost use Rattle.std.specs.Prelude.{◌≡◌, [], true, IfOk, IfErr, option_copied};
ghost use Rattle.tl_cert_output.specs.declared.stop.Stop.TheVariants.{Memory};
ghost use Rattle.tigertopo_faults.specs.Lines.Speaking.{Speaks};
ghost use Rattle.tigertopo_program.specs.Lists.Listed.{asks_lines, featured, wanted_of};

use crate::lists::listing::{Wanted, asks_lines};
use std::alloc::Global;
use std::hash::RandomState;
use tigertopo_faults::lines::{Spoken, speak_of};
use tigertopo_words::Told;
use tl_cert_output::Stop;
use tl_check_verdict::MapFault;
use tl_list_text::NotedRecords;
use tl_map_county::Map;

/// Where faults lie, and the records that they speak of, of these records with their lines, in files of so many lines each, if that is
/// asked for.
pub(crate) fn speak_where(
    alloc: Global,
    hasher: RandomState,
    wanted: Wanted<'_>,
    counts: Vec<u64>,
    records: &NotedRecords,
    drawn: Option<&Map>,
    faults: &[MapFault],
) -> Result<Spoken, Stop>
    ensures spoken { let asked = wanted_of [] wanted.entry in
        IfOk result (λ spoken. asks_lines asked.form asked.made ≡ true
        → Speaks counts.items records.now (option_copied drawn.entry) faults.now spoken) }
    ensures stop { IfErr result (λ stop. stop ≡ Memory) }
{
    if asks_lines(wanted.form, wanted.made) {
        Ok(speak_of(alloc, hasher, counts, records, drawn, faults)?)
    } else {
        Ok(Spoken::nothing(alloc, hasher)?)
    }
}

/// The faults that a file is made of, or the refused lines: the first, or all.
pub(crate) fn featured<T>(told: Told, list: &[T]) -> &[T]
    ensures { result.now ≡ featured told list.now }
{
    match told {
        Told::One if !list.is_empty() => &list[..1],
        _ => list,
    }
}
