//! All that is wrong with the text of a county.

ghost use Rattle.std.specs.Prelude.{◌≡◌, List, true, None, Some, IfOk, IfErr, IfSome, ⊤};
ghost use Rattle.tl_record.specs.Records.{Records as AllRecords};
ghost use Rattle.tl_record.specs.declared.record.Record.{Record};
ghost use Rattle.tl_map_rules.specs.Listing.AllFaults.{AreAllFaults};
ghost use Rattle.tl_map.specs.Collecting.{HasCollected};
ghost use Rattle.tl_list.specs.MapListings.{IsListingFor};
ghost use Rattle.tl_list.specs.Listings.{IsListingOf};
ghost use Rattle.tl_cert_output.specs.Stops.{StopsFor, TellsDevice};
ghost use Rattle.tl_record.specs.Layout.{layout_with};
ghost use Rattle.tl_list.specs.Findings.{IsFoundIn, AreOfMap};
ghost use Rattle.tl_list.specs.Noting.{NotesLines};
ghost use Rattle.tl_list.specs.Keeping.Reading.{AreWhole};
ghost use Rattle.tl_list.specs.Keeping.OfRecords.{AreFindingsOfRecords, AreTold};

use crate::left::{Found, found_in};
use crate::of_map::list_map;
use crate::reading::{LinesRead, read_all};
use crate::tell::push_records;
use std::alloc::Global;
use std::hash::RandomState;
use tl_cert_output::Stop;
use tl_list_text::Listing;
use tl_map::{CollectedRecords, NoMap};
use tl_map_county::Map;
use tl_map_rules::{Lacking, RecordFault};
use tl_record::{Options, RecordReader, Source};

/// All that is wrong with a county, and the map that its records draw.
#[derive(Drop)]
pub struct Findings {
    /// What is told of it.
    pub listing: Listing,
    /// The map of its records, where they have one.
    pub map: Option<Map>,
}

/// Lists all that is wrong with a county, from the text of its record files, with the columns that the options choose of
/// type I, or says that its map is sound. Where they ask for faces, those that disagree are listed of a map in which no segments meet and
/// whose sides agree about nodes: each two segments that face one another along a line of one height and name different sides, and each
/// that faces the outside and names a polygon.
///
/// The records are read once. Each of two segments that meet stands in the list with one point at which they do.
pub fn list_faults<R: Source>(
    alloc: Global,
    hasher: RandomState,
    records: &mut R,
    options: Options,
) -> Result<Listing, Stop>
    // Where the bytes are known: all lines that are refused; or where none is, all faults of the records, and where there are none of some type
    // that is asked for, that in place of those that hang on it; or where there is none, all faults of their map; or where there is none, the map's
    // numbers.
    ensures listing { IfOk result (λ listing. IfSome (R.remaining records.old)
        (λ text. IsListingOf options text listing)) }
    // It stops where memory was refused, or a read failed.
    ensures stops { IfErr result (StopsFor ⊤) }
    // `Device` is answered where a read failed in this call, and nowhere else.
    ensures failures { TellsDevice (R.failure_count records.old) (R.failure_count records.new) result }
{
    let Found { whole, left, noted } = list_with_map(
        alloc, hasher, records, options, false, false,
    )?;
    drop(left);
    drop(noted);
    let Findings { listing, map } = whole;
    drop(map);
    Ok(listing)
}

/// Lists all that is wrong with a county as [`list_faults`] does, and hands out the map of its records, where they have one. Where refused
/// lines are skipped, it lists also all that is wrong with what is left without them, in the same pass, with the map of that. Where `notes`,
/// it notes on which lines the records stand, which takes about 60 bytes for each, and how refused lines begin.
pub fn list_with_map<R: Source>(
    alloc: Global,
    hasher: RandomState,
    records: &mut R,
    options: Options,
    skips: bool,
    notes: bool,
) -> Result<Found, Stop>
    // The listing is that of `list_faults`, and the map is that of the text's records; there is none exactly where a line is
    // refused or the records have a fault. Whatever is known of the bytes, the listing says why. What is left, where there is something, is
    // listed as a text of its own.
    ensures found { IfOk result (IsFoundIn options skips (R.remaining records.old)) }
    // Where lines are noted, and the bytes known: the records that something is told of, and the first bytes of refused lines.
    ensures noted { IfOk result (λ found. notes ≡ true → IfSome (R.remaining records.old) (λ text. NotesLines (layout_with options) text found)) }
    // Whatever is known of the bytes: what is listed beside the map is listed of that map.
    ensures of_map { IfOk result (λ found. AreOfMap options.faces found.whole) }
    // It stops where memory was refused, or a read failed.
    ensures stops { IfErr result (StopsFor ⊤) }
    // `Device` is answered where a read failed in this call, and nowhere else.
    ensures failures { TellsDevice (R.failure_count records.old) (R.failure_count records.new) result }
{
    let mut reader = RecordReader::with(records, options);
    let LinesRead {
        refused,
        noted,
        kept,
    } = read_all(alloc, &mut reader, options.join, skips, notes)?;
    match kept {
        Some(kept) => {
            let listed = list_kept(alloc, hasher, kept, reader.skipped(), options)?;
            Ok(found_in(alloc, refused, listed, noted))
        }
        None => Ok(Found {
            whole: Findings {
                listing: Listing::Refused(refused),
                map: None,
            },
            left: None,
            noted,
        }),
    }
}

/// All faults of records that are kept, so many of whose text's lines were passed over, or all of their map. The map is drawn
/// first, unless there are no records of some type that is asked for: of records that draw one no fault is true, and none is looked for.
fn list_kept(
    alloc: Global,
    hasher: RandomState,
    kept: CollectedRecords,
    skipped: u64,
    options: Options,
) -> Result<Findings, Stop>
    requires { (rs : List Record) × HasCollected rs kept }
    ensures listed { (all : AllRecords) (rs : List Record) → AreWhole all skipped rs → all.complete ≡ options.complete → HasCollected rs kept →
        IfOk result (AreFindingsOfRecords options.faces all) }
    ensures of_map { IfOk result (AreOfMap options.faces) }
    ensures stops { IfErr result (λ stop. stop ≡ Stop.Memory) }
{
    let lacking = kept.lacking(options.complete);
    if lacking.is_some() {
        let told = kept.faults(alloc)?;
        return list_told(alloc, &told, lacking);
    }
    match kept.build(alloc, hasher, skipped) {
        Ok(map) => list_drawn(alloc, map, options.faces),
        Err(NoMap::Faults(told)) => list_told(alloc, &told, lacking),
        Err(NoMap::Memory) => Err(Stop::Memory),
    }
}

/// These faults of records, of which there are none of these types, as those of a county.
fn list_told(alloc: Global, told: &[RecordFault], lacking: Lacking) -> Result<Findings, Stop>
    ensures listed { (rs : List Record) → AreAllFaults rs told.now → IfOk result (AreTold rs lacking) }
    ensures stops { IfErr result (λ stop. stop ≡ Stop.Memory) }
{
    let mut faults = Vec::new(alloc);
    push_records(&mut faults, told, lacking)?;
    Ok(Findings {
        listing: Listing::Faults { faults, touched: 0 },
        map: None,
    })
}

/// All faults of a map, or its report.
fn list_drawn(alloc: Global, map: Map, faces: bool) -> Result<Findings, Stop>
    ensures listed { IfOk result (λ listed. (listed.map ≡ Some map) × IsListingFor faces map listed.listing) }
    ensures stops { IfErr result (λ stop. stop ≡ Stop.Memory) }
{
    let listing = list_map(alloc, &map, faces)?;
    Ok(Findings {
        listing,
        map: Some(map),
    })
}
