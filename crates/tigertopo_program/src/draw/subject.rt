//! What a picture is drawn of.

ghost use Rattle.std.specs.Prelude.{◌≡◌, ℕ, List, Option, None, Some, true, IfOk, IfErr, IfSome, slice_get};
ghost use Rattle.tl_record.specs.declared.options.Options.{Options};
ghost use Rattle.tl_record.specs.Layout.{layout_with};
ghost use Rattle.tl_list.specs.Findings.{AreFindingsOf, AreOfMap, BeginWithRecords, SaysWhy};
ghost use Rattle.tigertopo_files.specs.World.{MayStop};
ghost use Rattle.tl_cert_output.specs.declared.stop.Stop.TheVariants.{Device};
ghost use Rattle.tigertopo_program.specs.Records.{StopsRecords};
ghost use Rattle.tigertopo_program.specs.Draw.Keeping.{listed_faults, listed_touched, first_listed};
ghost use Rattle.tigertopo_program.specs.Draw.Subjects.{IsSubjectOf};

use crate::lists::first_stop;
use crate::reading::Question;
use std::alloc::Global;
use std::hash::RandomState;
use tl_cert_output::Stop;
use tl_check_verdict::{MapFault, fault_of_records};
use tl_list::{Findings, has_sound_map, list_with_map};
use tl_list_text::Listing;
use tl_map::read_map_with;
use tl_map_county::Map;
use tl_record::{Options, Source};

/// A map, the faults of it that are to be shown, how many polygons they touch, and whether the map is known to be sound.
#[derive(Drop)]
pub struct Subject {
    pub map: Map,
    pub faults: Vec<MapFault>,
    pub touched: u64,
    /// Whether the map is sound, where its faults were listed: so it isn't decided once more.
    pub is_sound: Option<bool>,
}

/// The map of the records, and where they are to be shown all its faults, or the fault of records that have none, as a question.
#[derive(Clone, Copy)]
pub struct SubjectOf {
    pub options: Options,
    pub shows_faults: bool,
}

impl Question for SubjectOf {
    type Answer = Result<Subject, MapFault>;

    ghost answers = { λ asked known. IsSubjectOf asked.options known asked.shows_faults };

    ghost stops = { λ asked known. StopsRecords (layout_with asked.options) known };

    fn ask<R: Source>(
        &self,
        alloc: Global,
        hasher: RandomState,
        records: &mut R,
    ) -> Result<Result<Subject, MapFault>, Stop> {
        if self.shows_faults {
            let found = list_with_map(alloc, hasher, records, self.options, false, false)?;
            return subject_of(alloc, found.whole);
        }
        match read_map_with(alloc, hasher, records, self.options) {
            Ok(map) => Ok(Ok(Subject {
                map,
                faults: Vec::new(alloc),
                touched: 0,
                is_sound: None,
            })),
            Err(stop) => Ok(Err(fault_of_records(stop)?)),
        }
    }
}

// The map that was found with its faults, or why there is none.
fn subject_of(alloc: Global, found: Findings) -> Result<Result<Subject, MapFault>, Stop>
    requires { SaysWhy found.map found.listing }
    ensures found { (options : Options) (known : Option (List ℕ)) → IfSome known (λ text. AreFindingsOf options text found) →
        AreOfMap options.faces found → IfOk result (IsSubjectOf options known true) }
    ensures stopped { (options : Options) (known : Option (List ℕ)) → IfSome known (λ text. AreFindingsOf options text found) →
        IfErr result (MayStop (StopsRecords (layout_with options) known)) }
    ensures no_device { IfErr result (λ stop. ¬ (stop ≡ Device)) }
{
    let Findings { listing, map } = found;
    match map {
        Some(map) => Ok(Ok(Subject {
            map,
            touched: touched_of(&listing),
            is_sound: Some(has_sound_map(&listing)),
            faults: faults_of(alloc, listing),
        })),
        None => Ok(Err(first_of(alloc, listing)?)),
    }
}

// The faults that are listed.
fn faults_of(alloc: Global, listing: Listing) -> Vec<MapFault>
    ensures { result.items ≡ listed_faults listing }
{
    match listing {
        Listing::Faults { faults, .. } => faults,
        Listing::Sound(_) | Listing::Refused(_) => Vec::new(alloc),
    }
}

// How many polygons they touch.
fn touched_of(listing: &Listing) -> u64
    ensures { result ≡ listed_touched listing.now }
{
    match listing {
        Listing::Faults { touched, .. } => *touched,
        Listing::Sound(_) | Listing::Refused(_) => 0,
    }
}

// The first of what is listed of records that have no map.
fn first_of(alloc: Global, listing: Listing) -> Result<MapFault, Stop>
    requires { SaysWhy None listing }
    ensures { first_listed listing ≡ Some result }
{
    match listing {
        Listing::Refused(list) => Err(first_stop(list.as_slice())),
        Listing::Sound(_) | Listing::Faults { .. } => {
            let faults = faults_of(alloc, listing);
            Ok(first_fault(faults.as_slice()))
        }
    }
}

// The first of faults.
fn first_fault(list: &[MapFault]) -> MapFault
    requires { BeginWithRecords list.now }
    ensures { slice_get list.now 0 ≡ Some result }
{
    list[0]
}
