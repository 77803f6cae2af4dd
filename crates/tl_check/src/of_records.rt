//! The check of records by the text of a certificate.

ghost use Rattle.std.specs.Prelude.{◌≡◌, IfErr};
ghost use Rattle.std.specs.Option.{IfSome};
ghost use Rattle.tl_record.specs.Layout.{tiger_2006, layout_with};
ghost use Rattle.tl_record.specs.Records.{lines_read, records_of};
ghost use Rattle.tl_check_planar.specs.Planar.{IsPlanar};
ghost use Rattle.tl_check_verdict.specs.Sound.{IsSound, IsSoundFor};
ghost use Rattle.tl_check_verdict.specs.Verdicts.{OnSound, OnSoundButFaces, IfSound, IfMapFault, IfCertFault, OnDartFault, UnlessMeet, OnSearched, IsReport, IsWithinBudget};
ghost use Rattle.tl_check_verdict.specs.Texts.{IsTrueWhereKnown, IsValidWhereKnown, AllowsSearchWhereKnown, IsPlanarWhereAllowed};
ghost use Rattle.tl_check_verdict.specs.Records.{HaveMapOf, IsTrueOfRecords, IsTrueOfRecordsFor, MayStopOn, TellsEither, LeavesUnread};
ghost use Rattle.tl_check.specs.Keeping.Read.{IsOfRead};

use crate::as_read::decide;
use std::alloc::Global;
use std::hash::RandomState;
use tl_cert_output::Stop;
use tl_check_verdict::{Verdict, fault_of_records};
use tl_map::{MapStop, read_map_with};
use tl_map_county::Map;
use tl_record::{Options, PLAIN, Source};

/// Decides whether the map of a county is sound, from the text of its record files and the text of a certificate.
///
/// The records are read whole first. Where a line is refused or the records have no map, that is the answer, and the
/// certificate isn't read. `budget` is how many pairs of segments may be tested whose rectangles meet.
pub fn check<R: Source, S: Source>(
    alloc: Global,
    hasher: RandomState,
    records: &mut R,
    cert: &mut S,
    budget: u64,
) -> Result<Verdict, Stop>
    // The map is sound.
    ensures sound { OnSound result (HaveMapOf (lines_read tiger_2006) (R.remaining records.old) IsSound) }
    // The certificate's text is that of a certificate that is valid for the map.
    ensures valid { OnSoundButFaces result (HaveMapOf (lines_read tiger_2006) (R.remaining records.old)
        (IsValidWhereKnown (S.remaining cert.old))) }
    // At most as many pairs of segments as the budget have rectangles that meet.
    ensures within { OnSoundButFaces result (HaveMapOf (lines_read tiger_2006) (R.remaining records.old) (IsWithinBudget budget)) }
    // The report has the map's numbers.
    ensures report { IfSound result (λ report. HaveMapOf (lines_read tiger_2006) (R.remaining records.old) (λ m. IsReport m report)) }
    // Each fault is true, and none is of faces.
    ensures map_fault { IfMapFault result (λ fault. IfSome (R.remaining records.old) (λ text.
        IsTrueOfRecords (lines_read tiger_2006 text) fault)) }
    ensures cert_fault { IfCertFault result (λ fault. HaveMapOf (lines_read tiger_2006) (R.remaining records.old) (λ m.
        IsTrueWhereKnown (S.remaining cert.old) m fault)) }
    // One of rounds or of walks comes only where the map's chains are planar.
    ensures behind { OnDartFault result (HaveMapOf (lines_read tiger_2006) (R.remaining records.old) (λ m. IsPlanar m.chains)) }
    // Where a search may be made by the certificate's text, and two segments of the map meet where they may not, the answer is
    // such a meet, or a stop: never a fault of the certificate, though its text may break off behind its tree.
    ensures meets { UnlessMeet result (HaveMapOf (lines_read tiger_2006) (R.remaining records.old)
        (IsPlanarWhereAllowed (S.remaining cert.old))) }
    // A fault of the map comes only where a search may be made by the certificate's text, and so does a stop for the budget.
    ensures searched { OnSearched result (HaveMapOf (lines_read tiger_2006) (R.remaining records.old)
        (AllowsSearchWhereKnown (S.remaining cert.old))) }
    // It stops at the first line that is refused, where memory was refused, a read failed, or more than the budget had to
    // be tested.
    ensures stops { IfErr result (λ stop. IfSome (R.remaining records.old) (λ text.
        MayStopOn (lines_read tiger_2006 text) budget stop)) }
    // Where a line is refused or the records have no map, nothing of the certificate is read.
    ensures unread { LeavesUnread result (cert.new ≡ cert.old) }
    // `Device` is answered where a read failed in this call, and nowhere else.
    ensures failures { TellsEither (R.failure_count records.old) (R.failure_count records.new)
        (S.failure_count cert.old) (S.failure_count cert.new) result }
{
    check_with(alloc, hasher, records, cert, budget, PLAIN)
}

/// Decides whether the map of a county is sound as [`check`] does, with the columns that the options choose of type I, and where
/// they ask for faces, whether these agree.
pub fn check_with<R: Source, S: Source>(
    alloc: Global,
    hasher: RandomState,
    records: &mut R,
    cert: &mut S,
    budget: u64,
    options: Options,
) -> Result<Verdict, Stop>
    // The map is sound, with zero-cell ids that agree where they are read, and keeps what is asked of its faces.
    ensures sound { OnSound result (HaveMapOf (records_of (layout_with options)) (R.remaining records.old) (IsSoundFor options.faces)) }
    // The certificate's text is that of a certificate that is valid for the map.
    ensures valid { OnSoundButFaces result (HaveMapOf (records_of (layout_with options)) (R.remaining records.old)
        (IsValidWhereKnown (S.remaining cert.old))) }
    // At most as many pairs of segments as the budget have rectangles that meet.
    ensures within { OnSoundButFaces result (HaveMapOf (records_of (layout_with options)) (R.remaining records.old) (IsWithinBudget budget)) }
    // The report has the map's numbers.
    ensures report { IfSound result (λ report. HaveMapOf (records_of (layout_with options)) (R.remaining records.old) (λ m. IsReport m report)) }
    // Each fault is true; one of faces comes only where they are asked for, and nothing else is wrong with the map.
    ensures map_fault { IfMapFault result (λ fault. IfSome (R.remaining records.old) (λ text.
        IsTrueOfRecordsFor options.faces (records_of (layout_with options) text) fault)) }
    ensures cert_fault { IfCertFault result (λ fault. HaveMapOf (records_of (layout_with options)) (R.remaining records.old) (λ m.
        IsTrueWhereKnown (S.remaining cert.old) m fault)) }
    // One of rounds or of walks comes only where the map's chains are planar.
    ensures behind { OnDartFault result (HaveMapOf (records_of (layout_with options)) (R.remaining records.old) (λ m. IsPlanar m.chains)) }
    // Where a search may be made by the certificate's text, and two segments of the map meet where they may not, the answer is
    // such a meet, or a stop: never a fault of the certificate, though its text may break off behind its tree.
    ensures meets { UnlessMeet result (HaveMapOf (records_of (layout_with options)) (R.remaining records.old)
        (IsPlanarWhereAllowed (S.remaining cert.old))) }
    // A fault of the map comes only where a search may be made by the certificate's text, and so does a stop for the budget.
    ensures searched { OnSearched result (HaveMapOf (records_of (layout_with options)) (R.remaining records.old)
        (AllowsSearchWhereKnown (S.remaining cert.old))) }
    // It stops at the first line that is refused, where memory was refused, a read failed, or more than the budget had to
    // be tested.
    ensures stops { IfErr result (λ stop. IfSome (R.remaining records.old) (λ text.
        MayStopOn (records_of (layout_with options) text) budget stop)) }
    // Where a line is refused or the records have no map, nothing of the certificate is read.
    ensures unread { LeavesUnread result (cert.new ≡ cert.old) }
    // `Device` is answered where a read failed in this call, and nowhere else.
    ensures failures { TellsEither (R.failure_count records.old) (R.failure_count records.new)
        (S.failure_count cert.old) (S.failure_count cert.new) result }
{
    let read = read_map_with(alloc, hasher, records, options);
    check_read(alloc, read, cert, budget, options.faces)
}

/// Decides of the map that was read of records, or tells why there is none.
fn check_read<S: Source>(
    alloc: Global,
    read: Result<Map, MapStop>,
    cert: &mut S,
    budget: u64,
    faces: bool,
) -> Result<Verdict, Stop>
    ensures { IsOfRead S.remaining S.failure_count read faces budget cert.old cert.new result }
{
    match read {
        Ok(map) => decide(alloc, &map, cert, budget, faces),
        Err(stop) => Ok(Verdict::MapFault(fault_of_records(stop)?)),
    }
}
