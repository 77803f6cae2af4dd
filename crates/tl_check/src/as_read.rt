//! The check of a map by a certificate that is checked as its parts come.

ghost use Rattle.std.specs.Prelude.{◌≡◌, ◌<◌, ◌^◌, length, IfOk, IfErr, false};
ghost use Rattle.tl_tree_index.specs.Preorder.{IsPreorder};
ghost use Rattle.tl_check_planar.specs.Planar.{IsPlanar};
ghost use Rattle.tl_cert.specs.declared.reader.Standing.TheVariants.{Reading};
ghost use Rattle.tl_cert.specs.declared.place.NextPart.TheVariants.{Start};
ghost use Rattle.tl_cert.specs.Certificates.{TheCertificate};
ghost use Rattle.tl_cert.specs.Reading.{source_of, lines_of, standing_of};
ghost use Rattle.tl_check_verdict.specs.Sound.{IsSoundFor};
ghost use Rattle.tl_check_verdict.specs.Valid.{AreCounts, IsTree};
ghost use Rattle.tl_check_verdict.specs.Truth.{IsTrueOfMapFor};
ghost use Rattle.tl_check_verdict.specs.Verdicts.{OnSound, OnSoundButFaces, IfSound, IfMapFault, IfCertFault, OnDartFault, UnlessMeet, OnSearched, IsReport, IsWithinBudget};
ghost use Rattle.tl_check_verdict.specs.Texts.{IsTrueWhereKnown, IsValidWhereKnown, AllowsSearchWhereKnown, IsPlanarWhereAllowed, MayStopReading};
ghost use Rattle.tl_cert_output.specs.Stops.{TellsDevice};
ghost use Rattle.tl_check.specs.Keeping.Searching.{AreFirstGaps};
ghost use Rattle.tl_check.specs.Keeping.Parts.{Holds, LeadsBehindTree};
ghost use Rattle.tl_check.specs.Keeping.Read.{IsOfSpelt, IsOfText};
ghost use Rattle.tl_check.specs.Keeping.Streams.{IsBehindTree, IsAnswer, MayCome, LeadsBy};

use crate::answer::{answer, stopped};
use crate::counts::are_counts;
use crate::faces::with_faces;
use crate::rounds::{end_rounds, take_round};
use crate::state::{Halt, State};
use crate::tree::take_tree;
use crate::walks::{conclude, take_walk};
use std::alloc::Global;
use tl_cert::{CertPart, CertReader, Counts};
use tl_cert_output::Stop;
use tl_check_faces::OddGap;
use tl_check_verdict::{CertFault, Verdict};
use tl_map_county::Map;
use tl_record::Source;
use tl_tree_index::TreeNode;

/// Decides whether a map is sound, by the text of a certificate of it, read to its end unless segments meet that may not
/// or a stop comes first; and where `faces` are asked for, whether they agree, if nothing else is wrong with the map. Of the
/// certificate no part is kept.
pub fn check_cert<S: Source>(
    alloc: Global,
    map: &Map,
    cert: &mut S,
    budget: u64,
    faces: bool,
) -> Result<Verdict, Stop>
    // The map is sound, and keeps what is asked of its faces.
    ensures sound { OnSound result (IsSoundFor faces map.now) }
    // The text is that of a certificate that is valid for the map.
    ensures valid { OnSoundButFaces result (IsValidWhereKnown (S.remaining cert.old) map.now) }
    // At most as many pairs of segments as the budget have rectangles that meet.
    ensures within { OnSoundButFaces result (IsWithinBudget budget map.now) }
    // The report has the map's numbers.
    ensures report { IfSound result (IsReport map.now) }
    // Each fault is true; one of faces comes only where they are asked for, and nothing else is wrong with the map.
    ensures map_fault { IfMapFault result (IsTrueOfMapFor faces map.now) }
    ensures cert_fault { IfCertFault result (IsTrueWhereKnown (S.remaining cert.old) map.now) }
    // One of rounds or of walks comes only where the chains are planar.
    ensures behind { OnDartFault result (IsPlanar map.now.chains) }
    // Where a search may be made by the text, and two segments meet where they may not, the answer is such a meet, or a stop: a
    // fault of the certificate is answered only where the chains are planar, though the text may break off behind its tree.
    ensures meets { UnlessMeet result (IsPlanarWhereAllowed (S.remaining cert.old) map.now) }
    // A fault of the map comes only where a search may be made by the text, and so does a stop for the budget.
    ensures searched { OnSearched result (AllowsSearchWhereKnown (S.remaining cert.old) map.now) }
    // It stops where memory was refused, a read failed, or more than the budget had to be tested.
    ensures stops { IfErr result (MayStopReading map.now budget) }
    // `Device` is answered where a read failed in this call, and nowhere else.
    ensures failures { TellsDevice (S.failure_count cert.old) (S.failure_count cert.new) result }
{
    decide(alloc, map, cert, budget, faces)
}

/// The same, with one clause for all that the answer says.
pub fn decide<S: Source>(
    alloc: Global,
    map: &Map,
    cert: &mut S,
    budget: u64,
    faces: bool,
) -> Result<Verdict, Stop>
    ensures { IsOfText map.now faces budget (S.remaining cert.old) (S.failure_count cert.old) (S.failure_count cert.new) result }
{
    let mut gaps = Vec::new(alloc);
    let decided = check_text(alloc, map, cert, budget, &mut gaps);
    with_faces(map, faces, decided, &gaps)
}

/// The same without faces, and the gaps that a sweep has told, where the map is sound.
fn check_text<S: Source>(
    alloc: Global,
    map: &Map,
    cert: &mut S,
    budget: u64,
    gaps: &mut Vec<OddGap>,
) -> Result<Verdict, Stop>
    ensures decides { IsOfSpelt map.now false budget (S.remaining cert.old) result }
    ensures failures { TellsDevice (S.failure_count cert.old) (S.failure_count cert.new) result }
    ensures told { OnSound result (AreFirstGaps map.now gaps.new.items) }
{
    let mut reader = CertReader::new(alloc, cert);
    check_parts(alloc, map, &mut reader, budget, gaps)
}

/// Checks a certificate of which no part was read yet.
fn check_parts<R: Source>(
    alloc: Global,
    map: &Map,
    reader: &mut CertReader<R>,
    budget: u64,
    gaps: &mut Vec<OddGap>,
) -> Result<Verdict, Stop>
    requires standing { standing_of reader.old ≡ Reading Start }
    requires lines { lines_of reader.old ≡ 0 }
    ensures answers { IsAnswer R.remaining R.failure_count map.now budget reader.old reader.new result }
    ensures same_reference { R.reference (source_of reader.new) ≡ R.reference (source_of reader.old) }
    ensures told { OnSound result (AreFirstGaps map.now gaps.new.items) }
{
    let mut state = match take_head(alloc, map, reader, budget) {
        Ok(begun) => begun,
        Err(early) => return early,
    };
    'parts: loop {
        match reader.next_part() {
            Ok(Some(part)) => match take_part(alloc, map, state, part) {
                Ok(next) => state = next,
                Err(halt) => return answer(halt),
            },
            Ok(None) => return conclude(alloc, map, state, gaps),
            Err(stop) => return stopped(stop),
        }
    }
}

/// Takes the counts and the tree of a certificate of which no part was read yet: what was found so far, or the answer, where
/// there is one already.
fn take_head<R: Source>(
    alloc: Global,
    map: &Map,
    reader: &mut CertReader<R>,
    budget: u64,
) -> Result<State, Result<Verdict, Stop>>
    requires standing { standing_of reader.old ≡ Reading Start }
    requires lines { lines_of reader.old ≡ 0 }
    ensures begins { IfOk result (IsBehindTree R.remaining R.failure_count map.now budget reader.old reader.new) }
    ensures answers { IfErr result (λ early.
        IsAnswer R.remaining R.failure_count map.now budget reader.old reader.new early) }
    // It isn't yet that the map is sound.
    ensures early { IfErr result (λ early. OnSound early ⊥) }
    ensures same_reference { R.reference (source_of reader.new) ≡ R.reference (source_of reader.old) }
{
    let counts = match reader.next_part() {
        Ok(Some(CertPart::Counts(counts, _))) => counts,
        Ok(_) => unreachable!(),
        Err(stop) => return Err(stopped(stop)),
    };
    let nodes = match reader.next_part() {
        Ok(Some(CertPart::Tree(nodes))) => nodes,
        Ok(_) => unreachable!(),
        Err(stop) => return Err(stopped(stop)),
    };
    match take_counted(alloc, map, counts, &nodes, budget) {
        Ok(state) => Ok(state),
        Err(halt) => Err(answer(halt)),
    }
}

/// Takes the counts and the tree: each certificate that begins so is wrong where the counts aren't the map's.
pub fn take_counted(
    alloc: Global,
    map: &Map,
    counts: Counts,
    nodes: &[TreeNode],
    budget: u64,
) -> Result<State, Halt>
    requires whole { IsPreorder nodes.now }
    requires numbered { length nodes.now < 2 ^ 32 }
    ensures { LeadsBehindTree map.now budget (AreCounts map.now counts × IsTree map.now nodes.now) (λ c. c.counts ≡ counts)
        nodes.now result }
{
    if are_counts(map, counts) {
        take_tree(alloc, map, nodes, budget)
    } else {
        Ok(State::Wrong(CertFault::Counts))
    }
}

/// Takes one part more, a round or a walk: rounds that haven't ended yet end before a walk.
fn take_part(alloc: Global, map: &Map, state: State, part: CertPart) -> Result<State, Halt>
    requires comes { MayCome part state }
    requires held { (c : TheCertificate) × Holds map.now c state }
    ensures { LeadsBy map.now part state result }
{
    match part {
        CertPart::Round(darts) => Ok(take_round(map, state, &darts)),
        CertPart::Walk(darts) => {
            let ended = end_rounds(alloc, map, state)?;
            Ok(take_walk(map, ended, &darts))
        }
        CertPart::Counts(_, _) | CertPart::Tree(_) => unreachable!(),
    }
}
