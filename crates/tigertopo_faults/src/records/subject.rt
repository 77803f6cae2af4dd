//! What faults speak of.

ghost use Rattle.std.specs.Prelude.{◌≡◌, Some, option_copied, option_map};
ghost use Rattle.tigertopo_faults.specs.Records.SpokenOf.{subjects_of, subjects_about, subject_about, subject_in, subjects_of_faces, sides_of_darts};
ghost use Rattle.tigertopo_faults.specs.Records.SpokenOf.{other_tlid, tlid_of, chains_of};
ghost use Rattle.tigertopo_faults.specs.Records.Naming.{subjects_naming};
ghost use Rattle.tigertopo_faults.specs.declared.records.subject.Subject.TheVariants.{Drawn, Sides};

use tl_check_faces::FaceFault;
use tl_check_verdict::{About, MapFault, row};
use tl_map_county::Map;
use tl_map_rules::{AboutRecords, Which};
use tl_record::{PolyKey, Record};

/// What names records: their type and what they are of.
#[derive(Clone, Copy, Debug, PartialEq, Eq, Hash)]
pub enum Subject {
    /// The type 1 records of a TLID.
    Chain(u64),
    /// The type 2 records of a TLID.
    Shape(u64),
    /// The records of types 1 and 2 of a TLID, which draw its chain.
    Drawn(u64),
    /// The type I records of a TLID.
    Sides(u64),
    /// The type P records of a key.
    Polygon(PolyKey),
    /// The type 8 records of a LAND.
    Land(u64),
    /// The type 8 records of a key and a LAND.
    Link(PolyKey, u64),
}

/// One subject or two, or none.
pub type Subjects = (Option<Subject>, Option<Subject>);

/// What a fault speaks of. Chains of darts are those of the map, where the records have one.
pub fn subjects_of(map: Option<&Map>, fault: &MapFault) -> Subjects
    ensures { result ≡ subjects_of (chains_of (option_copied map.entry)) fault.now }
{
    subjects_about(map, &row(fault).about)
}

/// The same, by what the fault is about.
pub(crate) fn subjects_about(map: Option<&Map>, about: &About) -> Subjects
    ensures { result ≡ subjects_about (chains_of (option_copied map.entry)) about.now }
{
    match *about {
        About::Records(records) => (subject_about(records), None),
        About::Meet(meet) => subjects_of_meet(meet.tlid, meet.other),
        About::Darts { first, next, .. } => sides_of_darts(tlid_of(map, first), tlid_of(map, next)),
        About::PolygonAlone(polygon) => (Some(Subject::Polygon(polygon)), None),
        About::PolygonTlid(polygon, tlid) => {
            (Some(Subject::Polygon(polygon)), Some(Subject::Drawn(tlid)))
        }
        About::PolygonOther(polygon, other) => {
            (
                Some(Subject::Polygon(polygon)),
                Some(Subject::Polygon(other)),
            )
        }
        About::Cells(odds) => sides_of_darts(tlid_of(map, odds.first), tlid_of(map, odds.second)),
        About::Faces(fault) => subjects_of_faces(&fault),
    }
}

// What a fault of records speaks of.
fn subject_about(about: AboutRecords) -> Option<Subject>
    ensures { result ≡ subject_about about }
{
    match about {
        AboutRecords::Tlid(tlid, records) => Some(subject_in(records, tlid)),
        AboutRecords::Polygon(polygon) => Some(Subject::Polygon(polygon)),
        AboutRecords::TlidPolygon(tlid, _) => Some(Subject::Sides(tlid)),
        AboutRecords::Land(land) => Some(Subject::Land(land)),
        AboutRecords::PolygonLand(polygon, land) => Some(Subject::Link(polygon, land)),
        AboutRecords::Limit(_) | AboutRecords::Types(_) => None,
    }
}

// These records of a TLID.
fn subject_in(records: Which, tlid: u64) -> Subject
    ensures { result ≡ subject_in records tlid }
{
    match records {
        Which::Chain => Subject::Chain(tlid),
        Which::Shape => Subject::Shape(tlid),
        Which::Drawn => Subject::Drawn(tlid),
        Which::Sides => Subject::Sides(tlid),
    }
}

// What faces that disagree speak of.
fn subjects_of_faces(fault: &FaceFault) -> Subjects
    ensures { result ≡ subjects_of_faces fault.now }
{
    match fault {
        FaceFault::Facing { first, last } => sides_of_darts(Some(first.tlid), Some(last.tlid)),
        FaceFault::Outward { face, .. } => (Some(Subject::Sides(face.tlid)), None),
    }
}

// What two chains that meet speak of.
fn subjects_of_meet(tlid: u64, other: u64) -> Subjects
    ensures { result ≡ (Some (Drawn tlid), option_map Drawn (other_tlid (Some tlid) (Some other))) }
{
    if tlid == other {
        return (Some(Subject::Drawn(tlid)), None);
    }
    (Some(Subject::Drawn(tlid)), Some(Subject::Drawn(other)))
}

// What lies on both sides of the chains of two darts.
fn sides_of_darts(tlid: Option<u64>, other: Option<u64>) -> Subjects
    ensures { result ≡ sides_of_darts tlid other }
{
    match (tlid, other) {
        (Some(tlid), Some(other)) if tlid == other => (Some(Subject::Sides(tlid)), None),
        _ => (sides_of(tlid), sides_of(other)),
    }
}

// The type I records of a TLID, where there is one.
fn sides_of(tlid: Option<u64>) -> Option<Subject>
    ensures { result ≡ option_map Sides tlid }
{
    match tlid {
        Some(tlid) => Some(Subject::Sides(tlid)),
        None => None,
    }
}

/// The TLID of a dart's chain.
pub fn tlid_of(map: Option<&Map>, dart: u32) -> Option<u64>
    ensures { result ≡ tlid_of (chains_of (option_copied map.entry)) dart }
{
    match map {
        Some(map) if dart / 2 < map.chains() => Some(map.chain(dart / 2).tlid),
        _ => None,
    }
}

// The subjects that name a record, if one does.
pub(crate) fn subjects_naming(named: &Record) -> Subjects
    ensures { result ≡ subjects_naming named.now }
{
    match *named {
        Record::Chain { tlid, .. } => (Some(Subject::Chain(tlid)), Some(Subject::Drawn(tlid))),
        Record::Shape { tlid, .. } => (Some(Subject::Shape(tlid)), Some(Subject::Drawn(tlid))),
        Record::Sides { tlid, .. } => (Some(Subject::Sides(tlid)), None),
        Record::PolyPoint { key, .. } => (Some(Subject::Polygon(key)), None),
        Record::Landmark { .. } => (None, None),
        Record::AreaLink { key, land } => (
            Some(Subject::Link(key, land)),
            Some(Subject::Land(land)),
        ),
    }
}
