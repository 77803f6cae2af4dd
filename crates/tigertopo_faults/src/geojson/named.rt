//! What a fault names: TLIDs, polygons' keys and a LAND.

ghost use Rattle.std.specs.Prelude.{◌≡◌, option_copied};
ghost use Rattle.tigertopo_faults.specs.Records.SpokenOf.{chains_of};
ghost use Rattle.tigertopo_faults.specs.Geojson.Named.{each_once, tlid_about, tlids_of, key_about, keys_of, land_of};

use crate::records::tlid_of;
use tl_check_faces::FaceFault;
use tl_check_verdict::About;
use tl_map_county::Map;
use tl_map_rules::AboutRecords;
use tl_record::PolyKey;

/// The TLIDs that a fault names, each once. Chains of darts are those of the map, where the records have one.
pub fn tlids_of(map: Option<&Map>, about: &About) -> (Option<u64>, Option<u64>)
    ensures { result ≡ tlids_of (chains_of (option_copied map.entry)) about.now }
{
    match about {
        About::Records(records) => (tlid_about(records), None),
        About::PolygonTlid(_, tlid) => (Some(*tlid), None),
        About::Meet(meet) => each_once(Some(meet.tlid), Some(meet.other)),
        About::Darts { first, next, .. } => each_once(tlid_of(map, *first), tlid_of(map, *next)),
        About::Cells(odds) => each_once(tlid_of(map, odds.first), tlid_of(map, odds.second)),
        About::Faces(FaceFault::Facing { first, last }) => {
            each_once(Some(first.tlid), Some(last.tlid))
        }
        About::Faces(FaceFault::Outward { face, .. }) => (Some(face.tlid), None),
        About::PolygonAlone(_) | About::PolygonOther(_, _) => (None, None),
    }
}

// The TLID of records, where it is named.
fn tlid_about(records: &AboutRecords) -> Option<u64>
    ensures { result ≡ tlid_about records.now }
{
    match records {
        AboutRecords::Tlid(tlid, _) | AboutRecords::TlidPolygon(tlid, _) => Some(*tlid),
        _ => None,
    }
}

// Two TLIDs, each once.
fn each_once(tlid: Option<u64>, other: Option<u64>) -> (Option<u64>, Option<u64>)
    ensures { result ≡ each_once tlid other }
{
    match (tlid, other) {
        (Some(one), Some(two)) if one == two => (tlid, None),
        _ => (tlid, other),
    }
}

/// The keys that a fault names.
pub fn keys_of(about: &About) -> (Option<PolyKey>, Option<PolyKey>)
    ensures { result ≡ keys_of about.now }
{
    match about {
        About::Records(records) => (key_about(records), None),
        About::PolygonAlone(polygon) | About::PolygonTlid(polygon, _) => (Some(*polygon), None),
        About::PolygonOther(polygon, other) => (Some(*polygon), Some(*other)),
        About::Faces(FaceFault::Facing { first, last }) => (first.polygon, last.polygon),
        About::Faces(FaceFault::Outward { face, .. }) => (face.polygon, None),
        _ => (None, None),
    }
}

// The key that is named where a fault is of records.
fn key_about(records: &AboutRecords) -> Option<PolyKey>
    ensures { result ≡ key_about records.now }
{
    match records {
        AboutRecords::Polygon(polygon)
        | AboutRecords::TlidPolygon(_, polygon)
        | AboutRecords::PolygonLand(polygon, _) => Some(*polygon),
        _ => None,
    }
}

/// The LAND that a fault names.
pub fn land_of(about: &About) -> Option<u64>
    ensures { result ≡ land_of about.now }
{
    match about {
        About::Records(AboutRecords::Land(land)) => Some(*land),
        About::Records(AboutRecords::PolygonLand(_, land)) => Some(*land),
        _ => None,
    }
}
