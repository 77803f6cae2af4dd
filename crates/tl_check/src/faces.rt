//! Faces of maps that are found to be sound.

ghost use Rattle.std.specs.Prelude.{◌≡◌};
ghost use Rattle.tl_check_verdict.specs.Sound.{IsSound};
ghost use Rattle.tl_check_verdict.specs.Verdicts.{OnSound};
ghost use Rattle.tl_check.specs.Keeping.Faces.{IsFacing, IsWithFaces, verdict_of};
ghost use Rattle.tl_check.specs.Keeping.Searching.{AreFirstGaps};

use tl_cert_output::Stop;
use tl_check_faces::{FaceFault, OddGap};
use tl_check_gaps::face_faults::face_fault_of;
use tl_check_verdict::{MapFault, Report, Verdict};
use tl_map_county::Map;

/// The answer where faces may be asked for, by what was decided without them: they are looked at where the map is sound, by the
/// gaps that a sweep has told.
pub fn with_faces(
    map: &Map,
    faces: bool,
    decided: Result<Verdict, Stop>,
    gaps: &[OddGap],
) -> Result<Verdict, Stop>
    requires sound { OnSound decided (IsSound map.now) }
    requires told { OnSound decided (AreFirstGaps map.now gaps.now) }
    ensures { IsWithFaces faces map.now decided result }
{
    match decided? {
        Verdict::Sound(report) => Ok(look_at_faces(map, faces, report, gaps)),
        Verdict::MapFault(fault) => Ok(Verdict::MapFault(fault)),
        Verdict::CertFault(fault) => Ok(Verdict::CertFault(fault)),
    }
}

/// What is decided where the map is sound.
fn look_at_faces(map: &Map, faces: bool, report: Report, gaps: &[OddGap]) -> Verdict
    requires sound { IsSound map.now }
    requires told { AreFirstGaps map.now gaps.now }
    ensures { IsFacing faces map.now report result }
{
    if !faces {
        return Verdict::Sound(report);
    }
    // so that a fault of faces denies that they are true
    map.has_proper_chains();
    by_faces(report, face_fault_of(map, gaps))
}

/// What is decided of a sound map by the faces that were found to disagree, if any were.
fn by_faces(report: Report, found: Option<FaceFault>) -> Verdict
    ensures { result ≡ verdict_of report found }
{
    match found {
        Some(fault) => Verdict::MapFault(MapFault::Face(fault)),
        None => Verdict::Sound(report),
    }
}
