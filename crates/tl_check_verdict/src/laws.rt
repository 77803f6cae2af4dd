//! Laws of the definitions, each the contract of a function that does nothing.

ghost use Rattle.std.specs.Prelude.{◌↔◌, ℕ, Bool, IsTrue, List, IfOk, IfErr};
ghost use Rattle.tl_record.specs.Records.{Records};
ghost use Rattle.tl_map_county.specs.TheMap.{TheMap};
ghost use Rattle.tl_check_planar.specs.Planar.{IsPlanar};
ghost use Rattle.tl_check_planar.specs.Searching.{AreBeyond};
ghost use Rattle.tl_check_sides.specs.Sides.{SidesAgree};
ghost use Rattle.tl_check_inside.specs.Placed.{ArePlaced};
ghost use Rattle.tl_check_sides.specs.Cells.Cells.{CellsAgree};
ghost use Rattle.tl_check_faces.specs.Truth.{AreFacesTrue};
ghost use Rattle.tl_cert.specs.Certificates.{TheCertificate};
ghost use Rattle.tl_check_verdict.specs.declared.fault.MapFault.{MapFault};
ghost use Rattle.tl_check_verdict.specs.declared.fault.CertFault.{CertFault};
ghost use Rattle.tl_check_verdict.specs.Sound.{IsSoundFor, AreClosed};
ghost use Rattle.tl_check_verdict.specs.Valid.{IsValid};
ghost use Rattle.tl_check_verdict.specs.Truth.{IsTrueOfMapFor, IsTrueOfCert};
ghost use Rattle.tl_check_verdict.specs.Texts.{IsValidText, IsTrueOfText};
ghost use Rattle.tl_check_verdict.specs.Records.{HaveMap, IsTrueOfRecordsFor, MayStopOn};
ghost use Rattle.tl_check_verdict.specs.Verdicts.{Answer, OnSound, IfMapFault, IfCertFault};
ghost use Rattle.tl_check_verdict.specs.Deciding.{SaysSound, PassesOrStops};

/// No fault is true of a map that keeps what is asked of it. As each fault that is answered is true, none is answered of such a map.
pub fn a_sound_map_has_no_fault()
    ensures { (faces : Bool) (m : TheMap) (fault : MapFault) → IsTrueOfMapFor faces m fault → ¬ IsSoundFor faces m }
{}

/// No fault is true of a certificate that is valid for the map. So the answer for a sound map with a valid certificate
/// is that it is sound, unless the check is stopped.
pub fn a_valid_certificate_has_no_fault()
    ensures { (m : TheMap) (c : TheCertificate) (fault : CertFault) → IsTrueOfCert m c fault → ¬ IsValid m c }
{}

/// No fault is true of records whose map keeps what is asked of it: neither of the records nor of their map.
pub fn records_of_a_sound_map_have_no_fault()
    ensures { (faces : Bool) (all : Records) (fault : MapFault) → IsTrueOfRecordsFor faces all fault →
        ¬ HaveMap all (IsSoundFor faces) }
{}

/// No fault is true of the text of a certificate that is valid for the map: such a text has one certificate, and no other.
pub fn a_valid_text_has_no_fault()
    ensures { (m : TheMap) (text : List ℕ) (fault : CertFault) → IsTrueOfText m text fault → ¬ IsValidText m text }
{}

/// So where a certificate is valid for the map, [`crate::check_map`] decides: if it isn't stopped, it answers `Sound` exactly
/// where the map keeps what is asked of it. It is said of each answer that is `Sound` only of a map with each part of what its clause
/// `sound` says, and keeps its clauses `map_fault` and `cert_fault`.
pub fn a_valid_certificate_decides()
    ensures { (faces : Bool) (m : TheMap) (c : TheCertificate) (answer : Answer) → IsValid m c → OnSound answer (IsPlanar m.chains) →
        OnSound answer (SidesAgree m.chains) → OnSound answer (AreClosed m) → OnSound answer (ArePlaced m) →
        OnSound answer (CellsAgree m.chains) → OnSound answer (IsTrue faces → AreFacesTrue m.chains) →
        IfMapFault answer (IsTrueOfMapFor faces m) → IfCertFault answer (IsTrueOfCert m c) →
        IfOk answer (λ verdict. SaysSound verdict ↔ IsSoundFor faces m) }
{}

/// And of records whose map keeps what is asked of it, with the text of a certificate that is valid for it,
/// [`crate::check_with`] answers `Sound` or stops, for want of memory, for a device, or for the budget; for the budget only
/// where more pairs of the map's segments have rectangles that meet, and as many of these as the budget don't conflict. It is
/// said of each answer that keeps its clauses `map_fault`, `cert_fault` and `stops`.
pub fn a_sound_map_with_a_valid_text_passes()
    ensures { (faces : Bool) (all : Records) (spelt : List ℕ) (budget : ℕ) (answer : Answer) → HaveMap all (IsSoundFor faces) →
        HaveMap all (λ m. IsValidText m spelt) → IfMapFault answer (IsTrueOfRecordsFor faces all) →
        IfCertFault answer (λ fault. HaveMap all (λ m. IsTrueOfText m spelt fault)) → IfErr answer (MayStopOn all budget) →
        PassesOrStops (HaveMap all (λ m. AreBeyond m.chains budget)) answer }
{}
