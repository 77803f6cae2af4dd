//! Laws of all faults of faces, each the contract of a function that does nothing.
ghost use Rattle.std.specs.Prelude.{◌≢◌, List};
ghost use Rattle.std.specs.List.{AllPairs, Contains};
ghost use Rattle.tl_map_county.specs.TheMap.{TheMap};
ghost use Rattle.tl_check_planar.specs.Planar.{IsPlanar};
ghost use Rattle.tl_check_planar.specs.ByHeight.Heights.{widest};
ghost use Rattle.tl_check_faces.specs.Lists.{AreAllNear};
ghost use Rattle.tl_check_faces.specs.declared.fault.FaceFault.{FaceFault};
ghost use Rattle.tl_check_faces.specs.Faults.{IsTrueFaceFault};
ghost use Rattle.tl_check_faces.specs.AllFaults.{AreAllFaceFaults};

/// Of planar chains no two of all faults are equal: a place strictly within a segment tells which segment it is.
pub fn no_two_faults_are_equal()
    ensures { (m : TheMap) (faults : List FaceFault) → IsPlanar m.chains → AreAllNear widest m.chains → AreAllFaceFaults m faults →
        AllPairs (λ x y. x ≢ y) faults }
{}

/// Each fault of faces that is true is among all of them: of two segments, or of one and the outside, one alone is true.
pub fn each_true_fault_is_among_all()
    ensures { (m : TheMap) (faults : List FaceFault) (fault : FaceFault) → AreAllFaceFaults m faults → IsTrueFaceFault m fault →
        Contains faults fault }
{}
