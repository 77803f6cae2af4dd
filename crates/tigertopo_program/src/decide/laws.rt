//! Laws of what is answered, each the contract of a function that does nothing.

ghost use Rattle.std.specs.Prelude.{◌≡◌, ◌≢◌, ◌≤◌, ℕ, List, Option, Some};
ghost use Rattle.tl_record.specs.declared.options.Options.{Options};
ghost use Rattle.tl_record.specs.Layout.{layout_with};
ghost use Rattle.tl_record.specs.Records.{records_of};
ghost use Rattle.tl_check_planar.specs.Searching.{meeting_segments};
ghost use Rattle.tl_cert_output.specs.declared.stop.Stop.{Stop};
ghost use Rattle.tl_check_verdict.specs.Records.{HaveMap};
ghost use Rattle.tigertopo_files.specs.World.{World};
ghost use Rattle.tigertopo_program.specs.Answers.{AuditAnswers, CheckAnswers};
ghost use Rattle.tigertopo_program.specs.Records.{IsDoneWhereSound, StopsCheck};
ghost use Rattle.tigertopo_program.specs.Building.{AreSoundWith, BuildAnswers};

/// Where `audit` answers, its status is 0 exactly where the map of the records keeps what is asked of it.
pub fn an_audit_is_exact()
    ensures { (options : Options) (known : Option (List ℕ)) (status : ℕ) (said : List ℕ) → AuditAnswers options known status said →
        IsDoneWhereSound options known status }
{}

/// Where `check` answers, and with no fault of the certificate, which has the status 2, its status is 0 exactly where
/// the map of the records keeps what is asked of it.
pub fn a_check_is_exact()
    ensures { (options : Options) (budget : ℕ) (known spelt : Option (List ℕ)) (status : ℕ) (said : List ℕ) →
        CheckAnswers options budget known spelt status said → status ≢ 2 → IsDoneWhereSound options known status }
{}

/// Where `build` answers, its status is 0 exactly where the map of the records keeps what is asked of it.
pub fn a_build_is_exact()
    ensures { (w : World) (options : Options) (known : Option (List ℕ)) (name : List ℕ) (status : ℕ) (said : List ℕ) →
        BuildAnswers w options known name status said → IsDoneWhereSound options known status }
{}

/// Where `build` answers 0, the records have a map that keeps what is asked of it, and what stands under the certificate's name is the
/// text of one that is valid for it.
pub fn what_was_built_is_valid()
    ensures { (w : World) (options : Options) (text spelt name : List ℕ) (said : List ℕ) →
        BuildAnswers w options (Some text) name 0 said → w.after name ≡ Some (Some spelt) → AreSoundWith options text spelt }
{}

/// So of these two texts a `check` by the same columns, which asks the same of faces, answers 0 where it answers, and but for want of
/// memory and for a device that failed it does answer where the budget is at least the number of pairs of the map's segments whose
/// rectangles meet.
pub fn what_was_built_passes()
    ensures status { (options : Options) (budget : ℕ) (text spelt : List ℕ) (status : ℕ) (said : List ℕ) → AreSoundWith options text spelt →
        CheckAnswers options budget (Some text) (Some spelt) status said → status ≡ 0 }
    ensures stops { (options : Options) (budget : ℕ) (text spelt : List ℕ) (stop : Stop) → AreSoundWith options text spelt →
        HaveMap (records_of (layout_with options) text) (λ m. meeting_segments m.chains ≤ budget) →
        ¬ StopsCheck options budget (Some text) (Some spelt) stop }
{}
