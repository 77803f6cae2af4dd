//! Laws of the definitions, each the contract of a function that does nothing.

ghost use Rattle.std.specs.Prelude.{◌↔◌, ℕ, List};
ghost use Rattle.tl_record.specs.declared.options.Options.{Options};
ghost use Rattle.tl_record.specs.Layout.{layout_with};
ghost use Rattle.tl_record.specs.Records.{records_of};
ghost use Rattle.tl_check_verdict.specs.declared.fault.MapFault.{MapFault};
ghost use Rattle.tl_check_verdict.specs.Sound.{IsSoundFor};
ghost use Rattle.tl_check_verdict.specs.Records.{HaveMap, IsTrueOfRecordsFor};
ghost use Rattle.tl_list_text.specs.declared.listing.Listing.{Listing};
ghost use Rattle.tl_list.specs.Listings.{IsListingOf};
ghost use Rattle.tl_list.specs.Telling.{SaysSound, EachFault, Tells, IsTrueAmongFaults};
ghost use Rattle.tl_list.specs.Alike.{AreAlike};

use tl_check_points::listing::laws::a_map_has_one_list_of_all_misplaced;

/// A listing says that the map is sound exactly where the records have a map that keeps what is asked of it.
pub fn a_sound_map_alone_is_listed_as_sound()
    ensures { (options : Options) (text : List ℕ) (listing : Listing) → IsListingOf options text listing →
        SaysSound listing ↔ HaveMap (records_of (layout_with options) text) (IsSoundFor options.faces) }
{}

/// Each fault that is listed is true.
pub fn each_fault_that_is_listed_is_true()
    ensures { (options : Options) (text : List ℕ) (listing : Listing) → IsListingOf options text listing →
        EachFault listing (IsTrueAmongFaults options.faces (records_of (layout_with options) text)) }
{}

/// The list tells each fault that is true: itself, but for the point at which two segments meet, the pair of zero-cell ids, and what hangs
/// on polygons that sides at odds name.
pub fn each_fault_that_is_true_is_told()
    ensures { (options : Options) (text : List ℕ) (listing : Listing) (fault : MapFault) →
        IsListingOf options text listing → IsTrueAmongFaults options.faces (records_of (layout_with options) text) fault → Tells listing fault }
{}

/// So the one of several faults which `tl_build` names is among them.
pub fn a_fault_that_is_true_alone_is_true_among_others()
    ensures { (options : Options) (text : List ℕ) (fault : MapFault) →
        IsTrueOfRecordsFor options.faces (records_of (layout_with options) text) fault →
        IsTrueAmongFaults options.faces (records_of (layout_with options) text) fault }
{}

/// A text has one listing, but for the points at which segments meet, and the nodes and rings of a sound map.
pub fn a_text_has_one_listing()
    ensures { (options : Options) (text : List ℕ) (listing other : Listing) → IsListingOf options text listing →
        IsListingOf options text other → AreAlike listing other }
{
    a_map_has_one_list_of_all_misplaced();
}
