//! Whether the map is sound of which something is listed.

ghost use Rattle.std.specs.Prelude.{◌≡◌, ◌↔◌, Bool, IsTrue};
ghost use Rattle.tl_map_county.specs.TheMap.{TheMap};
ghost use Rattle.tl_check_verdict.specs.Sound.{IsSound};
ghost use Rattle.tl_list.specs.MapListings.{IsListingFor};
ghost use Rattle.tl_decide.specs.Deciding.{begins_with_faces};

use tl_check_verdict::MapFault;
use tl_list_text::Listing;

/// Whether the map is sound of which this is listed, whatever is said of its faces: so the map needn't be decided once more.
pub fn has_sound_map(listing: &Listing) -> bool
    // It is where no fault is listed, or none but of faces.
    ensures { (faces : Bool) (m : TheMap) → IsListingFor faces m listing.now → IsTrue result ↔ IsSound m }
{
    match listing {
        Listing::Sound(_) => true,
        Listing::Refused(_) => false,
        Listing::Faults { faults, .. } => begins_with_faces(faults),
    }
}

/// Whether the first of these faults is of faces: then all are, since those come behind all others.
fn begins_with_faces(faults: &[MapFault]) -> bool
    ensures { result ≡ begins_with_faces faults.now }
{
    match faults.first() {
        Some(MapFault::Face(_)) => true,
        _ => false,
    }
}
