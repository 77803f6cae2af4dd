//! Faults that the keys of polygons tell.

ghost use Rattle.std.specs.Prelude.{◌≡◌, OnOk, Contains, length};
ghost use Rattle.std.specs.Bool.{Decides};
ghost use Rattle.std.specs.List.Sorted.{IsPermutation};
ghost use Rattle.tl_map_rules.specs.declared.fault.RecordFault.TheVariants.{DuplicatePolygon};
ghost use Rattle.tl_map_rules.specs.Listing.Keeping.Told.{Tells};
ghost use Rattle.tl_map_rules.specs.Listing.Keeping.Numbers.{StandsNext, IsMissing};
ghost use Rattle.tl_map_rules.specs.Listing.Keeping.Keys.{parts, AreByKey, side_fault, link_fault};

use crate::listing::kept::NamedSide;
use crate::{LinkEntry, RecordFault};
use std::alloc::AllocError;
use tl_record::PolyKey;

/// Sorts keys by POLYID, and those of one POLYID by CENID: of most counties all keys have one CENID.
pub fn sort_keys(keys: &mut Vec<PolyKey>)
    ensures ordered { AreByKey keys.new.items }
    ensures moved { IsPermutation keys.old.items keys.new.items }
{
    keys.sort_unstable_by_key(|key| parts_of(*key));
}

/// Both parts of a key, by which keys are sorted.
fn parts_of(key: PolyKey) -> (u64, [u8; 5])
    ensures { result ≡ parts key }
{
    let cenid = key.cenid;
    (key.polyid, cenid)
}

/// Is the key one of these, which are sorted?
fn has_key(keys: &[PolyKey], key: PolyKey) -> bool
    requires { AreByKey keys.now }
    ensures { Decides result (Contains keys.now key) }
{
    let wanted = parts_of(key);
    keys.binary_search_by_key(&wanted, |other| parts_of(*other))
        .is_ok()
}

/// Tells each key that stands next to itself.
pub fn push_repeated_keys(faults: &mut Vec<RecordFault>, keys: &[PolyKey]) -> Result<(), AllocError>
    ensures { OnOk result (Tells (StandsNext DuplicatePolygon keys.now (length keys.now))
        faults.old.items faults.new.items) }
{
    for place in 1..keys.len() {
        let polygon = keys[place];
        if keys[place - 1] == polygon {
            faults.push(RecordFault::DuplicatePolygon { polygon })?;
        }
    }
    Ok(())
}

/// Tells each key that a side names and that is not one of these, which are sorted.
pub fn push_unknown_sides(
    faults: &mut Vec<RecordFault>,
    names: &[NamedSide],
    keys: &[PolyKey],
) -> Result<(), AllocError>
    requires { AreByKey keys.now }
    ensures { OnOk result (Tells (IsMissing side_fault (λ n. n.key) names.now keys.now)
        faults.old.items faults.new.items) }
{
    for name in names {
        if !has_key(keys, name.key) {
            faults.push(RecordFault::SideWithoutPolygon {
                tlid: name.tlid,
                polygon: name.key,
            })?;
        }
    }
    Ok(())
}

/// Tells each link whose key is not one of these, which are sorted.
pub fn push_unknown_links(
    faults: &mut Vec<RecordFault>,
    links: &[LinkEntry],
    keys: &[PolyKey],
) -> Result<(), AllocError>
    requires { AreByKey keys.now }
    ensures { OnOk result (Tells (IsMissing link_fault (λ l. l.key) links.now keys.now)
        faults.old.items faults.new.items) }
{
    for link in links {
        if !has_key(keys, link.key) {
            faults.push(RecordFault::LinkWithoutPolygon {
                polygon: link.key,
                land: link.land,
            })?;
        }
    }
    Ok(())
}
