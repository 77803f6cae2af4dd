//! Faults that polygons, sides, landmarks and links tell.

ghost use Rattle.std.specs.Prelude.{ℕ, List, OnOk, IfOk, map};
ghost use Rattle.std.specs.List.Sorted.{IsPermutation, IsNonDecreasing};
ghost use Rattle.tl_record.specs.declared.record.Record.{Record};
ghost use Rattle.tl_map_rules.specs.Listing.Keeping.Told.{AreTold};
ghost use Rattle.tl_map_rules.specs.Listing.Keeping.Keys.{AreByKey};
ghost use Rattle.tl_map_rules.specs.Listing.Keeping.Areas.{AreAreas, with_areas};

use crate::listing::kept::NamedSide;
use crate::listing::keys::{push_repeated_keys, push_unknown_links, push_unknown_sides};
use crate::listing::numbers::{Numbered, push_missing, sort_numbers};
use crate::{LinkEntry, RecordFault};
use std::alloc::{AllocError, Global};
use tl_record::PolyKey;

/// The LANDs of links, sorted.
pub fn lands_of_links(alloc: Global, links: &[LinkEntry]) -> Result<Vec<u64>, AllocError>
    ensures ordered { IfOk result (λ lands. IsNonDecreasing lands.items) }
    ensures moved { IfOk result (λ lands. IsPermutation (map (λ l. l.land) links.now) lands.items) }
{
    let mut lands = Vec::with_capacity(alloc, links.len())?;
    for link in links {
        lands.push(link.land)?;
    }
    sort_numbers(&mut lands);
    Ok(lands)
}

/// Tells of sorted keys which stand twice, and of sides and links which name a polygon or a landmark that is not there.
pub fn push_areas(
    faults: &mut Vec<RecordFault>,
    polygons: &[PolyKey],
    names: &[NamedSide],
    landmarks: &[u64],
    links: &[LinkEntry],
    lands: &[u64],
) -> Result<(), AllocError>
    requires polygons { AreByKey polygons.now }
    requires landmarks { IsNonDecreasing landmarks.now }
    requires lands { IsNonDecreasing lands.now }
    ensures { (rs : List Record) (codes : List ℕ) →
        AreAreas rs polygons.now names.now landmarks.now links.now lands.now →
        AreTold rs codes faults.old.items → OnOk result (AreTold rs (with_areas codes) faults.new.items) }
{
    push_repeated_keys(faults, polygons)?;
    push_unknown_sides(faults, names, polygons)?;
    push_missing(faults, Numbered::LinkWithoutLandmark, lands, landmarks)?;
    push_unknown_links(faults, links, polygons)
}
