//! The chains that faults name.

ghost use Rattle.std.specs.Prelude.{◌≡◌, ◌++◌, ◌<◌, [], IfOk, OnOk, length, slice_get, option_copied, option_to_list};
ghost use Rattle.std.specs.Option.{option_map_or};
ghost use Rattle.std.specs.List.{flat_map};
ghost use Rattle.std.specs.List.Sorted.{IsPermutation, IsSorted};
ghost use Rattle.std.specs.Ordering.{nat_cmp};
ghost use Rattle.tigertopo_faults.specs.Records.SpokenOf.{chains_of};
ghost use Rattle.tigertopo_faults.specs.Geojson.Named.{listed};
ghost use Rattle.tigertopo_faults.specs.Geojson.Texts.{named_tlids, is_among, named_chain, chains_text};

use crate::geojson::named::tlids_of;
use std::alloc::{AllocError, Global};
use tigertopo_pictures::geojson::print_chain;
use tl_cert_output::Page;
use tl_check_verdict::{MapFault, row};
use tl_map_county::Map;

/// The TLIDs that faults name, by rising number.
pub fn list_tlids(
    alloc: Global,
    drawn: Option<&Map>,
    faults: &[MapFault],
) -> Result<Vec<u64>, AllocError>
    ensures sorted { IfOk result (λ tlids. IsSorted nat_cmp tlids.items) }
    ensures moved { IfOk result (λ tlids. IsPermutation (named_tlids (chains_of (option_copied drawn.entry)) faults.now) tlids.items) }
{
    let mut tlids = list_in_order(alloc, drawn, faults)?;
    tlids.sort_unstable();
    Ok(tlids)
}

// The same, in the faults' order.
fn list_in_order(
    alloc: Global,
    drawn: Option<&Map>,
    faults: &[MapFault],
) -> Result<Vec<u64>, AllocError>
    ensures { IfOk result (λ tlids. tlids.items ≡ named_tlids (chains_of (option_copied drawn.entry)) faults.now) }
{
    let mut tlids = Vec::new(alloc);
    for fault in faults {
        push_both(&mut tlids, tlids_of(drawn, &row(fault).about))?;
    }
    Ok(tlids)
}

// Adds one TLID or two, or none.
fn push_both(tlids: &mut Vec<u64>, more: (Option<u64>, Option<u64>)) -> Result<(), AllocError>
    ensures { OnOk result (tlids.new.items ≡ tlids.old.items ++ listed more) }
{
    push_some(tlids, more.0)?;
    push_some(tlids, more.1)
}

// Adds a TLID, where there is one.
fn push_some(tlids: &mut Vec<u64>, more: Option<u64>) -> Result<(), AllocError>
    ensures { OnOk result (tlids.new.items ≡ tlids.old.items ++ option_to_list more) }
{
    if let Some(tlid) = more {
        tlids.push(tlid)?;
    }
    Ok(())
}

/// Prints the chains of a map that have these TLIDs, behind other features.
pub fn print_chains<P: Page>(drawn: Option<&Map>, tlids: &[u64], page: &mut P)
    requires { IsSorted nat_cmp tlids.now }
    ensures { P.adds page.old page.new (chains_text (option_copied drawn.entry) tlids.now) }
{
    if let Some(map) = drawn {
        print_chains_of(map, tlids, page);
    }
}

// Prints those of this map.
fn print_chains_of<P: Page>(map: &Map, tlids: &[u64], page: &mut P)
    requires { IsSorted nat_cmp tlids.now }
    ensures { P.adds page.old page.new (flat_map (named_chain map.now.polygons tlids.now) map.now.chains) }
{
    for number in 0..map.chains() {
        print_named(map, number, tlids, page);
    }
}

// Prints the chain of this number, where it has one of these TLIDs.
fn print_named<P: Page>(map: &Map, number: u32, tlids: &[u64], page: &mut P)
    requires number { number < length map.now.chains }
    requires sorted { IsSorted nat_cmp tlids.now }
    ensures { P.adds page.old page.new (option_map_or (named_chain map.now.polygons tlids.now) (slice_get map.now.chains number) []) }
{
    if is_among(map.chain(number).tlid, tlids) {
        page.add(b",\n");
        print_chain(map, number, None, page);
    }
}

// Is a TLID one of these, which rise?
fn is_among(tlid: u64, tlids: &[u64]) -> bool
    requires { IsSorted nat_cmp tlids.now }
    ensures { result ≡ is_among tlid tlids.now }
{
    tlids.binary_search(&tlid).is_ok()
}
