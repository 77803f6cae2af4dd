//! All records, with each chain that is told twice once.

ghost use Rattle.std.specs.Prelude.{◌≡◌, ◌+◌, ◌<◌, ℕ, List, length, drop, filter, slice_get, Some, IfOk};
ghost use Rattle.std.specs.List.{list_any};
ghost use Rattle.std.specs.BTreeSet.{contains};
ghost use Rattle.std.specs.Ordering.{nat_cmp};
ghost use Rattle.tl_record.specs.declared.record.Record.{Record};
ghost use Rattle.tl_record.specs.Joining.{are_two_that_fit, is_shape_apart, is_told_twice, joined_one};
ghost use Rattle.tl_map.specs.Joined.Keeping.Places.{is_at};
ghost use Rattle.tl_map.specs.Joined.Keeping.Told.{AreAllTwins};
ghost use Rattle.tl_map.specs.Joined.Keeping.Joined.{apart_of, AreApart};
ghost use Rattle.tl_map.specs.Joined.Told.{joined_records};

use crate::joined::fits::{fits, one_of_two};
use crate::joined::place::{ENDS, PAIRS, Place, SIDES, place_of};
use crate::joined::told::{ToldRecords, Twins, two_at};
use std::alloc::{AllocError, Global};
use std::collections::{BTreeMap, BTreeSet};
use tl_record::Record;

/// Are those that tell this two, and do they fit?
fn are_two(records: &[Record], twins: &BTreeMap<Place, Twins>, place: &Place) -> bool
    requires { AreAllTwins records.now twins.now }
    ensures { result ≡ are_two_that_fit (filter (is_at place.now) records.now) }
{
    match two_at(records, twins, place) {
        Some((first, second)) => fits(&records[first], &records[second]),
        None => false,
    }
}

/// The TLID of a type 2 record that doesn't stand twice, with equal pairs.
fn apart_of(records: &[Record], twins: &BTreeMap<Place, Twins>, told: &Record) -> Option<u64>
    requires { AreAllTwins records.now twins.now }
    ensures { result ≡ apart_of records.now told.now }
{
    match told {
        Record::Shape { tlid, rtsq, .. } => {
            let place = Place {
                tlid: *tlid,
                kind: PAIRS,
                rtsq: *rtsq,
            };
            if are_two(records, twins, &place) {
                None
            } else {
                Some(*tlid)
            }
        }
        _ => None,
    }
}

/// The TLIDs of all type 2 records that don't stand twice, with equal pairs.
fn shapes_apart(
    alloc: Global,
    records: &[Record],
    twins: &BTreeMap<Place, Twins>,
) -> Result<BTreeSet<u64>, AllocError>
    requires { AreAllTwins records.now twins.now }
    ensures { IfOk result (AreApart records.now records.now) }
{
    let mut apart = BTreeSet::new(alloc);
    for told in records {
        if let Some(tlid) = apart_of(records, twins, told) {
            apart.insert(tlid)?;
        }
    }
    Ok(apart)
}

/// Is this TLID told twice?
fn is_told_twice(
    records: &[Record],
    twins: &BTreeMap<Place, Twins>,
    apart: &BTreeSet<u64>,
    tlid: u64,
) -> bool
    requires twins { AreAllTwins records.now twins.now }
    requires apart { AreApart records.now records.now apart.now }
    ensures { result ≡ is_told_twice records.now tlid }
{
    let ends = Place {
        tlid,
        kind: ENDS,
        rtsq: 0,
    };
    let sides = Place {
        tlid,
        kind: SIDES,
        rtsq: 0,
    };
    if !are_two(records, twins, &ends) {
        return false;
    }
    if !are_two(records, twins, &sides) {
        return false;
    }
    !apart.contains(&tlid)
}

/// What stands in the place of the record at this place of the list.
fn joined_one(
    records: &[Record],
    twins: &BTreeMap<Place, Twins>,
    apart: &BTreeSet<u64>,
    at: usize,
) -> Option<Record>
    requires twins { AreAllTwins records.now twins.now }
    requires apart { AreApart records.now records.now apart.now }
    requires within { at < length records.now }
    ensures { (r : Record) → slice_get records.now at ≡ Some r →
        result ≡ joined_one records.now r (drop (at + 1) records.now) }
{
    let told = &records[at];
    let Some(place) = place_of(told) else {
        return Some(*told);
    };
    if !is_told_twice(records, twins, apart, place.tlid) {
        return Some(*told);
    }
    match two_at(records, twins, &place) {
        Some((first, second)) => {
            if second == at {
                Some(one_of_two(&records[first], told))
            } else {
                None
            }
        }
        None => Some(*told),
    }
}

/// The records, with each chain that is told twice once.
fn join_records(
    alloc: Global,
    records: &[Record],
    twins: &BTreeMap<Place, Twins>,
) -> Result<Vec<Record>, AllocError>
    requires { AreAllTwins records.now twins.now }
    ensures { IfOk result (λ joined. joined.items ≡ joined_records records.now) }
{
    let apart = shapes_apart(alloc, records, twins)?;
    let mut joined = Vec::new(alloc);
    for at in 0..records.len() {
        if let Some(left) = joined_one(records, twins, &apart, at) {
            joined.push(left)?;
        }
    }
    Ok(joined)
}

impl ToldRecords {
    ghost use Rattle.tl_map.specs.Joined.Told.{HasTold};

    /// All records in their order, with each chain that is told twice once. An error says that memory was refused.
    pub fn join(self, alloc: Global) -> Result<Vec<Record>, AllocError>
        // It has kept some records.
        requires { (rs : List Record) × HasTold rs self }
        ensures { (rs : List Record) → HasTold rs self → IfOk result (λ joined. joined.items ≡ joined_records rs) }
    {
        let ToldRecords { records, twins } = self;
        join_records(alloc, &records, &twins)
    }
}
