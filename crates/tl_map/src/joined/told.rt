//! Records in their order, and where two of them tell the same of the same chain.

ghost use Rattle.std.specs.Prelude.{◌≡◌, ◌∷◌, [], ◌++◌, List, OnOk, MatchOption, false, filter, length};
ghost use Rattle.tl_record.specs.declared.record.Record.{Record};
ghost use Rattle.tl_map.specs.Joined.Keeping.Told.{one_more, two_of, StandsTwice, AreAllTwins};
ghost use Rattle.tl_map.specs.Joined.Keeping.Places.{is_at};
ghost use Rattle.tl_record.specs.Joining.{are_two_that_fit};

use crate::joined::place::{Place, place_of};
use std::alloc::{AllocError, Global};
use std::collections::BTreeMap;
use tl_record::Record;

/// The places, in the list of records, of those that tell the same of the same chain.
#[derive(Clone, Copy)]
pub enum Twins {
    One(usize),
    Two(usize, usize),
    More,
}

/// Records in their order, until all of them are told.
#[derive(Drop)]
pub struct ToldRecords {
    pub(crate) records: Vec<Record>,
    pub(crate) twins: BTreeMap<Place, Twins>,
}

/// Where one more stands at this place of the list.
fn one_more(twins: Option<Twins>, at: usize) -> Twins
    ensures { result ≡ one_more twins at }
{
    match twins {
        None => Twins::One(at),
        Some(Twins::One(first)) => Twins::Two(first, at),
        Some(Twins::Two(_, _)) | Some(Twins::More) => Twins::More,
    }
}

/// The places of two, where there are two.
fn two_of(twins: Option<Twins>) -> Option<(usize, usize)>
    ensures { result ≡ two_of twins }
{
    match twins {
        Some(Twins::Two(first, second)) => Some((first, second)),
        None | Some(Twins::One(_)) | Some(Twins::More) => None,
    }
}

/// The places of those that tell this, where there are two.
pub fn two_at(
    records: &[Record],
    twins: &BTreeMap<Place, Twins>,
    place: &Place,
) -> Option<(usize, usize)>
    requires { AreAllTwins records.now twins.now }
    ensures { MatchOption result (are_two_that_fit (filter (is_at place.now) records.now) ≡ false)
        (λ two. StandsTwice records.now place.now two.0 two.1) }
{
    let _records = records;
    two_of(twins.get(place).copied())
}

/// Notes at its key where a record stands, the next of the list.
fn note(twins: &mut BTreeMap<Place, Twins>, next: &Record, at: usize) -> Result<(), AllocError>
    ensures { (rs : List Record) → at ≡ length rs → AreAllTwins rs twins.old →
        OnOk result (AreAllTwins (rs ++ next.now ∷ []) twins.new) }
{
    if let Some(place) = place_of(next) {
        let more = one_more(twins.get(&place).copied(), at);
        twins.insert(place, more)?;
    }
    Ok(())
}

impl ToldRecords {
    ghost use Rattle.tl_map.specs.Joined.Told.{HasTold};

    /// No record.
    pub fn new(alloc: Global) -> ToldRecords
        ensures { HasTold [] result }
    {
        ToldRecords {
            records: Vec::new(alloc),
            twins: BTreeMap::new(alloc),
        }
    }

    /// Keeps one more record. An error says that memory was refused.
    pub fn add(&mut self, next: &Record) -> Result<(), AllocError>
        ensures { (rs : List Record) → HasTold rs self.old → OnOk result (HasTold (rs ++ next.now ∷ []) self.new) }
    {
        note(&mut self.twins, next, self.records.len())?;
        self.records.push(*next)?;
        Ok(())
    }
}
