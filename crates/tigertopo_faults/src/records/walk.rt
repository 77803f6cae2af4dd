//! The segments of a chain, as its points are gone through.

ghost use Rattle.std.specs.Prelude.{◌≡◌, IfOk};
ghost use Rattle.tigertopo_faults.specs.Records.Ends.{segments_held};

use crate::records::line::{Part, RecordLine};
use crate::records::telling::told;
use std::alloc::{AllocError, Global};
use tl_geom::Point;
use tl_record::{PAIRS, Record};

/// A point of a chain, and where it is held.
#[derive(Clone, Copy)]
pub struct HeldPoint {
    /// The place of its record among those of the chain, counted from 0.
    pub place: usize,
    pub part: Part,
    pub point: Point,
}

/// A segment of a chain, by its ends.
#[derive(Clone, Copy)]
pub struct HeldSegment {
    pub from: HeldPoint,
    pub to: HeldPoint,
}

// The last number that a type 2 record may have: its RTSQ has three digits.
const LAST_NUMBER: usize = 999;

/// The segments of the chain that these records of types 1 and 2 draw, from its start to its end, as one county tells it.
pub(crate) fn held_segments(
    alloc: Global,
    lines: &[RecordLine],
    telling: usize,
) -> Result<Vec<HeldSegment>, AllocError>
    ensures { IfOk result (λ segments. segments.items ≡ segments_held telling lines.now) }
{
    let mut walk = Walk {
        before: None,
        segments: Vec::new(alloc),
    };
    let chain = told(lines, telling, None);
    walk.pass_start(chain)?;
    walk.pass_pairs(lines, telling)?;
    walk.pass_end(chain)?;
    Ok(walk.segments)
}

// A walk along a chain, from its start.
#[derive(Drop)]
struct Walk {
    // The point where it is.
    before: Option<HeldPoint>,
    // The segments behind it.
    segments: Vec<HeldSegment>,
}

impl Walk {
    ghost use Rattle.std.specs.Prelude.{◌≡◌, ◌++◌, ◌∷◌, List, OnOk, length, min};
    ghost use Rattle.tigertopo_faults.specs.declared.records.walk.HeldPoint.{HeldPoint as HeldPointOf};
    ghost use Rattle.tigertopo_faults.specs.Records.Ends.{held_in, told, start_in, pair_held, pairs_held, pairs_in, pairs_from, end_in};
    ghost use Rattle.tigertopo_faults.specs.Records.Walking.{going};

    // Goes on to a point.
    fn pass(&mut self, point: HeldPoint) -> Result<(), AllocError>
        ensures { OnOk result ((rest : List HeldPointOf) → going self.new rest ≡ going self.old (point ∷ rest)) }
    {
        if let Some(before) = self.before {
            if before.point != point.point {
                self.segments.push(HeldSegment {
                    from: before,
                    to: point,
                })?;
            }
        }
        self.before = Some(point);
        Ok(())
    }

    // Goes on to where a record has its chain start, if there is one of type 1.
    fn pass_start(&mut self, chain: Option<(usize, Record)>) -> Result<(), AllocError>
        ensures { OnOk result ((rest : List HeldPointOf) → going self.new rest ≡ going self.old (held_in start_in chain ++ rest)) }
    {
        if let Some((place, Record::Chain { from, .. })) = chain {
            self.pass(HeldPoint {
                place,
                part: Part::Start,
                point: from,
            })?;
        }
        Ok(())
    }

    // Goes on along all pairs that a county tells, by rising RTSQ.
    fn pass_pairs(&mut self, lines: &[RecordLine], telling: usize) -> Result<(), AllocError>
        ensures { OnOk result ((rest : List HeldPointOf) → going self.new rest
            ≡ going self.old (pairs_from telling lines.now (min (length lines.now) 999) 1 ++ rest)) }
    {
        for number in 0..lines.len().min(LAST_NUMBER) {
            self.pass_pairs_in(told(lines, telling, Some(number + 1)))?;
        }
        Ok(())
    }

    // Goes on along the pairs of a record, if there is one of type 2.
    fn pass_pairs_in(&mut self, shape: Option<(usize, Record)>) -> Result<(), AllocError>
        ensures { OnOk result ((rest : List HeldPointOf) → going self.new rest ≡ going self.old (held_in pairs_in shape ++ rest)) }
    {
        if let Some((place, Record::Shape { pairs, .. })) = &shape {
            self.pass_each(*place, pairs)?;
        }
        Ok(())
    }

    // Goes on along the pairs of a record.
    fn pass_each(&mut self, place: usize, pairs: &[Option<Point>; PAIRS]) -> Result<(), AllocError>
        ensures { OnOk result ((rest : List HeldPointOf) → going self.new rest ≡ going self.old (pairs_held place 1 pairs.now ++ rest)) }
    {
        for pair in 0..PAIRS {
            self.pass_pair(place, pair as u8 + 1, pairs[pair])?;
        }
        Ok(())
    }

    // Goes on to a pair, if it is used.
    fn pass_pair(&mut self, place: usize, number: u8, pair: Option<Point>) -> Result<(), AllocError>
        ensures { OnOk result ((rest : List HeldPointOf) → going self.new rest ≡ going self.old (pair_held place number pair ++ rest)) }
    {
        if let Some(point) = pair {
            self.pass(HeldPoint {
                place,
                part: Part::Pair(number),
                point,
            })?;
        }
        Ok(())
    }

    // Goes on to where a record has its chain end, if there is one of type 1.
    fn pass_end(&mut self, chain: Option<(usize, Record)>) -> Result<(), AllocError>
        ensures { OnOk result ((rest : List HeldPointOf) → going self.new rest ≡ going self.old (held_in end_in chain ++ rest)) }
    {
        if let Some((place, Record::Chain { to, .. })) = chain {
            self.pass(HeldPoint {
                place,
                part: Part::End,
                point: to,
            })?;
        }
        Ok(())
    }
}
