//! Keeps records until all of them are read.

ghost use Rattle.std.specs.Prelude.{◌≡◌, ◌∷◌, [], ◌++◌, List, OnOk, IfOk, All, map, if◌then◌else◌};
ghost use Rattle.std.specs.List.{filter_map};
ghost use Rattle.tl_geom.specs.declared.point.Point.{Point};
ghost use Rattle.tl_record.specs.declared.record.Record.{Record};
ghost use Rattle.tl_record.specs.declared.record.Record.TheVariants.{Shape};
ghost use Rattle.tl_map_rules.specs.declared.entry.Fill.TheVariants.{Full, Ended, Gap};
ghost use Rattle.tl_map_rules.specs.ChainsOf.{used};
ghost use Rattle.tl_map_rules.specs.Listing.Kept.{shape_at};
ghost use Rattle.tl_map_rules.specs.Listing.Shapes.{fill_of, summary_in, IsInside};
ghost use Rattle.tl_map.specs.Keeping.Entries.{AreShapeEntries};

use std::alloc::{AllocError, Global};
use tl_geom::Point;
use tl_map_county::release;
use tl_map_rules::{ChainEntry, Fill, ShapeEntry};
use tl_record::{PAIRS, Record};

/// The records read so far.
#[derive(Drop)]
pub struct Collected {
    pub chains: Vec<ChainEntry>,
    pub shapes: Vec<ShapeEntry>,
    /// The used points of all shapes.
    pub pool: Vec<Point>,
}

impl Collected {
    ghost use Rattle.std.specs.Prelude.{◌∷◌, [], ◌++◌, List, OnOk};
    ghost use Rattle.tl_record.specs.declared.record.Record.{Record};
    ghost use Rattle.tl_map.specs.Keeping.Collected.{Collects};

    /// No record.
    pub fn new(alloc: Global) -> Collected
        ensures { Collects [] result }
    {
        Collected {
            chains: Vec::new(alloc),
            shapes: Vec::new(alloc),
            pool: Vec::new(alloc),
        }
    }

    /// Keeps one more record.
    #[inline(always)]
    pub fn add(&mut self, next: &Record) -> Result<(), AllocError>
        ensures { (rs : List Record) → Collects rs self.old → OnOk result (Collects (rs ++ next.now ∷ []) self.new) }
    {
        match next {
            Record::Chain { tlid, from, to } => {
                self.chains.push(ChainEntry {
                    tlid: *tlid,
                    from: *from,
                    to: *to,
                })?;
                Ok(())
            }
            Record::Shape { tlid, rtsq, pairs } => {
                add_shape(&mut self.shapes, &mut self.pool, *tlid, *rtsq, pairs)
            }
            // Records of the other types draw no chain.
            Record::Sides { .. }
            | Record::PolyPoint { .. }
            | Record::Landmark { .. }
            | Record::AreaLink { .. } => Ok(()),
        }
    }

    /// Frees the records.
    pub fn release(self) {
        let Collected {
            chains,
            shapes,
            pool,
        } = self;
        release(chains);
        release(shapes);
        release(pool);
    }
}

/// Keeps a type 2 record.
fn add_shape(
    shapes: &mut Vec<ShapeEntry>,
    pool: &mut Vec<Point>,
    tlid: u64,
    rtsq: u16,
    pairs: &[Option<Point>; PAIRS],
) -> Result<(), AllocError>
    ensures entries { (rs : List Record) → AreShapeEntries rs pool.old.items shapes.old.items →
        OnOk result (AreShapeEntries (rs ++ Shape tlid rtsq pairs.now ∷ []) pool.new.items shapes.new.items) }
    ensures summaries { All (IsInside pool.old.items) shapes.old.items →
        OnOk result (map (summary_in pool.new.items) shapes.new.items
        ≡ map (summary_in pool.old.items) shapes.old.items ++ filter_map shape_at (Shape tlid rtsq pairs.now ∷ [])) }
{
    let first = pool.len();
    let fill = append_used(pool, pairs)?;
    let used = (pool.len() - first) as u8;
    shapes.push(ShapeEntry {
        tlid,
        first,
        rtsq,
        used,
        fill,
    })?;
    Ok(())
}

/// Appends the points of the used pairs, and says how the pairs are filled.
fn append_used(pool: &mut Vec<Point>, pairs: &[Option<Point>; PAIRS]) -> Result<Fill, AllocError>
    ensures points { OnOk result (pool.new.items ≡ pool.old.items ++ used pairs.now) }
    ensures fill { IfOk result (λ fill. fill ≡ fill_of pairs.now) }
{
    let mut ended = false;
    let mut gap = false;
    for pair in pairs {
        match pair {
            None => ended = true,
            Some(point) => {
                pool.push(*point)?;
                gap |= ended;
            }
        }
    }
    Ok(fill_from(ended, gap))
}

/// How pairs are filled, by whether one of them is unused, and whether a used one comes after an unused one.
fn fill_from(ended: bool, gap: bool) -> Fill
    ensures { result ≡ (if gap then Gap else (if ended then Ended else Full)) }
{
    if gap {
        Fill::Gap
    } else if ended {
        Fill::Ended
    } else {
        Fill::Full
    }
}
