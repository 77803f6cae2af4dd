//! Keeps the records of sides, polygons, landmarks and links until all of them are read.

ghost use Rattle.std.specs.Prelude.{◌≡◌, ◌∷◌, [], ◌++◌, OnOk};

use crate::kept::KeptSides;
use std::alloc::{AllocError, Global};
use tl_map_county::Polygon;
use tl_map_rules::{LandmarkEntry, LinkEntry, SidesEntry};
use tl_record::Record;

/// The type I, P, 7 and 8 records read so far, each in file order.
#[derive(Drop)]
pub struct AreaRecords {
    pub sides: KeptSides,
    pub polygons: Vec<Polygon>,
    pub landmarks: Vec<LandmarkEntry>,
    pub links: Vec<LinkEntry>,
}

impl AreaRecords {
    ghost use Rattle.std.specs.Prelude.{◌∷◌, [], ◌++◌, List, OnOk};
    ghost use Rattle.tl_record.specs.declared.record.Record.{Record};
    ghost use Rattle.tl_map.specs.Keeping.Areas.{KeepsAreas};

    /// No record.
    pub fn new(alloc: Global) -> AreaRecords
        ensures { KeepsAreas [] result }
    {
        AreaRecords {
            sides: KeptSides::new(alloc),
            polygons: Vec::new(alloc),
            landmarks: Vec::new(alloc),
            links: Vec::new(alloc),
        }
    }

    /// Keeps one more record.
    #[inline(always)]
    pub fn add(&mut self, next: &Record) -> Result<(), AllocError>
        ensures { (rs : List Record) → KeepsAreas rs self.old →
            OnOk result (KeepsAreas (rs ++ next.now ∷ []) self.new) }
    {
        match next {
            Record::Sides {
                tlid,
                start_cell,
                end_cell,
                left,
                right,
            } => {
                let entry = SidesEntry {
                    tlid: *tlid,
                    start_cell: *start_cell,
                    end_cell: *end_cell,
                    left: *left,
                    right: *right,
                };
                self.sides.push(entry)
            }
            Record::PolyPoint { key, point } => {
                let polygon = Polygon {
                    key: *key,
                    point: *point,
                };
                append(&mut self.polygons, polygon)
            }
            Record::Landmark { land, point } => {
                let landmark = LandmarkEntry {
                    land: *land,
                    point: *point,
                };
                append(&mut self.landmarks, landmark)
            }
            Record::AreaLink { key, land } => {
                let link = LinkEntry {
                    key: *key,
                    land: *land,
                };
                append(&mut self.links, link)
            }
            // Records of the other types draw chains.
            Record::Chain { .. } | Record::Shape { .. } => Ok(()),
        }
    }
}

/// Appends an item, which is dropped where memory is refused.
fn append<T: Drop>(items: &mut Vec<T>, item: T) -> Result<(), AllocError>
    ensures { OnOk result (items.new.items ≡ items.old.items ++ item ∷ []) }
{
    items.push(item)?;
    Ok(())
}
