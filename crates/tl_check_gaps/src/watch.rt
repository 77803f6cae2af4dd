//! What a sweep watches of the gaps whose facing sides differ.
ghost use Rattle.std.specs.Prelude.{◌≡◌, ◌⊎◌, ◌↔◌, ◌++◌, [], List, ℕ, Some, false, IsTrue, IfOk, slice_get};
ghost use Rattle.tl_check_planar.specs.ByHeight.Heights.{widest};
ghost use Rattle.tl_check_planar.specs.Planar.{IsPlanar};
ghost use Rattle.tl_check_faces.specs.Lists.{AreAllNear};
ghost use Rattle.tl_check_active.specs.Blocks.Lined.{last_of};
ghost use Rattle.tl_check_gaps.specs.Keeping.Facing.{IsCounted};
ghost use Rattle.tl_check_gaps.specs.Keeping.Passing.{HasLooked};
ghost use Rattle.tl_check_gaps.specs.Keeping.Watched.{IsOpen, IsWatchedToEnd, AreTrueGaps};

use crate::kept::lowest_of_each;
use crate::telling::push_about;
use std::alloc::{AllocError, Global};
use tl_check_faces::OddGap;
use tl_geom::Point;
use tl_map_county::Map;

/// Which of the gaps are told whose facing sides differ.
#[derive(Clone, Copy, PartialEq, Eq)]
pub enum Gaps {
    /// Those about the first vertex that the sweep comes to where there are such.
    First,
    /// All.
    All,
}

/// Which gaps are asked for, and those that are told.
#[derive(Drop)]
pub struct Watch {
    pub asked: Gaps,
    pub told: Vec<OddGap>,
}

impl Watch {
    /// None is told yet.
    pub fn new(alloc: Global, asked: Gaps) -> Watch
        ensures asked { result.asked ≡ asked }
        ensures none { result.told.items ≡ [] }
    {
        Watch {
            asked,
            told: Vec::new(alloc),
        }
    }

    /// Whether gaps are to be told where sides differ so often along the list.
    #[inline]
    pub fn looks(&self, gaps: Option<u64>) -> bool
        ensures some { IsTrue result → ¬ (gaps ≡ Some 0) }
        ensures still { IsTrue result → IsOpen self.now }
        ensures none { result ≡ false → (gaps ≡ Some 0) ⊎ ¬ IsOpen self.now }
    {
        gaps != Some(0) && self.is_open()
    }

    /// Whether gaps are still told.
    fn is_open(&self) -> bool
        ensures { IsTrue result ↔ IsOpen self.now }
    {
        match self.asked {
            Gaps::All => true,
            Gaps::First => self.told.is_empty(),
        }
    }

    /// Tells of the gaps about the segments that came in at a vertex, where sides differ so often along the list and gaps are to be told.
    /// The error is that memory was refused.
    pub fn look_about(
        &mut self,
        map: &Map,
        p: Point,
        front: Option<u32>,
        ins: &[u32],
        back: Option<u32>,
        gaps: Option<u64>,
    ) -> Result<(), AllocError>
        ensures { IfOk result (λ done. (west outs east : List ℕ) → front ≡ last_of west → back ≡ slice_get east 0 →
            IsCounted map.now.chains gaps ((west ++ ins.now) ++ east) →
            HasLooked map.now.chains p (west ++ (outs ++ east)) ((west ++ ins.now) ++ east) gaps self.old self.new) }
    {
        if self.looks(gaps) {
            push_about(map, p, front, ins, back, &mut self.told)?;
        }
        Ok(())
    }

    /// What is told of gaps behind the last vertex.
    pub fn into_gaps(self, alloc: Global, map: &Map) -> Result<Vec<OddGap>, AllocError>
        requires near { AreAllNear widest map.now.chains }
        requires planar { IsPlanar map.now.chains }
        requires watched { IsWatchedToEnd map.now.chains self }
        ensures { IfOk result (λ gaps. AreTrueGaps map.now.chains self.asked gaps.items) }
    {
        let Watch { asked, told } = self;
        match asked {
            Gaps::First => Ok(told),
            Gaps::All => lowest_of_each(alloc, told),
        }
    }
}
