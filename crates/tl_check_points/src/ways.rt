//! From gap to gap in the tree of gaps.
ghost use Rattle.std.specs.Prelude.{◌≡◌, All, List, IfOk, length};
ghost use Rattle.tl_check_inside.specs.declared.flanks.Flanks.{Flanks as TheFlanks};
ghost use Rattle.tl_check_points.specs.Keeping.Balances.{AreAmong};
ghost use Rattle.tl_check_points.specs.Keeping.Ways.{IsWay, TellGap};

use crate::labels::Gap;
use std::alloc::AllocError;
use tl_check_inside::Flanks;
use tl_map_county::Map;

/// The same segment, gone through the other way.
fn turned(flanks: Flanks) -> Flanks
    ensures near { result.near ≡ flanks.far }
    ensures far { result.far ≡ flanks.near }
{
    Flanks {
        near: flanks.far,
        far: flanks.near,
    }
}

/// Goes from one gap to another with flanks that tell what stands east of it: those on the way from the one up to where both ways meet
/// are taken back, and those on the way from the other are added. The error is that memory was refused.
pub fn go(
    map: &Map,
    gaps: &[Gap],
    journal: &mut Vec<Flanks>,
    from: u32,
    to: u32,
) -> Result<(), AllocError>
    requires told { TellGap (length map.now.polygons) gaps.now from journal.old.items }
    requires known { (way : List TheFlanks) × IsWay (length map.now.polygons) gaps.now to way }
    requires among { All (AreAmong (length map.now.polygons)) journal.old.items }
    ensures told { IfOk result (λ done. TellGap (length map.now.polygons) gaps.now to journal.new.items) }
    ensures among { IfOk result (λ done. All (AreAmong (length map.now.polygons)) journal.new.items) }
{
    let (mut one, mut other) = (from, to);
    while one != other {
        if one > other {
            let gap = gaps[one as usize];
            journal.push(turned(gap.flanks))?;
            one = gap.parent;
        } else {
            let gap = gaps[other as usize];
            journal.push(gap.flanks)?;
            other = gap.parent;
        }
    }
    Ok(())
}
