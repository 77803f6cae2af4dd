//! Flanks of which near sides and far ones of one polygon cancel.
ghost use Rattle.std.specs.Prelude.{◌≡◌, ◌+◌, [], ℕ, Bool, if◌then◌else◌, All, OnOk, length, count_by};
ghost use Rattle.tl_map_county.specs.Sides.{IsSideAmong};
ghost use Rattle.tl_check_inside.specs.declared.flanks.Flanks.{Flanks as TheFlanks};
ghost use Rattle.tl_check_inside.specs.Keeping.Tallies.{AreClear, AreTallies};
ghost use Rattle.tl_check_points.specs.Keeping.Balances.{AreAmong, HaveOneBalance};
ghost use Rattle.tl_check_points.specs.Keeping.Short.{IsSettled};

use std::alloc::AllocError;
use std::mem;
use tl_check_inside::{Flanks, tally};
use tl_map_county::Side;

/// Cancels what is near and far, by counts of each polygon that are all 0 and are left so. The error is that memory was refused.
pub fn shorten(
    journal: &mut Vec<Flanks>,
    short: &mut Vec<Flanks>,
    near: &mut [u64],
    far: &mut [u64],
) -> Result<(), AllocError>
    requires among { All (AreAmong (length near.old)) journal.old.items }
    requires clear { AreClear (length near.old) near.old far.old }
    ensures one { OnOk result (HaveOneBalance journal.new.items journal.old.items) }
    ensures among { OnOk result (All (AreAmong (length near.old)) journal.new.items) }
    ensures clear { OnOk result (AreClear (length near.old) near.new far.new) }
{
    short.clear();
    tally(journal, near, far);
    settle_all(journal, short, near, far)?;
    mem::swap(journal, short);
    Ok(())
}

/// Lists what is left of counted flanks, where nothing is listed yet, and takes their counts back.
fn settle_all(
    journal: &[Flanks],
    short: &mut Vec<Flanks>,
    near: &mut [u64],
    far: &mut [u64],
) -> Result<(), AllocError>
    requires among { All (AreAmong (length near.old)) journal.now }
    requires none { short.old.items ≡ [] }
    requires alike { length far.old ≡ length near.old }
    requires tallies { AreTallies journal.now near.old far.old }
    ensures one { OnOk result (HaveOneBalance short.new.items journal.now) }
    ensures among { OnOk result (All (AreAmong (length near.old)) short.new.items) }
    ensures clear { OnOk result (AreClear (length near.old) near.new far.new) }
{
    for place in 0..journal.len() {
        let flanks = journal[place];
        settle(flanks.near, short, near, far)?;
        settle(flanks.far, short, near, far)?;
    }
    Ok(())
}

/// Lists how much more often a polygon is near than far, or far than near, and takes both counts back.
fn settle(
    side: Side,
    short: &mut Vec<Flanks>,
    near: &mut [u64],
    far: &mut [u64],
) -> Result<(), AllocError>
    requires among { IsSideAmong (length near.old) side }
    requires alike { length far.old ≡ length near.old }
    ensures nears { length near.new ≡ length near.old }
    ensures fars { length far.new ≡ length far.old }
    ensures settled { OnOk result (IsSettled side short.old.items short.new.items near.old near.new far.old far.new) }
    ensures among { OnOk result (All (AreAmong (length near.old)) short.old.items → All (AreAmong (length near.old)) short.new.items) }
{
    let Side::Polygon(polygon) = side else {
        return Ok(());
    };
    let polygon = polygon as usize;
    let (come, gone) = (near[polygon], far[polygon]);
    near[polygon] = 0;
    far[polygon] = 0;
    if come > gone {
        let flanks = Flanks {
            near: side,
            far: Side::Outside,
        };
        push_times(short, flanks, come - gone)
    } else {
        let flanks = Flanks {
            near: Side::Outside,
            far: side,
        };
        push_times(short, flanks, gone - come)
    }
}

/// Lists flanks so many times.
fn push_times(short: &mut Vec<Flanks>, flanks: Flanks, times: u64) -> Result<(), AllocError>
    ensures counted { OnOk result ((P : TheFlanks → Bool) →
        count_by P short.new.items ≡ count_by P short.old.items + (if P flanks then times else 0)) }
    ensures among { OnOk result ((n : ℕ) → AreAmong n flanks → All (AreAmong n) short.old.items → All (AreAmong n) short.new.items) }
{
    for time in 0..times {
        short.push(flanks)?;
    }
    Ok(())
}
