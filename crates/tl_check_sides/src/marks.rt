//! Marks of darts.

ghost use Rattle.std.specs.Prelude.{◌≡◌, ℕ, ◌<◌, ◌≤◌, ◌^◌, List, length, OnOk, IfErr, IsNone, IfSome};
ghost use Rattle.tl_tree_index.specs.Keeping.Marked.{mark_at};
ghost use Rattle.tl_check_sides.specs.Keeping.Marked.{marked_count, AddMarks, IsMarkFault};

/// Why a list of darts can't be marked.
#[derive(Clone, Copy)]
pub enum MarkFault {
    /// There is no such dart.
    Unknown(u32),
    /// The dart was marked before, or stands in the list twice.
    Twice(u32),
}

/// Marks some darts, none of which may be marked already.
pub fn mark_darts(marks: &mut [bool], darts: &[u32]) -> Result<(), MarkFault>
    ensures marked { OnOk result (AddMarks marks.old darts.now marks.new) }
    ensures long { length marks.new ≡ length marks.old }
    ensures count { marked_count marks.old ≤ marked_count marks.new }
    ensures fault { IfErr result (IsMarkFault marks.old darts.now) }
{
    for dart in darts {
        let place = *dart as usize;
        if place >= marks.len() {
            return Err(MarkFault::Unknown(*dart));
        }
        if marks[place] {
            return Err(MarkFault::Twice(*dart));
        }
        marks[place] = true;
    }
    Ok(())
}

/// The first dart that isn't marked.
pub fn first_unmarked(marks: &[bool]) -> Option<u32>
    requires { length marks.now < 2 ^ 32 }
    ensures none { IsNone result → (d : ℕ) → d < length marks.now → mark_at marks.now d ≡ 1 }
    ensures some { IfSome result (λ d. (d < length marks.now) × (mark_at marks.now d ≡ 0)) }
{
    for dart in 0..marks.len() as u32 {
        if !marks[dart as usize] {
            return Some(dart);
        }
    }
    None
}
