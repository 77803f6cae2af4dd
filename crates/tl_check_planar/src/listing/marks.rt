//! Marks of items.
ghost use Rattle.std.specs.Prelude.{◌≡◌, false, slice_index_or};

/// Whether an item is marked. It isn't so of the number of no item.
pub fn is_marked(marks: &[bool], i: u32) -> bool
    ensures { result ≡ slice_index_or marks.now i false }
{
    match marks.get(i as usize) {
        Some(mark) => *mark,
        None => false,
    }
}
