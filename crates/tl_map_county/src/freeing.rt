//! Frees lists that have been used up.

/// Frees a list at once, cut down to one item before.
///
/// As a whole it would be given back in one large block. From such a block on the system's allocator keeps lists up to its size in one
/// heap, where what is freed between two others stays the program's. Cut down it is given back page by page, and all large lists go on to
/// have pages of their own, which are the system's as soon as they are freed.
pub fn release<T: Drop>(mut items: Vec<T>) {
    items.truncate(1);
    items.shrink_to_fit();
}
