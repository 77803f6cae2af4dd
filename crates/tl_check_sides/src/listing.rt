//! All places where what a map says of its nodes disagrees: what lies on both sides of the chains about them, and their
//! zero-cell ids; and the polygons that such sides name.

mod cells;
mod groups;
pub mod laws;
mod listed;
mod sides;
mod starts;
mod touched;

pub use cells::all_cells_at_odds;
pub use listed::sort_once;
pub use sides::all_disagreements;
pub use touched::touched_polygons;
