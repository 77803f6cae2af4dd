//! Where a line lies: in which of the files that are read as one text, in which of its lines, in which of its columns, and at which place
//! of the map.
//!
//! [`place_of`] gives the file and the line of a line of all files as one text, and [`columns_of`] says which columns a field has.

mod columns;
mod degrees;
mod field_columns;
mod lines;
mod place;

pub use columns::columns_of;
pub use degrees::{is_in_reach, print_degrees, print_location};
pub use field_columns::FieldColumns;
pub(crate) use lines::{BLOCK, Found, find_ahead, pass_line, show_line};
pub use place::{TextLine, place_of};
