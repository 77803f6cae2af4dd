//! All lines of a text that are refused.
//!
//! A `RecordReader` of `tl_record` stops at the first line that is refused, and its `next_refusal` goes on from there.
//! [`list_refusals`] lists that line and all later ones that are refused, whatever stands between them, and
//! [`refused_lines`] those of a whole text. Both read the text once, and take no memory but the list.

mod list;

pub use list::{list_refusals, refused_lines};
