//! The answer where all that is wrong with a county is asked for, and how it is printed.
//!
//! A [`Listing`] says that the county is sound, or has all its faults or all its lines that are refused. [`print_listing`] and what
//! prints a part of one say exactly what they add to a page, piece by piece, so no line is bounded. [`NotedRecords`] are the records of
//! a county with the numbers of their lines.
//!
//! Printing takes no memory.
#![tactic(auto)]

mod faults;
mod keys;
mod listing;
mod noted;
mod print;

pub use faults::{print_fault, print_fault_words};
pub use keys::{print_cenid, print_key};
pub use listing::Listing;
pub use noted::NotedRecords;
pub use print::{first_of, print_end, print_fault_lines, print_listing};
