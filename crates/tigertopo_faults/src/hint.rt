//! Hints: what helps a person who reads that a line is refused or that a device failed, or an answer to files without chains.
//!
//! [`say_hint`] reads the files again that can be, and says in which of them the line stands, in which of its lines and
//! columns, and what it holds there, whether other columns would take it, and what the file is if it is none of records; or
//! which file can't be read, and why. [`say_unread`] says what files are that hold no type 1 record.

mod advice;
mod asking;
mod form;
mod holding;
mod object;
mod placed;
mod refused;
mod shown;
mod tell;
mod unread;

pub use asking::Asking;
pub use form::RefusedForm;
pub use placed::{RefusedLines, print_refusals};
pub use tell::{TroubleLine, say_hint};
pub use unread::say_unread;
