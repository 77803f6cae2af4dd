//! Files by their names: what a command opens, and what it makes.
//!
//! A [`FileSystem`] lends the files of names to a [`Reading`], counts their lines where that is asked ([`Reply`]), tells whether a file may
//! be made of a name, and lets a new file take one when it is whole: [`make_file`] makes one of a text. Its contract says what stands under
//! each name before and after, where that is known, and what was done. [`JoinedSources`] reads several files as one text, and [`Buffered`]
//! many bytes at a time; [`LineCount`] counts lines of bytes that are read, and [`with_printed`] prints a text into memory.
//! `tigertopo_system_files` has the files of the system, of which neither is known, and `tigertopo_memory_files` has files of which both are.
#![tactic(auto)]

mod beginning;
mod buffered;
mod counting;
mod file_system;
mod joined;
mod lending;
mod making;
mod names;
mod opening;
mod printed;

pub use beginning::{FRONT, FileKind, first_bytes, may_be_left, may_go};
pub use buffered::Buffered;
pub use counting::{LineCount, leaves_open};
pub use file_system::{Draft, FileSystem, Room};
pub use joined::{JoinedSources, Texts};
pub use lending::{Reading, Reply, read_each, read_each_again};
pub use making::make_file;
pub use names::all_names;
pub use opening::Opener;
pub use printed::with_printed;
