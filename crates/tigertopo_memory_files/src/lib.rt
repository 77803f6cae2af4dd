//! Files in memory, for tests and for who has no other: a [`FileSystem`](tigertopo_files::FileSystem) that knows its bytes.
#![tactic(auto)]

mod in_memory;

pub use in_memory::{Draft, FilesInMemory, Held};
