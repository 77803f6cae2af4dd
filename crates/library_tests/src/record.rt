//! Sources that give few bytes a read or fail at one, sinks that take few bytes a write or fail at one, and what the reader
//! and the output make of them. What the fields of each record mean is played over the built program.

mod output;
mod pieces;
mod reading;
