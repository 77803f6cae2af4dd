//! Certificates of maps: what a stranger says of a map, so that it can be checked.
//!
//! A [`Certificate`] holds a map's counts, a tree of rectangles over its segments, the darts that start at each node in
//! their order round it, and the rings of darts. Its text is defined in `specs/Text`; a [`CertReader`] gives the parts of
//! a text one after the other, as its lines come, and tells the line that no certificate has; [`read_cert`] reads a whole
//! certificate, and [`write_cert`] writes one.
//!
//! The text (docs/certificate.md) is computed for one example in `proofs/MapB`. Tests show, with 64 MB of memory, that
//! a text which announces 4,294,967,295 nodes, rounds, walks or darts and ends is refused at its line
//! (`tests/formats/certificates.py`).
#![tactic(auto)]

mod certificate;
mod collected;
mod front;
pub mod laws;
mod line_kind;
mod lines;
mod next;
mod node_line;
mod number;
mod numbers;
mod parts;
mod place;
mod put;
mod range;
mod read;
mod reader;
mod stop;
mod write;

pub use certificate::{Certificate, Counts};
pub use place::{CertPart, NextPart};
pub use range::look_at_certificate;
pub use read::read_cert;
pub use reader::{CertReader, Standing};
pub use stop::{CertStop, WriteStop};
pub use write::{print_cert, write_cert};
