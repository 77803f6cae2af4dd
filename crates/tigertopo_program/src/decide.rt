//! What is decided of maps, and the certificate that is made of one.
//!
//! [`deciding`] decides whether a map is sound by a certificate, [`auditing`] with none given, and [`building`] makes one of a map that
//! is. [`laws`] says of these that they decide, and that what was built passes.

pub mod auditing;
pub mod building;
pub mod deciding;
pub mod laws;
