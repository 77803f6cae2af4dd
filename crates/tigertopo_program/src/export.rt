//! Counties that are exported: their maps as GeoJSON, in a file of its own, whole or not at all.

mod county;

pub use county::export;
