//! Chains that two counties tell are one.
//!
//! Counties that are given together tell a chain of their common border twice, each with its own polygon on its side and a blank on the
//! other. [`ToldRecords`] keeps records in their order and, beside them, where each tells the same of the same chain as another does;
//! [`ToldRecords::join`] gives all records with each chain that is told twice once.

mod fits;
mod join;
mod place;
mod told;

pub use told::ToldRecords;
