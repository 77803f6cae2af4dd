//! Tests of the libraries, by what is public of them: worked examples, whose answers come from outside, and reads and writes that
//! take little at a time or fail. They stand beside the libraries, so that these are proved once and not once more with their
//! tests.
#![tactic(auto)]

#[cfg(test)]
mod cert;
#[cfg(test)]
mod geom;
#[cfg(test)]
mod map;
#[cfg(test)]
mod record;
#[cfg(test)]
mod tree;
