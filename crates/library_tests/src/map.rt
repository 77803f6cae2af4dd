//! Worked examples of maps, whose answers come from the reading rules and not from the program, and reads that give one byte
//! or fail.

mod keys;
mod reading;
mod seen;
