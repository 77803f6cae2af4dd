//! Worked examples of exact geometry, with answers from outside.

mod examples;
