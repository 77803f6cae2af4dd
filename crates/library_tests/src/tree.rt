//! Tests of the search and of packed trees, by items that count what they are asked.

mod indexes;
mod items;
mod packed;
