//! Exact plane geometry in whole numbers: how segments meet, which way directions turn, what a ray crosses and what a
//! rectangle holds.
//!
//! Points have whole coordinates; the records of a county give them in millionths of a degree, `x` to the east and `y`
//! to the north. Every call answers for all `i32` coordinates. Nothing here rounds, allocates or fails.
//!
//! The types have invariants of their own: a [`Segment`] has two different ends, the step of a [`Direction`] isn't 0
//! both ways, and a [`Rational`] has a denominator above 0. These and [`Contact`] compare by their fields, so two ways
//! to write one rational point, or two steps of one direction, are not `==`. What [`Rect::join`] gives for an empty
//! rectangle is left open, beyond that it holds both.
#![tactic(auto)]

mod common_end;
mod difference;
mod direction;
pub mod laws;
mod lowest;
mod meeting;
mod orientation;
mod point;
mod rational;
mod ray;
mod rect;
mod rect8;
mod round;
mod segment;
mod shared;

pub use direction::Direction;
pub use meeting::{contact, overlap};
pub use orientation::{on, turn};
pub use point::Point;
pub use rational::Rational;
pub use ray::crosses_ray;
pub use rect::Rect;
pub use rect8::Rect8;
pub use round::round_cmp;
pub use segment::Segment;
pub use shared::Contact;
