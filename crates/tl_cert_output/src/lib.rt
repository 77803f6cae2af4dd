//! Text on its way out, and why nothing comes of a call.
//!
//! What is printed is added to a [`Page`], which a [`Printer`] is on its way to a sink: it puts bytes together before they are written. A
//! [`Text`] is printed by whoever it is handed to. Each call says exactly which bytes were added or written, and an error comes exactly
//! where a write failed. No buffer bounds what is printed. [`Stop`] is what all that stands above answers where nothing is decided, made
//! or printed.
#![tactic(auto)]

mod output;
mod page;
mod printer;
mod refusals;
mod stop;
mod text;

pub use output::write_all;
pub use page::Page;
pub use printer::Printer;
pub use refusals::{print_cause, print_field, print_refusal};
pub use stop::Stop;
pub use text::{Bytes, Text};
