//! The files of the system: [`SystemFiles`], which the program's `main` makes.
//!
//! What stands under a name of the system's own no contract knows. What is made of the bytes and the errors that a system's calls answer is
//! generic ([`ShownReader`], [`NewFile`], [`room_of`]), and proved where these are known, as of the files of `tigertopo_memory_files`.
#![tactic(auto)]

mod front;
mod looking;
mod new_file;
mod noted;
mod place;
mod progress;
mod reading;
mod stops;
mod system;

pub use looking::{Lookup, Seen, Spot, Standing, name_beside, room_of, stands_under};
pub use new_file::{NewBytes, NewFile, Place};
pub use place::SystemPlace;
pub use reading::ShownReader;
pub use system::SystemFiles;
