//! What the words of the command line ask for: a [`Command`], which [`words::command`] makes of them by `clap`'s reading. Which
//! commands there are, with their arguments and their help, is one table (`table`).
//! And what is spelt in one way wherever it stands: the bytes of strings of JSON ([`json_byte`]), points as words (`specs/Points`), and the
//! layers of a map ([`Layer`]). How names of files and words that are typed are shown is said here, too (`specs/Names`, `specs/Shell`).
#![tactic(auto)]

mod arguments;
mod asked;
mod asking;
mod budget;
mod cenid;
mod command_line;
mod degrees;
mod first_word;
mod form;
mod help;
mod json;
mod layer;
mod placeholder;
mod point;
mod refusal;
mod stop;
mod table;
mod view;
pub mod words;

pub use asked::{Asked, Command, View};
pub use budget::Told;
pub use form::Form;
pub use json::{byte_character, hex_digit, json_byte};
pub use layer::Layer;
pub use stop::WordsStop;
