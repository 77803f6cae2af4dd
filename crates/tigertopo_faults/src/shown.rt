//! What is shown in one way wherever it stands: names of files, words that are typed, and strings of JSON.

mod json;
mod names;
mod shell;

pub(crate) use json::print_byte_string;
pub(crate) use names::{byte_at, print_escaped, print_name};
pub(crate) use shell::print_shell_word;
