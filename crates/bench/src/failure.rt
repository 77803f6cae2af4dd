//! What ends the program early.

/// What ends the program early.
#[derive(Clone, Copy)]
pub enum Failure {
    /// Other words than those that a command takes.
    Usage,
    /// A word is no text, or memory was refused while words were read.
    Words,
    /// Memory was refused.
    Memory,
    /// A file isn't opened or made.
    File,
    /// A write failed.
    Written,
    /// A line of the records is refused, or a read failed.
    Records,
    /// No certificate is read or made.
    Certificate,
    /// A tree doesn't fit its items, or two of them conflict.
    Tree,
}

impl Failure {
    /// What is told of it.
    pub fn text(self) -> &'static str {
        match self {
            Failure::Usage => {
                "usage: bench records FILES.. | tree SEGMENTS | cert make CHAINS FILE | cert read|parts FILE"
            }
            Failure::Words => "a word is no text, or memory was refused",
            Failure::Memory => "memory was refused",
            Failure::File => "a file isn't opened or made",
            Failure::Written => "a write failed",
            Failure::Records => "no records are read",
            Failure::Certificate => "no certificate is read or made",
            Failure::Tree => "the tree doesn't fit, or two of its items conflict",
        }
    }
}
