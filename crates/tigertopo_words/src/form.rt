//! In which form an audit tells what is wrong.

/// How each fault is told, and each refused line.
#[derive(Clone, Copy)]
pub enum Form {
    /// As a line.
    Lines,
    /// As a line, and a line for each record that a fault speaks of, or for where a refused line stands.
    Records,
    /// As an object of JSON on a line of its own, with these records. How many there are is told as an object too.
    Objects,
}
