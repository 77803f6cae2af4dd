//! In which form refused lines are told.

/// How each refused line is told, with where it stands.
#[derive(Clone, Copy)]
pub enum RefusedForm {
    /// As a line, and a line for where it stands.
    Lines,
    /// As an object of JSON on a line of its own.
    Objects,
    /// As a feature of GeoJSON, with a comma before the line feed that it stands behind.
    Features,
}
