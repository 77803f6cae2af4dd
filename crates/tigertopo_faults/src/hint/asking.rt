//! Who is told what helps.

use tl_record::Options;

/// Who asks: the words that were given, the command's name first, and how it reads records.
#[derive(Clone, Copy)]
pub struct Asking<'a> {
    pub words: &'a [String],
    pub options: Options,
}
