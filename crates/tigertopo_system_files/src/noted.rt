//! Readers of which it is noted whether a line began as a record of type 1 does.

ghost use Rattle.std.specs.Prelude.{◌≡◌};
ghost use Rattle.tigertopo_files.specs.Joining.{leaves_open as leaves_open_by};
ghost use Rattle.tigertopo_system_files.specs.Noting.{begins_chain};

use std::alloc::Global;
use std::cell::Cell;
use std::io;
use std::io::Read;
use std::rc::Rc;
use tigertopo_files::leaves_open;

/// Whether a line of what was read began so.
pub type Note = Rc<Cell<bool>>;

/// That none did so far. None where memory was refused.
pub fn no_chain(alloc: Global) -> Option<Note> {
    Rc::new(alloc, Cell::new(false)).ok()
}

/// A reader, of whose lines that is noted, if there is a note.
#[derive(Drop)]
pub struct NotedReader<T> {
    reader: T,
    note: Option<Note>,
    // Whether bytes were read behind the last line feed.
    is_open: bool,
}

impl<T: Read> NotedReader<T> {
    /// The reader, whose next byte is a line's first.
    pub fn new(reader: T, note: Option<Note>) -> NotedReader<T>
        ensures { ⟦<NotedReader<T> as Read>⟧.remaining result ≡ T.remaining reader }
    {
        NotedReader {
            reader,
            note,
            is_open: false,
        }
    }

    // Notes these bytes, which come next.
    fn note(&mut self, bytes: &[u8])
        ensures reader { self.new.reader ≡ self.old.reader }
        ensures open { self.new.is_open ≡ leaves_open_by self.old.is_open bytes.now }
    {
        if let Some(note) = &self.note {
            if !note.get() && begins_chain(!self.is_open, bytes) {
                note.set(true);
            }
        }
        self.is_open = leaves_open(self.is_open, bytes);
    }
}

impl<T: Read> Read for NotedReader<T> {
    ghost remaining = { λ noted. T.remaining noted.reader };

    fn read(&mut self, buf: &mut [u8]) -> io::Result<usize> {
        let taken = self.reader.read(buf)?;
        self.note(&buf[..taken]);
        Ok(taken)
    }
}

// Does a line begin in these bytes as a record of type 1 does? The first byte is a line's first where `is_first` says so.
fn begins_chain(is_first: bool, bytes: &[u8]) -> bool
    ensures { result ≡ begins_chain is_first bytes.now }
{
    let mut is_next_first = is_first;
    for byte in bytes {
        if is_next_first && *byte == b'1' {
            return true;
        }
        is_next_first = *byte == b'\n';
    }
    false
}
