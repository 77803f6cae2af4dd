//! The lines of a certificate's text, one after the other.

ghost use Rattle.std.specs.Prelude.{◌≡◌, ◌+◌, ◌<◌, ◌≤◌, ◌^◌, [], length, All, IfOk};
ghost use Rattle.tl_cert.specs.Certificates.{IsNumber};
ghost use Rattle.tl_cert.specs.Text.{item_lines, dart_lines};
ghost use Rattle.tl_cert.specs.Keeping.Words.{AreFew, AreFew-prop};

use crate::line_kind::LineKind;
use crate::numbers::{front_darts, front_items};
use crate::stop::CertStop;
use arrayvec::ArrayVec;
use std::alloc::{AllocError, Global};
use tl_record::{Fetched, LineBuffer, Source, fetch_line};

// How many bytes are kept: a line with its line feed has at most 64, so where these hold no line feed, no line of a
// certificate begins them.
const ROOM: usize = 4096;

// How many digits are looked for in the first line of all: half of the darts of a million chains have so many.
const USUAL_DIGITS: usize = 7;

/// Takes lines of a source, which each call is given, and counts them.
#[derive(Drop)]
pub struct Lines {
    buffer: LineBuffer<ROOM>,
    lines: u128,
    // How many digits are looked for first in the line of an item or a dart: as many as the last had.
    digits: usize,
    ghost few_digits: { AreFew digits } by { AreFew-prop digits },
}

impl Lines {
    ghost use Rattle.tl_cert.specs.Keeping.Lines.{at, ReadsLine, TakesFetched, EndsText, TellsRead};

    /// No line taken, and no byte fetched.
    pub fn new() -> Lines
        ensures bytes { result.buffer ≡ [] }
        ensures lines { result.lines ≡ 0 }
    {
        Lines {
            buffer: LineBuffer::new(),
            lines: 0,
            digits: USUAL_DIGITS,
        }
    }

    // The stop where no line follows those that were taken.
    fn refusal(&self) -> CertStop
        requires { self.now.lines < 2 ^ 127 }
        ensures { result ≡ CertStop.Text (self.now.lines + 1) }
    {
        CertStop::Text {
            line: self.lines + 1,
        }
    }

    /// Takes the next line, which has to be of this kind, and gives what it spells.
    #[inline(always)]
    pub fn read<R: Source, K: LineKind>(
        &mut self,
        source: &mut R,
        kind: &K,
    ) -> Result<K::Value, CertStop>
        requires { self.old.lines < 2 ^ 127 }
        ensures reads { ReadsLine R.remaining (K.spelt kind.now) (K.fits kind.now)
            (at self.old source.old) (at self.new source.new) result }
        ensures failures { TellsRead (R.failure_count source.old) (R.failure_count source.new) result }
        ensures same_reference { R.reference source.new ≡ R.reference source.old }
    {
        if let Some((value, len)) = kind.front(self.buffer.bytes()) {
            self.buffer.consume(len + 1);
            self.lines += 1;
            return Ok(value);
        }
        self.read_fetched(source, kind)
    }

    // Takes the next line as soon as it is fetched.
    #[inline(never)]
    fn read_fetched<R: Source, K: LineKind>(
        &mut self,
        source: &mut R,
        kind: &K,
    ) -> Result<K::Value, CertStop>
        requires { self.old.lines < 2 ^ 127 }
        ensures reads { ReadsLine R.remaining (K.spelt kind.now) (K.fits kind.now)
            (at self.old source.old) (at self.new source.new) result }
        ensures failures { TellsRead (R.failure_count source.old) (R.failure_count source.new) result }
        ensures same_reference { R.reference source.new ≡ R.reference source.old }
    {
        match fetch_line(&mut self.buffer, source) {
            Fetched::Whole(len) => match kind.parse(&self.buffer.bytes()[..len]) {
                Some(value) => {
                    self.buffer.consume(len + 1);
                    self.lines += 1;
                    Ok(value)
                }
                None => Err(self.refusal()),
            },
            Fetched::Rest => Err(self.refusal()),
            Fetched::Full => Err(self.refusal()),
            Fetched::Failed => Err(CertStop::Device),
        }
    }

    /// Takes the lines of items that come next and are seen at once, `count` at most, and gives their items.
    #[inline(always)]
    pub fn items_at_once(&mut self, count: u8) -> ArrayVec<u32, 8>
        requires few { count ≤ 8 }
        requires lines { self.old.lines < 2 ^ 127 }
        ensures few { length result.items ≤ count }
        ensures numbers { All IsNumber result.items }
        ensures takes { TakesFetched self.old self.new (item_lines result.items) }
    {
        let (items, len, digits) = front_items(self.buffer.bytes(), count, self.digits);
        self.digits = digits;
        self.buffer.consume(len);
        self.lines += items.len() as u128;
        items
    }

    /// Takes the lines of darts that come next and are seen at once, `count` at most, and gives their darts.
    #[inline(always)]
    pub fn darts_at_once(&mut self, alloc: Global, count: u32) -> Result<Vec<u32>, AllocError>
        requires { self.old.lines < 2 ^ 127 }
        ensures few { IfOk result (λ darts. length darts.items ≤ count) }
        ensures numbers { IfOk result (λ darts. All IsNumber darts.items) }
        ensures takes { IfOk result (λ darts. TakesFetched self.old self.new (dart_lines darts.items)) }
    {
        let (darts, len, digits) = front_darts(alloc, self.buffer.bytes(), count, self.digits)?;
        self.digits = digits;
        self.buffer.consume(len);
        self.lines += darts.len() as u128;
        Ok(darts)
    }

    /// Whether the source is at its end, behind the lines that were taken: a byte that is left is refused.
    pub fn end<R: Source>(&mut self, source: &mut R) -> Result<(), CertStop>
        requires { self.old.lines < 2 ^ 127 }
        ensures ends { EndsText R.remaining (at self.old source.old) (at self.new source.new) result }
        ensures failures { TellsRead (R.failure_count source.old) (R.failure_count source.new) result }
        ensures same_reference { R.reference source.new ≡ R.reference source.old }
    {
        if !self.buffer.bytes().is_empty() {
            return Err(self.refusal());
        }
        match self.buffer.fetch(source) {
            Ok(0) => Ok(()),
            Ok(_) => Err(self.refusal()),
            Err(_) => Err(CertStop::Device),
        }
    }
}
