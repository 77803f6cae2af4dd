//! Text on its way to a sink.

ghost use Rattle.std.specs.Prelude.{◌≡◌, [], false, IfErr};
ghost use Rattle.tl_cert_output.specs.declared.stop.Stop.TheVariants.{Device};
ghost use Rattle.tl_cert_output.specs.Printing.{Adds, Prints, ended, stands};

use crate::output::write_all;
use crate::page::Page;
use crate::stop::Stop;
use arrayvec::ArrayVec;
use tl_record::Sink;

// How many bytes are put together before they are written.
const CAPACITY: usize = 65_536;

/// A page on its way to a sink. Bytes are put together before they are written, and it takes no memory. Behind a write that failed
/// nothing is written: [`Printer::finish`] tells of it, so that no call before it has to.
#[derive(Drop)]
pub struct Printer<'a, S> {
    out: &'a mut S,
    held: ArrayVec<u8, CAPACITY>,
    failed: bool,
}

impl<'a, S: Sink> Printer<'a, S> {
    /// A page that goes to this sink, and holds nothing.
    pub fn new(out: &'a mut S) -> Printer<'a, S>
        ensures same { result.out.ghost_name ≡ out.entry.ghost_name }
        ensures empty { stands result ≡ (out.old, record { held = []; failed = false }) }
    {
        Printer {
            out,
            held: ArrayVec::new(),
            failed: false,
        }
    }

    /// Writes what is held. The error is that a write failed, here or before.
    pub fn finish(self) -> Result<(), Stop>
        ensures prints { Prints S.contents S.failure_count (stands self.entry) (self.exit.0.now, ended result) [] }
        ensures stop { IfErr result (λ stop. stop ≡ Device) }
    {
        let Printer { out, held, failed } = self;
        if failed || write_all(held.as_slice(), out).is_err() {
            return Err(Stop::Device);
        }
        Ok(())
    }

    // Writes what is held, so that nothing is.
    fn flush(&mut self)
        ensures same { self.new.out.ghost_name ≡ self.old.out.ghost_name }
        ensures prints { Prints S.contents S.failure_count (stands self.old) (stands self.new) [] }
        ensures none { self.new.held.items ≡ [] }
    {
        if !self.failed {
            self.failed = write_all(self.held.as_slice(), self.out).is_err();
        }
        self.held.clear();
    }

    // Prints bytes where none are held: they are held, or where they are too many, written.
    fn add_to_none(&mut self, bytes: &[u8])
        requires { self.old.held.items ≡ [] }
        ensures same { self.new.out.ghost_name ≡ self.old.out.ghost_name }
        ensures prints { Prints S.contents S.failure_count (stands self.old) (stands self.new) bytes.now }
    {
        if self.held.try_extend_from_slice(bytes).is_err() && !self.failed {
            self.failed = write_all(bytes, self.out).is_err();
        }
    }
}

impl<S: Sink> Page for Printer<'_, S> {
    ghost use Rattle.tl_cert_output.specs.PageLaws.{printer_adds};

    ghost adds = { λ old new text. Adds S.contents S.failure_count old new text };

    /// Where there is no room for the bytes, what is held is written first.
    #[inline]
    fn add(&mut self, bytes: &[u8]) {
        if self.held.try_extend_from_slice(bytes).is_err() {
            self.flush();
            self.add_to_none(bytes);
        }
    }

    ghost adding = { printer_adds S.contents S.failure_count };
}
