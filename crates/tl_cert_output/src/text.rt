//! Texts that can be printed.

ghost use Rattle.std.specs.Prelude.{◌≡◌, ℕ, List, OnOk, OnErr};
ghost use Rattle.tl_cert_output.specs.Printing.{Prints, stands};
ghost use Rattle.tl_cert_output.specs.Texts.{PrintsText};

use crate::page::Page;
use crate::printer::Printer;
use crate::stop::Stop;
use std::alloc::{AllocError, Global};
use tl_record::Sink;

/// A text that can be printed, for whoever prints it or makes a file of it.
pub trait Text {
    // The text.
    ghost text: { Self → List ℕ };

    // What has to be true of it before it is printed.
    ghost is_ready: { Self → Type 0 };

    /// Adds the text to a page. An error says that memory was refused, and nothing was added.
    fn add_to<P: Page>(&self, alloc: Global, page: &mut P) -> Result<(), AllocError>
        requires { is_ready self.now }
        ensures adds { OnOk result (P.adds page.old page.new (text self.now)) }
        ensures none { OnErr result (page.new ≡ page.old) };

    /// Prints the text to a sink. [`Stop::Memory`] says that memory was refused and nothing was written, [`Stop::Device`] that a write failed
    /// behind a beginning of it; no other comes.
    final fn print<S: Sink>(&self, alloc: Global, out: &mut S) -> Result<(), Stop>
        requires { is_ready self.now }
        ensures { PrintsText S.contents S.failure_count out.old out.new (text self.now) result }
    {
        let mut printer = Printer::new(out);
        add_text(self, alloc, &mut printer)?;
        printer.finish()
    }
}

// Adds a text to a page that goes to a sink.
fn add_text<T: Text, S: Sink>(
    text: &T,
    alloc: Global,
    printer: &mut Printer<'_, S>,
) -> Result<(), AllocError>
    requires { T.is_ready text.now }
    ensures same { printer.new.out.ghost_name ≡ printer.old.out.ghost_name }
    ensures prints { OnOk result (Prints S.contents S.failure_count (stands printer.old) (stands printer.new) (T.text text.now)) }
    ensures none { OnErr result (stands printer.new ≡ stands printer.old) }
{
    text.add_to(alloc, printer)
}

/// Bytes that were put together before.
#[derive(Clone, Copy)]
pub struct Bytes<'a> {
    pub bytes: &'a [u8],
}

impl Text for Bytes<'_> {
    ghost use Rattle.std.specs.Prelude.{⊤};

    ghost text = { λ text. text.bytes.now };

    ghost is_ready = { λ text. ⊤ };

    fn add_to<P: Page>(&self, _alloc: Global, page: &mut P) -> Result<(), AllocError> {
        page.add(self.bytes);
        Ok(())
    }
}
