//! Texts that are printed into memory.

ghost use Rattle.std.specs.Prelude.{◌≡◌, ◌++◌, IfOk, IfErr};
ghost use Rattle.tl_cert_output.specs.declared.stop.Stop.TheVariants.{Memory};

use std::alloc::Global;
use tl_cert_output::{Page, Stop, Text};

// A page in memory, and whether memory was refused for some of what was added.
#[derive(Drop)]
struct Printed {
    bytes: Vec<u8>,
    is_short: bool,
}

impl Page for Printed {
    ghost use Rattle.tigertopo_files.specs.Printing.{Holds, printed_adds};

    ghost adds = { Holds };

    fn add(&mut self, bytes: &[u8]) {
        if self.bytes.extend_from_slice(bytes).is_err() {
            self.is_short = true;
        }
    }

    ghost adding = { printed_adds };
}

/// These bytes and a text behind them. The error is that memory was refused.
pub fn with_printed<T: Text>(alloc: Global, held: &[u8], text: &T) -> Result<Vec<u8>, Stop>
    requires { T.is_ready text.now }
    ensures bytes { IfOk result (λ bytes. bytes.items ≡ held.now ++ T.text text.now) }
    ensures stop { IfErr result (λ stop. stop ≡ Memory) }
{
    let mut page = Printed {
        bytes: Vec::from_slice(alloc, held)?,
        is_short: false,
    };
    text.add_to(alloc, &mut page)?;
    if page.is_short {
        return Err(Stop::Memory);
    }
    Ok(page.bytes)
}
