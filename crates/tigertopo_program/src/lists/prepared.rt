//! What is printed of faults, put together before anything is made or told.

ghost use Rattle.std.specs.Prelude.{◌≡◌, IfOk, IfErr, map, option_copied, string_bytes};
ghost use Rattle.tigertopo_faults.specs.Records.SpokenOf.{chains_of};
ghost use Rattle.tl_cert_output.specs.declared.stop.Stop.TheVariants.{Memory};
ghost use Rattle.tigertopo_program.specs.Lists.Keeping.{IsPrepared};

use std::alloc::Global;
use tigertopo_faults::told::ToldFaults;
use tigertopo_files::with_printed;
use tigertopo_words::{Form, Told};
use tl_cert_output::Stop;

/// The text of faults in this form; of all faults as lines there is none, since they are printed as they are listed.
pub(crate) fn prepare(alloc: Global, text: &ToldFaults<'_>) -> Result<Option<Vec<u8>>, Stop>
    ensures prepared { IfOk result (IsPrepared (map string_bytes text.now.names.now) (chains_of (option_copied text.now.drawn))
        text.now.spoken.now text.now.form text.now.told text.now.faults.now text.now.touched) }
    ensures stop { IfErr result (λ stop. stop ≡ Memory) }
{
    match (text.form, text.told) {
        (Form::Lines, Told::All { .. }) => Ok(None),
        _ => Ok(Some(with_printed(alloc, &[], text)?)),
    }
}
