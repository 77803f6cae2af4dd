//! Faults as a text of objects.

ghost use Rattle.std.specs.Prelude.{map, option_copied, string_bytes};
ghost use Rattle.tigertopo_faults.specs.Records.SpokenOf.{chains_of};
ghost use Rattle.tigertopo_faults.specs.Records.Keeping.{held};
ghost use Rattle.tigertopo_faults.specs.Objects.Texts.{objects_text};

use crate::lines::chosen;
use crate::objects::end::print_faults_end;
use crate::objects::fault::print_objects;
use crate::told::ToldFaults;
use tl_cert_output::Page;

/// Prints faults, each as an object, and behind them how many there are.
pub(crate) fn print_fault_objects<P: Page>(text: &ToldFaults<'_>, page: &mut P)
    ensures { P.adds page.old page.new (objects_text (map string_bytes text.now.names.now) text.now.spoken.now.counts.items
        (chains_of (option_copied text.now.drawn)) (held text.now.spoken.now.lines) text.now.spoken.now.places.items
        text.now.told text.now.faults.now text.now.touched) }
{
    let spoken = text.spoken;
    let shown = chosen(text.faults, text.told);
    print_objects(
        text.names,
        spoken.counts.as_slice(),
        text.drawn,
        &spoken.lines,
        spoken.places.as_slice(),
        shown,
        page,
    );
    let count = text.faults.len() as u64;
    print_faults_end(count, shown.len() as u64, text.touched, page);
}
