//! The words of a fault.

ghost use Rattle.tl_check_verdict.specs.Rows.{row};
ghost use Rattle.tigertopo_faults.specs.Geojson.Texts.{words_text};

use tigertopo_pictures::FaultWords;
use tigertopo_pictures::geojson::{print_quoted, print_string};
use tl_cert_output::Page;
use tl_check_verdict::{MapFault, row};

/// Prints the code, the name and the text of a fault.
pub fn print_words<P: Page>(fault: &MapFault, page: &mut P)
    ensures { P.adds page.old page.new (words_text (row fault.now)) }
{
    let says = row(fault);
    page.add(b"\"code\":");
    print_string(says.code.as_bytes(), page);
    page.add(b",\"name\":");
    print_string(says.name.as_bytes(), page);
    page.add(b",\"fault\":");
    print_quoted(&FaultWords { fault }, page);
}
