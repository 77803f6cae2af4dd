//! What is said of a fault.

use crate::spelling::Words;
use tl_cert_output::Page;
use tl_check_verdict::MapFault;
use tl_list_text::print_fault_words;

/// The code and the name of a fault, and what it is about.
#[derive(Clone, Copy)]
pub struct FaultWords<'a> {
    pub fault: &'a MapFault,
}

impl Words for FaultWords<'_> {
    ghost use Rattle.tl_check_verdict.specs.Rows.{row};
    ghost use Rattle.tl_check_verdict.specs.Messages.{row_text};

    ghost text = { λ words. row_text (row words.fault.now) };

    fn print<P: Page>(&self, page: &mut P) {
        print_fault_words(self.fault, page);
    }
}
