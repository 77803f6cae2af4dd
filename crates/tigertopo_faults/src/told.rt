//! Faults as they are told.

ghost use Rattle.tigertopo_faults.specs.Told.{plain_text};

use crate::lines::{Spoken, chosen, print_behind, print_placed_faults};
use crate::objects::print_fault_objects;
use std::alloc::{AllocError, Global};
use tigertopo_words::{Form, Told};
use tl_cert_output::{Page, Text};
use tl_check_verdict::MapFault;
use tl_list_text::print_fault_lines;
use tl_map_county::Map;

/// Faults in a form: the first, or all, or so many from the front, and where all are told, how many there are.
#[derive(Clone, Copy)]
pub struct ToldFaults<'a> {
    /// The files' names.
    pub names: &'a [String],
    /// The map, where the records have one.
    pub drawn: Option<&'a Map>,
    /// Where the faults lie, and the records that they speak of.
    pub spoken: &'a Spoken,
    pub form: Form,
    pub told: Told,
    pub faults: &'a [MapFault],
    /// How many polygons are touched.
    pub touched: u64,
}

impl Text for ToldFaults<'_> {
    ghost use Rattle.std.specs.Prelude.{⊤, map as map_list, option_copied, string_bytes};
    ghost use Rattle.tigertopo_faults.specs.Records.SpokenOf.{chains_of};
    ghost use Rattle.tigertopo_faults.specs.Told.{told_text};

    ghost text = { λ text. told_text (map_list string_bytes text.names.now) (chains_of (option_copied text.drawn)) text.spoken.now
        text.form text.told text.faults.now text.touched };

    ghost is_ready = { λ text. ⊤ };

    fn add_to<P: Page>(&self, _alloc: Global, page: &mut P) -> Result<(), AllocError> {
        match self.form {
            Form::Lines => print_plain(self, page),
            Form::Records => print_placed_faults(self, page),
            Form::Objects => print_fault_objects(self, page),
        }
        Ok(())
    }
}

// Prints faults without the records that they speak of.
fn print_plain<P: Page>(text: &ToldFaults<'_>, page: &mut P)
    ensures { P.adds page.old page.new (plain_text text.now.told text.now.faults.now text.now.touched) }
{
    print_fault_lines(chosen(text.faults, text.told), page);
    print_behind(text.told, text.faults.len() as u64, text.touched, page);
}
