//! Refused lines with where they stand, as they are told.

ghost use Rattle.std.specs.Prelude.{◌≡◌, [], map, string_bytes, slice_get, slice_index_or};
ghost use Rattle.std.specs.Option.{option_map_or};
ghost use Rattle.tl_record.specs.Layout.{layout_with};
ghost use Rattle.tigertopo_faults.specs.Hint.Fronts.{fronted_place, fronted_text};
ghost use Rattle.tigertopo_faults.specs.Hint.Placed.{refused_text, no_place, told_place};

use crate::hint::form::RefusedForm;
use crate::hint::object::{print_place_object, print_refused_feature, print_refused_object};
use crate::hint::shown::print_place;
use crate::places::place_of;
use std::alloc::{AllocError, Global};
use tl_cert_output::{Page, Text, print_refusal};
use tl_record::{Cause, Options, Refusal};

/// The lines of refusals, or their objects or features, each with where the refused line stands.
#[derive(Clone, Copy)]
pub struct RefusedLines<'a> {
    pub form: RefusedForm,
    /// How records are read.
    pub options: Options,
    /// The files' names.
    pub names: &'a [String],
    /// How many lines each of them has.
    pub counts: &'a [u64],
    pub refusals: &'a [Refusal],
    /// The first bytes of the refused lines, from the front.
    pub fronts: &'a [Vec<u8>],
}

impl Text for RefusedLines<'_> {
    ghost use Rattle.std.specs.Prelude.{⊤};

    ghost text = { λ told. fronted_text told.form (layout_with told.options) (map string_bytes told.names.now) told.counts.now told.refusals.now
        (map (λ front. front.items) told.fronts.now) };

    ghost is_ready = { λ told. ⊤ };

    fn add_to<P: Page>(&self, _alloc: Global, page: &mut P) -> Result<(), AllocError> {
        print_refusals(
            self.form,
            self.options,
            self.names,
            self.counts,
            self.refusals,
            self.fronts,
            page,
        );
        Ok(())
    }
}

/// Prints the lines of refusals, or their objects or features, each with the file of these names where the refused line stands, its number
/// there, the columns of the field that it is refused for, and what it holds there, by its first bytes. Where these aren't given, and where the
/// files haven't so many lines, no place is told.
pub fn print_refusals<P: Page>(
    form: RefusedForm,
    options: Options,
    names: &[String],
    counts: &[u64],
    refusals: &[Refusal],
    fronts: &[Vec<u8>],
    page: &mut P,
)
    ensures { P.adds page.old page.new (fronted_text form (layout_with options) (map string_bytes names.now) counts.now refusals.now
        (map (λ front. front.items) fronts.now)) }
{
    for index in 0..refusals.len() {
        let refusal = refusals[index];
        print_beginning(form, refusal, page);
        match fronts.get(index) {
            Some(front) => {
                print_place_of(
                    form,
                    options,
                    names,
                    counts,
                    refusal,
                    front.as_slice(),
                    page,
                )
            }
            None => print_no_place(form, page),
        }
    }
}

// Prints the place of a refused line that begins with these bytes, if the files have so many lines.
fn print_place_of<P: Page>(
    form: RefusedForm,
    options: Options,
    names: &[String],
    counts: &[u64],
    refusal: Refusal,
    front: &[u8],
    page: &mut P,
)
    ensures { P.adds page.old page.new (fronted_place form (layout_with options) (map string_bytes names.now) counts.now refusal front.now) }
{
    match place_of(counts, refusal.line) {
        Some(place) => {
            let name = name_of(names, place.text);
            print_told_place(form, options, name, place.line, front, refusal.cause, page)
        }
        None => print_no_place(form, page),
    }
}

// The name with this number, or none.
fn name_of(names: &[String], number: usize) -> &str
    ensures { result.now ≡ slice_index_or (map string_bytes names.now) number [] }
{
    match names.get(number) {
        Some(name) => name.as_str(),
        None => "",
    }
}

// Prints the line of a refusal, or the beginning of its object or of its feature.
fn print_beginning<P: Page>(form: RefusedForm, refusal: Refusal, page: &mut P)
    ensures { P.adds page.old page.new (refused_text form refusal) }
{
    match form {
        RefusedForm::Lines => print_refusal(refusal.line, refusal.cause, page),
        RefusedForm::Objects => print_refused_object(refusal.line, refusal.cause, page),
        RefusedForm::Features => print_refused_feature(refusal.line, refusal.cause, page),
    }
}

// Prints what stands behind it where no place is told.
fn print_no_place<P: Page>(form: RefusedForm, page: &mut P)
    ensures { P.adds page.old page.new (no_place form) }
{
    match form {
        RefusedForm::Lines => {}
        RefusedForm::Objects => page.add(b"]}\n"),
        RefusedForm::Features => page.add(b"]}}"),
    }
}

// Prints the place of a refused line: a file of this name, and the line with this number and these bytes.
fn print_told_place<P: Page>(
    form: RefusedForm,
    options: Options,
    name: &str,
    number: u64,
    line: &[u8],
    cause: Cause,
    page: &mut P,
)
    ensures { P.adds page.old page.new (told_place form (layout_with options) name.now number line.now cause) }
{
    match form {
        RefusedForm::Lines => {
            print_place(name, number, line, options, cause, page);
            page.add(b"\n");
        }
        RefusedForm::Objects => {
            print_place_object(name, number, line, options, cause, page);
            page.add(b"]}\n");
        }
        RefusedForm::Features => {
            print_place_object(name, number, line, options, cause, page);
            page.add(b"]}}");
        }
    }
}
