//! What is asked, by the name of a command and by what `clap` found behind it.

ghost use Rattle.std.specs.Prelude.{IfOk, MatchOption, codes};
ghost use Rattle.clap.specs.Walk.{rows_of, first_of};
ghost use Rattle.clap.specs.Matches.{found_of};
ghost use Rattle.tigertopo_words.specs.Arguments.{AskForFaults, AskForTold, IsForm};
ghost use Rattle.tigertopo_words.specs.Asked.{IsAskedBy};
ghost use Rattle.tigertopo_words.specs.declared.table.Named.{Named};

use crate::arguments::{given, switch_of, word_of};
use crate::asked::Asked;
use crate::budget::{Told, asked_by, budget_of};
use crate::cenid::cenid_of;
use crate::form::Form;
use crate::layer::layer_by;
use crate::point::place_of;
use crate::table::Named;
use crate::view::view_of;
use clap::ArgMatches;
use std::alloc::{AllocError, Global};

/// What the command is asked, where all is given that it needs beside files.
pub fn asked_of(
    alloc: Global,
    named: &Named,
    found: &ArgMatches<'_>,
) -> Result<Option<Asked>, AllocError>
    ensures { IfOk result (IsAskedBy named.now (rows_of (found_of found.now))) }
{
    match named {
        Named::Show => Ok(Some(Asked::Show)),
        Named::Landmarks => Ok(Some(Asked::Landmarks)),
        Named::Locate => Ok(location_of(found)),
        Named::Audit => audit_of(alloc, found),
        Named::Build => build_of(alloc, found),
        Named::Check => check_of(alloc, found),
        Named::Convert => conversion_of(alloc, found),
        Named::Export => export_of(alloc, found),
        Named::Draw => drawing_of(alloc, found),
        Named::Border => border_of(alloc, found),
    }
}

// Where a point lies, where one is spelt.
fn location_of(found: &ArgMatches<'_>) -> Option<Asked>
    ensures { IsAskedBy Named.Locate (rows_of (found_of found.now)) result }
{
    match place_of(given(found, "point")) {
        Some(point) => Some(Asked::Locate { point }),
        None => None,
    }
}

// An audit, where a number of faults and --skip-refused are given only beside --all.
fn audit_of(alloc: Global, found: &ArgMatches<'_>) -> Result<Option<Asked>, AllocError>
    ensures { IfOk result (IsAskedBy Named.Audit (rows_of (found_of found.now))) }
{
    let Some(told) = told_of(found) else {
        return Ok(None);
    };
    let made = word_of(alloc, found, "geojson")?;
    Ok(Some(Asked::Audit {
        told,
        form: form_of(found),
        made,
    }))
}

// In which form, by --where and --json.
fn form_of(found: &ArgMatches<'_>) -> Form
    ensures { IsForm (first_of (codes "where") (rows_of (found_of found.now))) (first_of (codes "json") (rows_of (found_of found.now))) result }
{
    if switch_of(found, "json") {
        Form::Objects
    } else if switch_of(found, "where") {
        Form::Records
    } else {
        Form::Lines
    }
}

// How many faults are asked for, by --all, --most and --skip-refused. A number or --skip-refused without --all asks for none, and so does a
// number that isn't spelt as one.
fn told_of(found: &ArgMatches<'_>) -> Option<Told>
    ensures { let each = first_of (codes "all") (rows_of (found_of found.now)) in
        let number = first_of (codes "most") (rows_of (found_of found.now)) in
        let passed = first_of (codes "skip-refused") (rows_of (found_of found.now)) in
        MatchOption result (¬ AskForFaults each number passed) (AskForTold each number passed) }
{
    asked_by(
        given(found, "all"),
        given(found, "most"),
        given(found, "skip-refused"),
    )
}

// A certificate that is built, where it is named.
fn build_of(alloc: Global, found: &ArgMatches<'_>) -> Result<Option<Asked>, AllocError>
    ensures { IfOk result (IsAskedBy Named.Build (rows_of (found_of found.now))) }
{
    match word_of(alloc, found, "out")? {
        Some(made) => Ok(Some(Asked::Build { made })),
        None => Ok(None),
    }
}

// A check, where its certificate is named and its number of tests is spelt as one.
fn check_of(alloc: Global, found: &ArgMatches<'_>) -> Result<Option<Asked>, AllocError>
    ensures { IfOk result (IsAskedBy Named.Check (rows_of (found_of found.now))) }
{
    let Some(budget) = budget_of(given(found, "tests")) else {
        return Ok(None);
    };
    match word_of(alloc, found, "cert")? {
        Some(cert) => Ok(Some(Asked::Check { cert, budget })),
        None => Ok(None),
    }
}

// A conversion, where both certificates are named.
fn conversion_of(alloc: Global, found: &ArgMatches<'_>) -> Result<Option<Asked>, AllocError>
    ensures { IfOk result (IsAskedBy Named.Convert (rows_of (found_of found.now))) }
{
    let Some(cert) = word_of(alloc, found, "cert")? else {
        return Ok(None);
    };
    match word_of(alloc, found, "out")? {
        Some(made) => Ok(Some(Asked::Convert { cert, made })),
        None => Ok(None),
    }
}

// A file of GeoJSON, where it is named, and its layer is spelt as one or none is given.
fn export_of(alloc: Global, found: &ArgMatches<'_>) -> Result<Option<Asked>, AllocError>
    ensures { IfOk result (IsAskedBy Named.Export (rows_of (found_of found.now))) }
{
    let Some(layer) = layer_by(given(found, "layer")) else {
        return Ok(None);
    };
    match word_of(alloc, found, "geojson")? {
        Some(made) => Ok(Some(Asked::Export { made, layer })),
        None => Ok(None),
    }
}

// A picture, where it is named, a view is spelt or none is given, and faces are asked for only where faults are.
fn drawing_of(alloc: Global, found: &ArgMatches<'_>) -> Result<Option<Asked>, AllocError>
    ensures { IfOk result (IsAskedBy Named.Draw (rows_of (found_of found.now))) }
{
    let Some(view) = view_of(given(found, "at"), given(found, "width")) else {
        return Ok(None);
    };
    let faults = switch_of(found, "faults");
    if switch_of(found, "faces") && !faults {
        return Ok(None);
    }
    match word_of(alloc, found, "out")? {
        Some(made) => Ok(Some(Asked::Draw { made, view, faults })),
        None => Ok(None),
    }
}

// A border, where it is named and its polygon's name is spelt as one.
fn border_of(alloc: Global, found: &ArgMatches<'_>) -> Result<Option<Asked>, AllocError>
    ensures { IfOk result (IsAskedBy Named.Border (rows_of (found_of found.now))) }
{
    let Some(name) = cenid_of(given(found, "name")) else {
        return Ok(None);
    };
    match word_of(alloc, found, "out")? {
        Some(made) => Ok(Some(Asked::Border { name, made })),
        None => Ok(None),
    }
}
