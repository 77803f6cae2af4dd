//! Doing what a command asks.

ghost use Rattle.std.specs.Prelude.{◌≡◌, [], map, option_map, string_bytes};
ghost use Rattle.tigertopo_words.specs.Asked.{made_of};
ghost use Rattle.tigertopo_files.specs.World.{Does, MayMake, world};
ghost use Rattle.tigertopo_files.specs.Reading.{text_under};
ghost use Rattle.tigertopo_files.specs.declared.beginning.FileKind.TheVariants.{Collection};
ghost use Rattle.tigertopo_program.specs.Answers.{IsSaid};
ghost use Rattle.tigertopo_program.specs.Commands.{names_read, kind_of};
ghost use Rattle.tigertopo_program.specs.Lists.Listed.{wanted_of};
ghost use Rattle.tigertopo_program.specs.Program.{AuditOrList, CommandAnswers, CommandStops, StopsAuditOrList, is_one_line};

use crate::answer::Answer;
use crate::border::border;
use crate::convert::convert;
use crate::decide::auditing::audit;
use crate::decide::building::build;
use crate::decide::deciding::check;
use crate::draw::draw;
use crate::export::export;
use crate::lists::{Wanted, list};
use crate::records::{landmarks, locate, show};
use std::alloc::Global;
use std::hash::RandomState;
use tigertopo_files::FileSystem;
use tigertopo_words::{Asked, Command, Form, Told};
use tl_cert_output::Stop;
use tl_record::Options;

/// The answer to a command, whose file may be made.
pub fn perform<F: FileSystem>(
    files: &mut F,
    alloc: Global,
    hasher: RandomState,
    command: &Command,
) -> Result<Answer, Stop>
    requires { MayMake (F.under files.old) (made_of command.now.asked) (names_read command.now) (kind_of command.now.asked) }
    ensures { let w = world F.under F.log F.knows files.old files.new in
        Does w (names_read command.now) (made_of command.now.asked) (IsSaid (CommandAnswers command.now w)) (CommandStops command.now w) result }
{
    let options = command.options;
    let names = command.files.as_slice();
    match &command.asked {
        Asked::Show => show(files, alloc, hasher, options, names),
        Asked::Landmarks => landmarks(files, alloc, hasher, options, names),
        Asked::Locate { point } => locate(files, alloc, hasher, options, names, *point),
        Asked::Audit { told, form, made } => {
            let wanted = Wanted {
                told: *told,
                form: *form,
                made,
            };
            audit_or_list(files, alloc, hasher, options, names, wanted)
        }
        Asked::Build { made } => build(files, alloc, hasher, options, names, made),
        Asked::Check { cert, budget } => {
            check(files, alloc, hasher, options, names, cert, *budget)
        }
        Asked::Convert { cert, made } => convert(files, alloc, cert, made),
        Asked::Export { made, layer } => {
            export(files, alloc, hasher, options, names, made, *layer)
        }
        Asked::Draw { made, view, faults } => {
            draw(files, alloc, hasher, options, names, made, *view, *faults)
        }
        Asked::Border { name, made } => border(files, alloc, hasher, options, names, made, *name),
    }
}

// What is wrong with a county: one line, or as much as is wanted.
fn audit_or_list<F: FileSystem>(
    files: &mut F,
    alloc: Global,
    hasher: RandomState,
    options: Options,
    names: &[String],
    wanted: Wanted<'_>,
) -> Result<Answer, Stop>
    requires { MayMake (F.under files.old) (option_map string_bytes wanted.made.now) (map string_bytes names.now) Collection }
    ensures { let w = world F.under F.log F.knows files.old files.new in
        let known = text_under (F.under files.old) (map string_bytes names.now) in
        let asked = wanted_of (map string_bytes names.now) wanted.entry in
        Does w asked.names asked.made (IsSaid (AuditOrList (is_one_line asked) w options known asked))
        (StopsAuditOrList (is_one_line asked) options known asked) result }
{
    if is_one_line(wanted) {
        return audit(files, alloc, hasher, options, names);
    }
    list(files, alloc, hasher, options, names, wanted)
}

// Whether one fault is asked for, as a line, and no file.
fn is_one_line(wanted: Wanted<'_>) -> bool
    ensures { result ≡ is_one_line (wanted_of [] wanted.entry) }
{
    matches!(wanted.told, Told::One) && matches!(wanted.form, Form::Lines) && wanted.made.is_none()
}
