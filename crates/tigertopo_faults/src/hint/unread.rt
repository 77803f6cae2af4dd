//! What is said behind an answer where no type 1 record was read.

ghost use Rattle.std.specs.Prelude.{◌≡◌, ◌≤◌, ◌∷◌, [], true, IfOk, IfErr, OnOk, OnErr, length, map, string_bytes};
ghost use Rattle.tl_cert_output.specs.Stops.{StopsFor};
ghost use Rattle.tl_cert_output.specs.Streams.{Tries, stream};
ghost use Rattle.tigertopo_files.specs.Files.{bytes_under};
ghost use Rattle.tigertopo_files.specs.Log.{LogsAgain};
ghost use Rattle.tigertopo_files.specs.World.{world};
ghost use Rattle.tigertopo_faults.specs.Hint.Advice.{asking};
ghost use Rattle.tigertopo_faults.specs.Hint.Again.{FailsAgain};
ghost use Rattle.tigertopo_faults.specs.Hint.Telling.{TellsUnread};
ghost use Rattle.tigertopo_faults.specs.Hint.Unread.{IsHeld, files_text, held_text, lack_text, more_text, told_text};

use crate::hint::advice::print_form;
use crate::hint::asking::Asking;
use crate::hint::holding::{Held, Holding};
use crate::shown::print_name;
use std::alloc::{AllocError, Global};
use tigertopo_files::{FileSystem, with_printed};
use tl_cert_output::{Page, Stop, Text, write_all};
use tl_record::Sink;

// How many files are told of at most.
const MOST_FILES: usize = 8;

/// Says behind an answer of a command, which read the records of the files of these names, what helps where no line of them begins as a
/// record of type 1 does: of the first eight what each holds, or what it is where it is none of records, and how many more there are. The
/// files are read again, where it may be so: of a pipe nothing can be.
///
/// The error says why nothing is said, as that of [`say_hint`](crate::hint::say_hint) does.
pub fn say_unread<F: FileSystem, E: Sink>(
    files: &mut F,
    alloc: Global,
    names: &[String],
    by: Asking<'_>,
    err: &mut E,
) -> Result<(), Stop>
    ensures hint { OnOk result (F.knows ≡ true → TellsUnread (asking by.entry) (F.under files.old) (map string_bytes names.now)
        (Tries (stream E.contents E.failure_count err.old err.new))) }
    ensures silent { OnErr result (err.new ≡ err.old) }
    ensures stops { IfErr result (StopsFor (FailsAgain (world F.under F.log F.knows files.old files.new) (map string_bytes names.now))) }
    ensures stays { F.under files.new ≡ F.under files.old }
    ensures logged { F.knows ≡ true → LogsAgain (F.log files.old) (F.log files.new) result }
{
    if !files.may_lack_chains() {
        return Ok(());
    }
    let text = unread_hint(files, alloc, names, by)?;
    let _ = write_all(text.as_slice(), err);
    Ok(())
}

// What is said, which may be nothing.
fn unread_hint<F: FileSystem>(
    files: &mut F,
    alloc: Global,
    names: &[String],
    by: Asking<'_>,
) -> Result<Vec<u8>, Stop>
    ensures hint { IfOk result (λ text. TellsUnread (asking by.entry) (F.under files.old) (map string_bytes names.now) (λ told. text.items ≡ told)) }
    ensures stops { IfErr result (StopsFor (FailsAgain (world F.under F.log F.knows files.old files.new) (map string_bytes names.now))) }
    ensures stays { F.under files.new ≡ F.under files.old }
    ensures logged { F.knows ≡ true → LogsAgain (F.log files.old) (F.log files.new) result }
{
    let mut held = Vec::new(alloc);
    for name in names {
        match held_under(files, alloc, name)? {
            Held::Chains => return Ok(Vec::new(alloc)),
            other => held.push(other)?,
        }
    }
    let told = UnreadFiles {
        names,
        by,
        held: held.as_slice(),
    };
    with_printed(alloc, &[], &told)
}

// What the file of this name holds. Of one that can't be read again it may be anything but a record of type 1.
fn held_under<F: FileSystem>(files: &mut F, alloc: Global, name: &String) -> Result<Held, Stop>
    ensures held { IfOk result (IsHeld (bytes_under (F.under files.old) (string_bytes name.now))) }
    ensures stops { IfErr result (StopsFor (FailsAgain (world F.under F.log F.knows files.old files.new) (string_bytes name.now ∷ []))) }
    ensures stays { F.under files.new ≡ F.under files.old }
    ensures logged { F.knows ≡ true → LogsAgain (F.log files.old) (F.log files.new) result }
{
    match files.read_again(alloc, &[], Some(name), &Holding) {
        Ok(Some(held)) => Ok(held),
        Ok(None) => Ok(Held::Others),
        Err(stop) => Err(stop),
    }
}

// What is said of files of these names, which hold this.
#[derive(Clone, Copy)]
struct UnreadFiles<'a> {
    names: &'a [String],
    by: Asking<'a>,
    held: &'a [Held],
}

impl Text for UnreadFiles<'_> {
    ghost use Rattle.std.specs.Prelude.{◌++◌};

    ghost text = { λ told. files_text (asking told.by) 0 (map string_bytes told.names.now) told.held.now ++ more_text (length told.names.now) };

    ghost is_ready = { λ told. length told.names.now ≤ length told.held.now };

    fn add_to<P: Page>(&self, _alloc: Global, page: &mut P) -> Result<(), AllocError> {
        print_files(self.names, self.by, self.held, page);
        print_more(self.names.len(), page);
        Ok(())
    }
}

// Prints what is said of files of these names, which hold this.
fn print_files<P: Page>(names: &[String], by: Asking<'_>, held: &[Held], page: &mut P)
    requires { length names.now ≤ length held.now }
    ensures { P.adds page.old page.new (files_text (asking by.entry) 0 (map string_bytes names.now) held.now) }
{
    for at in 0..names.len() {
        print_told(at, names[at].as_str(), by, held[at], page);
    }
}

// Prints what is said of the file with this number, counted from 0, of this name.
fn print_told<P: Page>(number: usize, name: &str, by: Asking<'_>, held: Held, page: &mut P)
    ensures { P.adds page.old page.new (told_text (asking by.entry) number name.now held) }
{
    if number < MOST_FILES {
        print_held(name, by, held, page);
    }
}

// Prints what is said of a file of this name that holds this.
fn print_held<P: Page>(name: &str, by: Asking<'_>, held: Held, page: &mut P)
    ensures { P.adds page.old page.new (held_text (asking by.entry) name.now held) }
{
    match held {
        Held::Nothing(Some(form)) => print_form(name, by, form, page),
        Held::Nothing(None) => print_lack(name, b" holds no record that is read", page),
        Held::Chains | Held::Others => print_lack(name, b" holds no type 1 record", page),
    }
}

// Prints a file's name, and what it doesn't hold.
fn print_lack<P: Page>(name: &str, words: &[u8], page: &mut P)
    ensures { P.adds page.old page.new (lack_text name.now words.now) }
{
    page.add(b"  ");
    print_name(name, page);
    page.add(words);
    page.add(b"\n");
}

// Prints how many files more there are.
fn print_more<P: Page>(count: usize, page: &mut P)
    ensures { P.adds page.old page.new (more_text count) }
{
    if count > MOST_FILES {
        page.add(b"  more files without a type 1 record: ");
        page.number(count - MOST_FILES);
        page.add(b"\n");
    }
}
