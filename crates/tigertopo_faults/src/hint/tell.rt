//! What is said behind a stop.

ghost use Rattle.std.specs.Prelude.{◌≡◌, true, OnOk, OnErr, IfOk, IfErr, map, string_bytes};
ghost use Rattle.tl_cert_output.specs.Stops.{StopsFor};
ghost use Rattle.tl_cert_output.specs.declared.stop.Stop.TheVariants.{Memory};
ghost use Rattle.tigertopo_files.specs.Log.{LogsAgain};
ghost use Rattle.tigertopo_files.specs.World.{world};
ghost use Rattle.tigertopo_faults.specs.Hint.Again.{FailsAgain};
ghost use Rattle.tigertopo_faults.specs.Hint.Telling.{TellsHint, TellsRefusal, TellsTrouble};
ghost use Rattle.tl_cert_output.specs.Streams.{Tries, stream};
ghost use Rattle.tigertopo_faults.specs.Hint.Advice.{asking};

use crate::hint::asking::Asking;
use crate::hint::refused::{RefusedLine, Sought};
use crate::shown::print_name;
use std::alloc::{AllocError, Global};
use tigertopo_files::{FileSystem, with_printed};
use tl_cert_output::{Page, Stop, Text, write_all};
use tl_record::{Cause, Sink};

/// Says behind a stop of a command, which read the files of these names, what helps: behind a refused line in which file it
/// stands, in which of its lines and columns, and what it holds there; where a device failed, which file can't be opened or
/// read, and why. Behind any other stop nothing is said. The files are read again: of a pipe nothing can be, and then nothing
/// is said.
///
/// Nothing is written where it can't be made: [`Stop::Memory`] says that memory was refused for it, [`Stop::Device`] that a
/// file can't be read again. A write of it that fails isn't told.
pub fn say_hint<F: FileSystem, E: Sink>(
    files: &mut F,
    alloc: Global,
    names: &[String],
    by: Asking<'_>,
    stop: &Stop,
    err: &mut E,
) -> Result<(), Stop>
    ensures hint { OnOk result (TellsHint stop.now (asking by.entry) (F.under files.old) (map string_bytes names.now)
        (Tries (stream E.contents E.failure_count err.old err.new))) }
    ensures silent { OnErr result (err.new ≡ err.old) }
    ensures stops { IfErr result (StopsFor (FailsAgain (world F.under F.log F.knows files.old files.new) (map string_bytes names.now))) }
    ensures stays { F.under files.new ≡ F.under files.old }
    ensures logged { F.knows ≡ true → LogsAgain (F.log files.old) (F.log files.new) result }
{
    let text = hint_of(files, alloc, names, by, stop)?;
    let _ = write_all(text.as_slice(), err);
    Ok(())
}

// What is said, which may be nothing.
fn hint_of<F: FileSystem>(
    files: &mut F,
    alloc: Global,
    names: &[String],
    by: Asking<'_>,
    stop: &Stop,
) -> Result<Vec<u8>, Stop>
    ensures hint { IfOk result (λ text. TellsHint stop.now (asking by.entry) (F.under files.old) (map string_bytes names.now)
        (λ told. text.items ≡ told)) }
    ensures stops { IfErr result (StopsFor (FailsAgain (world F.under F.log F.knows files.old files.new) (map string_bytes names.now))) }
    ensures stays { F.under files.new ≡ F.under files.old }
    ensures logged { F.knows ≡ true → LogsAgain (F.log files.old) (F.log files.new) result }
{
    match *stop {
        Stop::Record { line, cause } => refusal_hint(files, alloc, names, by, line, cause),
        Stop::Device => trouble_hint(files, alloc, names),
        Stop::Memory | Stop::Budget => Ok(Vec::new(alloc)),
    }
}

// Which file can't be opened or read, and why.
fn trouble_hint<F: FileSystem>(files: &F, alloc: Global, names: &[String]) -> Result<Vec<u8>, Stop>
    ensures told { IfOk result (λ text. TellsTrouble (F.under files.now) (map string_bytes names.now) (λ told. text.items ≡ told)) }
    ensures stop { IfErr result (λ stop. stop ≡ Memory) }
{
    for name in names {
        if let Some(words) = files.trouble(alloc, name.as_str())? {
            let line = TroubleLine {
                name: name.as_str(),
                words: words.as_str(),
            };
            return with_printed(alloc, &[], &line);
        }
    }
    Ok(Vec::new(alloc))
}

/// The line of a file that can't be opened, read or made: its name, and why.
#[derive(Clone, Copy)]
pub struct TroubleLine<'a> {
    pub name: &'a str,
    pub words: &'a str,
}

impl Text for TroubleLine<'_> {
    ghost use Rattle.std.specs.Prelude.{⊤};
    ghost use Rattle.tl_cert_output.specs.Writing.{line_of};
    ghost use Rattle.tigertopo_faults.specs.Hint.Hints.{trouble_text};

    ghost text = { λ told. line_of (trouble_text told.name.now told.words.now) };

    ghost is_ready = { λ told. ⊤ };

    fn add_to<P: Page>(&self, _alloc: Global, page: &mut P) -> Result<(), AllocError> {
        page.add(b"  ");
        print_name(self.name, page);
        page.add(b": ");
        page.add(self.words.as_bytes());
        page.add(b"\n");
        Ok(())
    }
}

// Where a refused line stands, if each file up to it can be read again.
fn refusal_hint<F: FileSystem>(
    files: &mut F,
    alloc: Global,
    names: &[String],
    by: Asking<'_>,
    line: u64,
    cause: Cause,
) -> Result<Vec<u8>, Stop>
    ensures hint { IfOk result (λ text. TellsRefusal (asking by.entry) (F.under files.old) (map string_bytes names.now)
        (line, cause) (λ told. text.items ≡ told)) }
    ensures stops { IfErr result (StopsFor (FailsAgain (world F.under F.log F.knows files.old files.new) (map string_bytes names.now))) }
    ensures stays { F.under files.new ≡ F.under files.old }
    ensures logged { F.knows ≡ true → LogsAgain (F.log files.old) (F.log files.new) result }
{
    let mut number = line;
    for name in names {
        let refused = RefusedLine {
            name,
            by,
            number,
            cause,
        };
        match files.read_again(alloc, &[], Some(name), &refused)? {
            Some(Sought::Told(text)) => return Ok(text),
            Some(Sought::Behind(lines)) => number -= lines,
            None => return Ok(Vec::new(alloc)),
        }
    }
    Ok(Vec::new(alloc))
}
