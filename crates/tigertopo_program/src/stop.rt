//! The exit statuses, and how a stop is told.

ghost use Rattle.std.specs.Prelude.{◌≡◌};
ghost use Rattle.tl_cert_output.specs.Printing.{Prints, stands};
ghost use Rattle.tl_cert_output.specs.Writing.{line_of};
ghost use Rattle.tl_cert_output.specs.Stops.{stop_text};
ghost use Rattle.tigertopo_program.specs.Texts.{stop_status};
ghost use Rattle.tl_cert_output.specs.Streams.{Tries, stream};

use tl_cert_output::{Page, Printer, Stop, print_refusal, write_all};
use tl_record::Sink;

/// The status of a command that is done, and of help.
pub const DONE: u8 = 0;

/// The status where the map has a fault.
pub const MAP_FAULT: u8 = 1;

/// The status where the certificate has a fault.
pub const CERT_FAULT: u8 = 2;

/// The status where a record is refused.
pub const REFUSED: u8 = 3;

/// The status where memory was refused, a file or the output failed, or the budget is spent.
pub const STOPPED: u8 = 4;

/// The status where the words are no command, or no file may be made.
pub const USAGE: u8 = 64;

/// Says on `err` why a command stopped, and gives the exit status of that. Where the write fails, the status alone is
/// left to tell it. The line isn't printed by `Display`, whose errors no contract excludes.
pub fn stopped<E: Sink>(stop: &Stop, err: &mut E) -> u8
    ensures status { result ≡ stop_status stop.now }
    ensures told { Tries (stream E.contents E.failure_count err.old err.new) (line_of (stop_text stop.now)) }
{
    let mut printer = Printer::new(err);
    print_whole(stop, &mut printer);
    let _ = printer.finish();
    status_of(stop)
}

// Prints the line of a stop on a page that goes to a sink.
fn print_whole<E: Sink>(stop: &Stop, printer: &mut Printer<'_, E>)
    ensures same { printer.new.out.ghost_name ≡ printer.old.out.ghost_name }
    ensures prints { Prints E.contents E.failure_count (stands printer.old) (stands printer.new) (line_of (stop_text stop.now)) }
{
    print_stop(stop, printer);
}

// Prints the line of a stop.
fn print_stop<P: Page>(stop: &Stop, page: &mut P)
    ensures { P.adds page.old page.new (line_of (stop_text stop.now)) }
{
    match stop {
        Stop::Record { line, cause } => print_refusal(*line, *cause, page),
        Stop::Memory => page.add(b"stopped Memory\n"),
        Stop::Device => page.add(b"stopped Device\n"),
        Stop::Budget => page.add(b"stopped Budget\n"),
    }
}

// The exit status of a stop.
fn status_of(stop: &Stop) -> u8
    ensures { result ≡ stop_status stop.now }
{
    match stop {
        Stop::Record { .. } => REFUSED,
        Stop::Memory | Stop::Device | Stop::Budget => STOPPED,
    }
}

/// Writes a text to the error output. Where that fails, nobody can be told.
pub fn try_to_write<E: Sink>(text: &[u8], err: &mut E)
    ensures { Tries (stream E.contents E.failure_count err.old err.new) text.now }
{
    let _ = write_all(text, err);
}
