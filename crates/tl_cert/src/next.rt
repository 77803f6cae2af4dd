//! The part that comes next at a place.

ghost use Rattle.std.specs.Prelude.{◌≡◌};
ghost use Rattle.tl_cert.specs.Keeping.Lines.{at, TellsRead};
ghost use Rattle.tl_cert.specs.Keeping.Places.{ReadsPart, FitsPlace};

use crate::line_kind::{EndLine, Numbered};
use crate::lines::Lines;
use crate::parts::{DartLists, read_counts, read_darts, read_tree};
use crate::place::{CertPart, NextPart};
use crate::stop::CertStop;
use std::alloc::Global;
use tl_record::Source;

/// A part with the place behind it, or none at the end.
type Next = Option<(CertPart, NextPart)>;

/// The part at this place, and the place behind it; or `None` at the end.
pub fn read_part<R: Source>(
    alloc: Global,
    lines: &mut Lines,
    source: &mut R,
    place: NextPart,
) -> Result<Next, CertStop>
    requires { FitsPlace place lines.old.lines }
    ensures reads { ReadsPart R.remaining place (at lines.old source.old) (at lines.new source.new) result }
    ensures failures { TellsRead (R.failure_count source.old) (R.failure_count source.new) result }
    ensures same_reference { R.reference source.new ≡ R.reference source.old }
{
    match place {
        NextPart::Start => match read_counts(lines, source) {
            Ok((counts, version)) => Ok(Some((
                CertPart::Counts(counts, version),
                NextPart::Counted(version),
            ))),
            Err(stop) => Err(stop),
        },
        NextPart::Counted(version) => match read_tree(alloc, lines, source, version) {
            Ok(nodes) => Ok(Some((CertPart::Tree(nodes), NextPart::Treed(version)))),
            Err(stop) => Err(stop),
        },
        NextPart::Treed(_) => match lines.read(
            source,
            &Numbered {
                letter: b'N',
                least: 0,
            },
        ) {
            Ok(rounds) => read_round(alloc, lines, source, rounds),
            Err(stop) => Err(stop),
        },
        NextPart::Rounds(left) => read_round(alloc, lines, source, left),
        NextPart::Walks(left) => read_walk(alloc, lines, source, left),
    }
}

/// The next of so many rounds; behind the last, the first of the walks, or the end.
#[inline(always)]
fn read_round<R: Source>(
    alloc: Global,
    lines: &mut Lines,
    source: &mut R,
    left: u32,
) -> Result<Next, CertStop>
    requires { FitsPlace (NextPart.Rounds left) lines.old.lines }
    ensures reads { ReadsPart R.remaining (NextPart.Rounds left) (at lines.old source.old) (at lines.new source.new) result }
    ensures failures { TellsRead (R.failure_count source.old) (R.failure_count source.new) result }
    ensures same_reference { R.reference source.new ≡ R.reference source.old }
{
    if left > 0 {
        return match read_darts(alloc, lines, source, DartLists::Rounds) {
            Ok(darts) => Ok(Some((CertPart::Round(darts), NextPart::Rounds(left - 1)))),
            Err(stop) => Err(stop),
        };
    }
    match lines.read(
        source,
        &Numbered {
            letter: b'W',
            least: 0,
        },
    ) {
        Ok(walks) => read_walk(alloc, lines, source, walks),
        Err(stop) => Err(stop),
    }
}

/// The next of so many walks; behind the last, the end.
#[inline(always)]
fn read_walk<R: Source>(
    alloc: Global,
    lines: &mut Lines,
    source: &mut R,
    left: u32,
) -> Result<Next, CertStop>
    requires { FitsPlace (NextPart.Walks left) lines.old.lines }
    ensures reads { ReadsPart R.remaining (NextPart.Walks left) (at lines.old source.old) (at lines.new source.new) result }
    ensures failures { TellsRead (R.failure_count source.old) (R.failure_count source.new) result }
    ensures same_reference { R.reference source.new ≡ R.reference source.old }
{
    if left > 0 {
        return match read_darts(alloc, lines, source, DartLists::Walks) {
            Ok(darts) => Ok(Some((CertPart::Walk(darts), NextPart::Walks(left - 1)))),
            Err(stop) => Err(stop),
        };
    }
    match lines.read(source, &EndLine) {
        Ok(()) => match lines.end(source) {
            Ok(()) => Ok(None),
            Err(stop) => Err(stop),
        },
        Err(stop) => Err(stop),
    }
}
