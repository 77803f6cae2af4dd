//! The parts of a certificate's text, one after the other.

ghost use Rattle.std.specs.Prelude.{◌≡◌};
ghost use Rattle.tl_cert.specs.Keeping.Places.{FitsStanding, FitsStanding-prop};

use crate::lines::Lines;
use crate::next::read_part;
use crate::place::{CertPart, NextPart};
use crate::stop::CertStop;
use std::alloc::Global;
use tl_record::Source;

/// Whether a reader still reads.
#[derive(Clone, Copy)]
pub enum Standing {
    /// It reads the part at this place when it is asked.
    Reading(NextPart),
    /// It has given all parts.
    Ended,
    /// It stopped, and answers this from then on.
    Stopped(CertStop),
}

/// Gives the parts of a certificate one after the other, as its lines come from a source: the counts, the tree, each
/// round and each walk.
///
/// It keeps at most 4,096 bytes of the text and no part that it gave. It takes memory for what was read, and ahead of the
/// darts of a list for eight of them at most: never for a greater number that a line announces.
#[derive(Drop)]
pub struct CertReader<R> {
    source: R,
    lines: Lines,
    standing: Standing,
    alloc: Global,
    ghost few_lines: { FitsStanding standing lines.lines } by { FitsStanding-prop standing lines.lines },
}

impl<R: Source> CertReader<R> {
    ghost use Rattle.tl_cert.specs.Reading.{source_of, lines_of, standing_of, unread, Gives, Settles, TellsFailure};

    /// A reader of the source's certificate.
    pub fn new(alloc: Global, source: R) -> CertReader<R>
        ensures source { source_of result ≡ source }
        ensures bytes { unread R.remaining result ≡ R.remaining source }
        ensures lines { lines_of result ≡ 0 }
        ensures standing { standing_of result ≡ Standing.Reading NextPart.Start }
    {
        CertReader {
            source,
            lines: Lines::new(),
            standing: Standing::Reading(NextPart::Start),
            alloc,
        }
    }

    /// The next part, or `None` behind the last.
    ///
    /// [`CertStop::Text`] is answered where no certificate has the text, and at no other; [`CertStop::Device`] where a
    /// read fails, an interrupted one too; [`CertStop::Memory`] where there is no memory for the part. After any of
    /// these and after the end, each later call answers the same and reads nothing.
    pub fn next_part(&mut self) -> Result<Option<CertPart>, CertStop>
        // Where the bytes are known: the parts of the one certificate that has the text, in their order; or why there is
        // none. Where no certificate has the text, it is the line that none has: one more than the line feeds in the
        // longest beginning that begins the text of some certificate. The counts and the tree are given before, unless the
        // text breaks off in them. Each part leaves fewer to come.
        ensures gives { Gives R.remaining self.old self.new result (standing_of self.old) }
        // An end or a stop is answered again and again, and nothing is read any more.
        ensures settles { Settles (standing_of self.new) result }
        // `Device` is answered where a read failed in this call, and nowhere else.
        ensures failures { TellsFailure (standing_of self.old) (R.failure_count (source_of self.old))
            (R.failure_count (source_of self.new)) result }
        // Its source is the one that it was.
        ensures same_reference { R.reference (source_of self.new) ≡ R.reference (source_of self.old) }
    {
        let place = match self.standing {
            Standing::Reading(place) => place,
            Standing::Ended => return Ok(None),
            Standing::Stopped(stop) => return Err(stop),
        };
        match read_part(self.alloc, &mut self.lines, &mut self.source, place) {
            Ok(Some((part, next))) => {
                self.standing = Standing::Reading(next);
                Ok(Some(part))
            }
            Ok(None) => {
                self.standing = Standing::Ended;
                Ok(None)
            }
            Err(stop) => {
                self.standing = Standing::Stopped(stop);
                Err(stop)
            }
        }
    }
}
