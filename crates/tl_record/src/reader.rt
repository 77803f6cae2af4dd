//! The records of a text, one after the other.

ghost use Rattle.std.specs.Prelude.{◌≡◌, ◌+◌, ◌<◌, ◌≤◌, ℕ, List, true, length, take};
ghost use Rattle.std.specs.Option.{option_map};
ghost use Rattle.std.specs.Io.KnownBytes.{IsAtEnd, Keeps, prepend_known};
ghost use Rattle.tl_record.specs.Limits.{most_lines, most_line_bytes};
ghost use Rattle.tl_record.specs.declared.layout.Layout.{Layout};
ghost use Rattle.tl_record.specs.Lines.{line_feeds};
ghost use Rattle.tl_record.specs.Layout.{tiger_2006, layout_with};
ghost use Rattle.tl_record.specs.declared.judge.Judgement.TheVariants.{Refused};
ghost use Rattle.tl_record.specs.Judgement.{judgement, judgement as judgement_of};
ghost use Rattle.tl_record.specs.Records.{lines_read};
ghost use Rattle.tl_record.specs.Refusals.{refusals_of};
ghost use Rattle.tl_record.specs.NextLine.{Shows, CountsFetch, found_with, KeepsUnfound};
ghost use Rattle.tl_record.specs.Meaning.{judgement_with, KeepsUnread};
ghost use Rattle.tl_record.specs.declared.record.Record.{Record};

use crate::answer::with_record;
use crate::judge::{MAX_LINE_BYTES, MAX_LINES, Meaning, judge_into};
use crate::layout::{Layout, layout_with};
use crate::line_buffer::{Fetched, LineBuffer, fetch_line};
use crate::options::Options;
use crate::record::{NO_RECORD, Record};
use crate::refusal::{Refusal, RefusalStop};
use crate::source::Source;
use crate::stop::{Cause, ReadStop};
use crate::take::{Taken, skip_line, take_line};
use memchr::memchr;

// How many bytes of the text are kept: what is fetched at once.
pub(crate) const BLOCK: usize = 65_536;

/// The next line, judged: `J` is what is told of it.
#[derive(Clone, Copy)]
enum NextLine<J> {
    /// A line that ends in a line feed.
    Line(J),
    /// A last line with no line feed.
    Last(J),
    /// There is none.
    End,
    /// A read failed.
    Failed,
}

/// Whether a reader still reads.
#[derive(Clone, Copy)]
pub enum Standing {
    /// It judges the next line when it is asked.
    Reading,
    /// All lines were judged.
    Ended,
    /// It stopped, and answers this from then on.
    Stopped(ReadStop),
}

/// Gives the records of a source's text one after the other, up to its end or to its first refused line, and from there
/// all lines that are refused; or, where [`RecordReader::pass_refused`] passes over each of them, the records behind them too.
///
/// It keeps at most 65,536 bytes of the text, in an array, and takes no memory.
#[derive(Drop)]
pub struct RecordReader<R> {
    source: R,
    layout: Layout,
    buffer: LineBuffer<BLOCK>,
    lines: u64,
    skipped: u64,
    judged: u64,
    standing: Standing,
    ghost few_lines: { lines ≤ most_lines },
    ghost some_skipped: { skipped ≤ lines },
}

/// Why a line is refused that is longer than any that is read.
pub(crate) fn long_line_cause(number: u64) -> Cause
    ensures { (layout : Layout) (line : List ℕ) → most_line_bytes < length line
        → judgement layout number line ≡ Refused result }
{
    if number > MAX_LINES {
        Cause::TooManyLines
    } else {
        Cause::LineTooLong
    }
}

impl<R: Source> RecordReader<R> {
    ghost use Rattle.tl_record.specs.Reader.{source_of, layout_of, lines_of, skipped_of, standing_of, pending_of};
    ghost use Rattle.tl_record.specs.Reader.{outcome, StepsTo, CountsLine, Moves, Gives, Settles, Repeats, CountsAnswer};
    ghost use Rattle.tl_record.specs.Reader.{answer_with, KeepsUnanswered};
    ghost use Rattle.tl_record.specs.Searching.{extent, extent_of, GivesRefusal, SettlesSearch, RepeatsSearch};
    ghost use Rattle.tl_record.specs.Searching.{TellsFailed, goes_on, GivesUp, Finds, CountsSkip};
    ghost use Rattle.tl_record.specs.Reader.{TellsFailure, FailsWhole, WhereReading, refusals_to_come, KeepsRefusals};
    ghost use Rattle.tl_record.specs.Left.{left_of};
    ghost use Rattle.tl_record.specs.Reader.{judged_of};
    ghost use Rattle.tl_record.specs.Lines.{raw_lines};
    ghost use Rattle.tl_record.specs.NextLine.{front_of};
    ghost use Rattle.tl_record.specs.Fronts.{lines_ahead, TakesLines};
    ghost use Rattle.tl_record.specs.Leaving.{left_to_come, Leaves, GivesLeft, StopsBefore, MayPass, is_passable};

    /// A reader of the source's records, by the column table of the TIGER/Line files of 2006.
    pub fn new(source: R) -> RecordReader<R>
        ensures source { source_of result ≡ source }
        // Where the bytes are known, and however reads cut them: the records before the first refused line are to come,
        // and then that refusal or the end.
        ensures records { outcome R.remaining result ≡ option_map (lines_read tiger_2006) (R.remaining source) }
        // Where the bytes are known, all lines that are refused are to come as refusals.
        ensures refusals { refusals_to_come R.remaining result
            ≡ option_map (refusals_of tiger_2006) (R.remaining source) }
        // Where the bytes are known, and refused lines are passed over: the records of what is left are to come.
        ensures left { left_to_come R.remaining result
            ≡ option_map (λ text. lines_read tiger_2006 (left_of tiger_2006 text)) (R.remaining source) }
        // Where the bytes are known, all lines are ahead.
        ensures ahead { lines_ahead R.remaining result ≡ option_map raw_lines (R.remaining source) }
        ensures extent { extent R.remaining result ≡ extent_of 0 (R.remaining source) }
        ensures lines { lines_of result ≡ 0 }
        ensures skipped { skipped_of result ≡ 0 }
        ensures standing { standing_of result ≡ Standing.Reading }
    {
        RecordReader::with(source, Options::default())
    }

    /// A reader of the source's records, by that column table with what the options choose of type I.
    pub fn with(source: R, options: Options) -> RecordReader<R>
        ensures source { source_of result ≡ source }
        // Where the bytes are known, and however reads cut them: the records before the first refused line are to come,
        // and then that refusal or the end.
        ensures records { outcome R.remaining result
            ≡ option_map (lines_read (layout_with options)) (R.remaining source) }
        // Where the bytes are known, all lines that are refused are to come as refusals.
        ensures refusals { refusals_to_come R.remaining result
            ≡ option_map (refusals_of (layout_with options)) (R.remaining source) }
        // Where the bytes are known, and refused lines are passed over: the records of what is left are to come.
        ensures left { left_to_come R.remaining result
            ≡ option_map (λ text. lines_read (layout_with options) (left_of (layout_with options) text)) (R.remaining source) }
        // Where the bytes are known, all lines are ahead.
        ensures ahead { lines_ahead R.remaining result ≡ option_map raw_lines (R.remaining source) }
        ensures extent { extent R.remaining result ≡ extent_of 0 (R.remaining source) }
        ensures lines { lines_of result ≡ 0 }
        ensures skipped { skipped_of result ≡ 0 }
        ensures standing { standing_of result ≡ Standing.Reading }
    {
        RecordReader {
            source,
            layout: layout_with(options),
            buffer: LineBuffer::new(),
            lines: 0,
            skipped: 0,
            judged: 0,
            standing: Standing::Reading,
        }
    }

    /// How many lines were passed over so far: empty lines, and lines of types that aren't read.
    pub fn skipped(&self) -> u64
        ensures { result ≡ skipped_of self.now }
    {
        self.skipped
    }

    // What the first bytes that were fetched mean as the next line.
    fn judge_pending(&self, len: usize, place: &mut Record) -> Meaning
        requires { len ≤ length (pending_of self.now) }
        ensures judged { judgement_with result place.new
            ≡ judgement (layout_of self.now) (lines_of self.now + 1) (take len (pending_of self.now)) }
        ensures kept { KeepsUnread result place.old place.new }
        ensures room { length (pending_of self.now) ≤ BLOCK }
    {
        let bytes = &self.buffer.bytes()[..len];
        judge_into(&self.layout, self.lines + 1, bytes, place)
    }

    // The last line, where the source is at its end.
    fn judge_last(&self, place: &mut Record) -> NextLine<Meaning>
        requires ended { IsAtEnd (R.remaining (source_of self.now)) }
        requires none { line_feeds (pending_of self.now) ≡ 0 }
        ensures steps { StepsTo R.remaining R.failure_count self.now self.now (found_with result place.new) }
        ensures kept { KeepsUnfound result place.old place.new }
    {
        let len = self.buffer.bytes().len();
        if len == 0 {
            return NextLine::End;
        }
        NextLine::Last(self.judge_pending(len, place))
    }

    // Finds the next line and judges it.
    fn next_line(&mut self, place: &mut Record) -> NextLine<Meaning>
        ensures steps { StepsTo R.remaining R.failure_count self.old self.new (found_with result place.new) }
        ensures kept { KeepsUnfound result place.old place.new }
        ensures same_reference { R.reference (source_of self.new) ≡ R.reference (source_of self.old) }
    {
        match fetch_line(&mut self.buffer, &mut self.source) {
            Fetched::Whole(len) => {
                let meaning = self.judge_pending(len, place);
                if let Meaning::Refused(_) = meaning {
                    return NextLine::Line(meaning);
                }
                self.buffer.consume(len + 1);
                NextLine::Line(meaning)
            }
            Fetched::Rest => self.judge_last(place),
            Fetched::Full => { NextLine::Line(Meaning::Refused(long_line_cause(self.lines + 1))) }
            Fetched::Failed => NextLine::Failed,
        }
    }

    // Counts a judged line, and says what to answer of it: nothing where it is passed over.
    fn count_line(&mut self, meaning: Meaning) -> Option<Result<Option<u64>, ReadStop>>
        requires { (r : Record) × (line : List ℕ)
            × (judgement_with meaning r ≡ judgement_of (layout_of self.old) (lines_of self.old + 1) line) }
        ensures { (r : Record) → CountsLine self.old self.new (judgement_with meaning r)
            (option_map (λ answer. answer_with answer r) result) }
    {
        let number = self.lines + 1;
        match meaning {
            Meaning::PassedOver => {
                self.lines += 1;
                self.skipped += 1;
                None
            }
            Meaning::Read => {
                self.lines = number;
                Some(Ok(Some(number)))
            }
            Meaning::Refused(cause) => {
                let stop = ReadStop::Refused {
                    line: number,
                    cause,
                };
                self.judged = self.lines;
                self.standing = Standing::Stopped(stop);
                Some(Err(stop))
            }
        }
    }

    // Reads on, up to a line that isn't passed over.
    fn read_on(&mut self, place: &mut Record) -> Result<Option<u64>, ReadStop>
        requires { standing_of self.old ≡ Standing.Reading }
        ensures moves { Moves R.remaining R.failure_count self.old self.new (answer_with result place.new) }
        ensures leaves { Leaves R.remaining self.old self.new (answer_with result place.new) }
        ensures kept { KeepsUnanswered result place.old place.new }
        ensures same_reference { R.reference (source_of self.new) ≡ R.reference (source_of self.old) }
    {
        'lines: loop {
            match self.next_line(place) {
                NextLine::Line(meaning) => {
                    if let Some(answer) = self.count_line(meaning) {
                        return answer;
                    }
                }
                NextLine::Last(meaning) => {
                    self.standing = Standing::Ended;
                    return self.count_line(meaning).unwrap_or(Ok(None));
                }
                NextLine::End => {
                    self.standing = Standing::Ended;
                    return Ok(None);
                }
                NextLine::Failed => {
                    self.standing = Standing::Stopped(ReadStop::Device);
                    return Err(ReadStop::Device);
                }
            }
        }
    }

    /// Puts the next record into `place`, and answers its line's number, counted from 1, or `None` at the end of the text.
    ///
    /// It answers as [`RecordReader::next_record`] does, and moves no record. Where none is answered `place` stays as it
    /// is.
    #[inline(always)]
    pub fn read_next(&mut self, place: &mut Record) -> Result<Option<u64>, ReadStop>
        ensures gives { Gives (outcome R.remaining self.old) (outcome R.remaining self.new) (skipped_of self.new)
            (answer_with result place.new) }
        ensures settles { Settles (standing_of self.new) (answer_with result place.new) }
        ensures repeats { Repeats (standing_of self.old) self.old self.new (answer_with result place.new) }
        ensures counts { WhereReading (standing_of self.old)
            (CountsAnswer (lines_of self.old) (skipped_of self.old) (lines_of self.new) (skipped_of self.new)
            (answer_with result place.new)) }
        ensures failures { TellsFailure (standing_of self.old) (R.failure_count (source_of self.old))
            (R.failure_count (source_of self.new)) (answer_with result place.new) }
        ensures same_reference { R.reference (source_of self.new) ≡ R.reference (source_of self.old) }
        ensures whole_lines { WhereReading (standing_of self.old)
            (FailsWhole R.remaining self.old self.new (answer_with result place.new)) }
        ensures refusals { KeepsRefusals (refusals_to_come R.remaining self.old)
            (refusals_to_come R.remaining self.new) }
        // The first entry of what is left without refused lines, or its end; a refused line takes nothing of it.
        ensures left { GivesLeft (left_to_come R.remaining self.old) (left_to_come R.remaining self.new)
            (skipped_of self.new) (answer_with result place.new) }
        // A refusal is the first that was to come, and the others come behind it.
        ensures stops { WhereReading (standing_of self.old) (StopsBefore R.remaining (refusals_to_come R.remaining self.old)
            self.new (answer_with result place.new)) }
        // The lines that were counted are taken off those that were ahead; a refused one is the next then, and its first bytes are fetched.
        ensures ahead { WhereReading (standing_of self.old) (TakesLines R.remaining self.old self.new (answer_with result place.new)) }
        // No line that was accepted is taken back.
        ensures onward { lines_of self.old ≤ lines_of self.new }
        // Where no record is answered the place stays as it was.
        ensures kept { KeepsUnanswered result place.old place.new }
    {
        match self.standing {
            Standing::Reading => self.read_on(place),
            Standing::Ended => Ok(None),
            Standing::Stopped(stop) => Err(stop),
        }
    }

    // Whether it stopped at a refused line that it can pass over.
    fn is_passable(&self) -> bool
        ensures { result ≡ is_passable (standing_of self.now) (lines_of self.now) (judged_of self.now) }
    {
        match self.standing {
            Standing::Stopped(ReadStop::Refused { .. }) => {
                self.judged == self.lines && self.lines < MAX_LINES
            }
            Standing::Reading | Standing::Ended | Standing::Stopped(ReadStop::Device) => false,
        }
    }

    /// Passes over the refused line at which [`RecordReader::read_next`] stopped, as over an empty one: it counts as a line that
    /// is passed over, of any length, and the reader reads on behind it.
    ///
    /// `false` says that it stands at none, or at one that would be refused if it were empty, as one beyond the greatest
    /// number is, or at one that [`RecordReader::next_refusal`] gave; then nothing changes. A read that fails, an
    /// interrupted one too, is answered as [`RefusalStop::Device`].
    pub fn pass_refused(&mut self) -> Result<bool, RefusalStop>
        // What is left without refused lines is still to come, and so are the refusals behind this one.
        ensures passes { MayPass R.remaining self.old self.new result }
        // `Device` is answered where a read failed in this call, and nowhere else.
        ensures failures { CountsSkip (R.failure_count (source_of self.old)) (R.failure_count (source_of self.new)) result }
        // Its source is the one that it was.
        ensures same_reference { R.reference (source_of self.new) ≡ R.reference (source_of self.old) }
    {
        if !self.is_passable() {
            return Ok(false);
        }
        match skip_line(&mut self.buffer, &mut self.source) {
            Ok(()) => {
                self.lines += 1;
                self.skipped += 1;
                self.standing = Standing::Reading;
                Ok(true)
            }
            Err(RefusalStop::Device) => {
                self.standing = Standing::Stopped(ReadStop::Device);
                Err(RefusalStop::Device)
            }
            Err(RefusalStop::Endless) => {
                // What is left are bytes of this line, which nothing more may be told of.
                self.judged = u64::MAX;
                Err(RefusalStop::Endless)
            }
        }
    }

    /// The first bytes of the refused line at which [`RecordReader::read_next`] stopped, 1,024 at most.
    pub fn refused_line(&self) -> &[u8]
        ensures { result.now ≡ front_of (pending_of self.now) }
    {
        let bytes = self.buffer.bytes();
        let shown = &bytes[..MAX_LINE_BYTES.min(bytes.len())];
        match memchr(b'\n', shown) {
            Some(len) => &shown[..len],
            None => shown,
        }
    }

    /// The next record with its line's number, counted from 1, or `None` at the end of the text.
    ///
    /// Lines that are empty or of a type that isn't read are passed over and counted. The first line that is refused
    /// is answered as [`ReadStop::Refused`], and a read that fails, an interrupted one too, as [`ReadStop::Device`].
    /// After any of these and after the end, each later call answers the same and reads nothing.
    pub fn next_record(&mut self) -> Result<Option<(u64, Record)>, ReadStop>
        // The first entry of what was to come, or its end, or its refusal.
        ensures gives { Gives (outcome R.remaining self.old) (outcome R.remaining self.new) (skipped_of self.new)
            result }
        // An end or a stop is answered again and again, and nothing is read any more.
        ensures settles { Settles (standing_of self.new) result }
        ensures repeats { Repeats (standing_of self.old) self.old self.new result }
        // The numbers of lines, and how many were passed over.
        ensures counts { WhereReading (standing_of self.old)
            (CountsAnswer (lines_of self.old) (skipped_of self.old) (lines_of self.new) (skipped_of self.new) result) }
        // `Device` is answered where a read failed in this call, and nowhere else.
        ensures failures { TellsFailure (standing_of self.old) (R.failure_count (source_of self.old))
            (R.failure_count (source_of self.new)) result }
        // The lines that were counted are taken off those that were ahead; a refused one is the next then, and its first bytes are fetched.
        ensures ahead { WhereReading (standing_of self.old) (TakesLines R.remaining self.old self.new result) }
        // Its source is the one that it was.
        ensures same_reference { R.reference (source_of self.new) ≡ R.reference (source_of self.old) }
        // With `Device`, the lines that were accepted are those whose line feed was read.
        ensures whole_lines { WhereReading (standing_of self.old) (FailsWhole R.remaining self.old self.new result) }
        // No line that is refused is lost: the one at which it stops is still to come, and so are those behind it.
        ensures refusals { KeepsRefusals (refusals_to_come R.remaining self.old)
            (refusals_to_come R.remaining self.new) }
        // The first entry of what is left without refused lines, or its end; a refused line takes nothing of it.
        ensures left { GivesLeft (left_to_come R.remaining self.old) (left_to_come R.remaining self.new)
            (skipped_of self.new) result }
        // A refusal is the first that was to come, and the others come behind it.
        ensures stops { WhereReading (standing_of self.old) (StopsBefore R.remaining (refusals_to_come R.remaining self.old)
            self.new result) }
        // No line that was accepted is taken back.
        ensures onward { lines_of self.old ≤ lines_of self.new }
    {
        let mut record = NO_RECORD;
        let answer = self.read_next(&mut record);
        with_record(answer, record)
    }

    // Judges on behind the lines that were judged, up to a line that is refused.
    fn search_on(&mut self) -> Result<Option<Refusal>, RefusalStop>
        ensures finds { Finds R.remaining R.failure_count self.old self.new result }
        ensures same_reference { R.reference (source_of self.new) ≡ R.reference (source_of self.old) }
    {
        'lines: loop {
            if self.judged == u64::MAX {
                return Err(RefusalStop::Endless);
            }
            let line = self.judged + 1;
            match take_line(&mut self.buffer, &mut self.source, &self.layout, line) {
                Taken::Line(cause) => {
                    self.judged = line;
                    if let Some(cause) = cause {
                        self.standing = Standing::Stopped(ReadStop::Refused { line, cause });
                        return Ok(Some(Refusal { line, cause }));
                    }
                }
                Taken::End => {
                    self.standing = Standing::Ended;
                    return Ok(None);
                }
                Taken::Stopped(RefusalStop::Device) => {
                    self.standing = Standing::Stopped(ReadStop::Device);
                    return Err(RefusalStop::Device);
                }
                Taken::Stopped(RefusalStop::Endless) => {
                    // What is left are bytes of this line, which nothing more may be told of.
                    let cause = long_line_cause(line);
                    self.standing = Standing::Stopped(ReadStop::Refused { line, cause });
                    self.judged = u64::MAX;
                    return Err(RefusalStop::Endless);
                }
            }
        }
    }

    /// The next line that is refused, or `None` at the end of the text: the one at which the reader stopped, and then
    /// those behind it, whatever stands between them. A line may be of any length.
    ///
    /// The other lines are judged and left: from the first call on no more records are read. A read that fails, an
    /// interrupted one too, is answered as [`RefusalStop::Device`]. After that and after the end, each later call
    /// answers the same and reads nothing.
    pub fn next_refusal(&mut self) -> Result<Option<Refusal>, RefusalStop>
        // The first of the refusals that were to come, or their end.
        ensures gives { GivesRefusal (refusals_to_come R.remaining self.old) (refusals_to_come R.remaining self.new)
            result }
        ensures settles { SettlesSearch (standing_of self.new) result }
        // An end or a failed read is answered again and again, and nothing is read any more.
        ensures repeats { RepeatsSearch (standing_of self.old) self.old self.new result }
        // `Device` is answered where a read failed in this call, and nowhere else.
        ensures failures { TellsFailed (standing_of self.old) (R.failure_count (source_of self.old))
            (R.failure_count (source_of self.new)) result }
        // `Endless` is answered of no text that has an end within 2^64 - 1 bytes.
        ensures endless { goes_on (standing_of self.old) ≡ true →
            GivesUp (extent R.remaining self.old) (extent R.remaining self.new) result }
        // Its source is the one that it was.
        ensures same_reference { R.reference (source_of self.new) ≡ R.reference (source_of self.old) }
    {
        match self.standing {
            Standing::Reading => {
                self.judged = self.lines;
                self.search_on()
            }
            Standing::Stopped(ReadStop::Refused { .. }) => self.search_on(),
            Standing::Ended => Ok(None),
            Standing::Stopped(ReadStop::Device) => Err(RefusalStop::Device),
        }
    }
}
