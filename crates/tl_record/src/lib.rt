//! The records of a county's TIGER/Line files.
//!
//! A [`Source`] gives the bytes of a text in reads of any size and counts the reads that failed; a [`RecordReader`]
//! over it hands out the text's records one after the other, with their line numbers, up to the text's end or to the
//! first line that is refused, and from there, where it is asked for them, all lines that are refused. Which columns
//! each record type has is a value, [`Layout`], and what a line means is one definition over that value. Nothing here
//! takes memory.
#![tactic(auto)]

mod aligned;
mod answer;
mod columns;
mod fail_at;
mod fail_at_out;
mod field;
mod judge;
pub mod laws;
mod layout;
mod line_buffer;
mod meter;
mod number;
mod options;
mod pair;
mod printed;
mod reader;
mod record;
mod refusal;
mod sink;
mod source;
mod stop;
mod take;
mod word;

pub use columns::{ColumnRange, Columns, FiveColumns};
pub use fail_at::FailAt;
pub use fail_at_out::FailAtOut;
pub use field::{MAX_LATITUDE, MAX_LONGITUDE};
pub use judge::{Judgement, MAX_LINE_BYTES, MAX_LINES, judge_line};
pub use layout::{
    AreaLinkColumns, CellColumns, ChainColumns, KeyColumns, LandmarkColumns, LandmarksColumns,
    Layout, PointColumns, PolyPointColumns, ShapeColumns, SidesColumns, layout_with, tiger_2006,
};
pub use line_buffer::{Fetched, LineBuffer, fetch_line};
pub use meter::{Meter, MeterOut};
pub use number::{Spelt, coordinate_spelt};
pub use options::{Options, PLAIN};
pub use reader::RecordReader;
pub use record::{NO_RECORD, PAIRS, Record};
pub use refusal::{Refusal, RefusalStop};
pub use sink::Sink;
pub use source::Source;
pub use stop::{Cause, CauseRow, Field, ReadStop};
pub use take::skip_line;
pub use tl_record_key::PolyKey;
pub use word::{eight_digits, first_digits, leading_digits};
