//! What a line means.

ghost use Rattle.std.specs.Prelude.{◌≡◌, ◌+◌, ◌≤◌, ◌<◌, OnErr};
ghost use Rattle.tl_record.specs.Lines.{content};
ghost use Rattle.tl_record.specs.Judgement.{judgement, content_judgement, chain_record, shape_record, sides_record};
ghost use Rattle.tl_record.specs.Judgement.{poly_point_record, landmark_record, area_link_record, shape_pairs};
ghost use Rattle.tl_record.specs.Judgement.{sequence_number, judged, landmarks_judgement};
ghost use Rattle.tl_record.specs.Meaning.{with_record, judgement_with, KeepsUnread};

use crate::columns::Columns;
use crate::field::{
    cells_at, key_at, number_at, optional_point_at, point_at, shape_pair_at, side_at,
};
use crate::layout::{
    AreaLinkColumns, ChainColumns, LandmarkColumns, LandmarksColumns, Layout, PointColumns,
    PolyPointColumns, ShapeColumns, SidesColumns,
};
use crate::record::{NO_RECORD, PAIRS, Record};
use crate::stop::{Cause, Field};
use tl_geom::Point;

/// The greatest number of lines of a text.
pub const MAX_LINES: u64 = 67_108_864;

/// The greatest number of bytes of a line before its line feed, a carriage return counted.
pub const MAX_LINE_BYTES: usize = 1_024;

/// What a line with its number means.
#[derive(Clone, Copy)]
pub enum Judgement {
    /// It is empty, or of a type that isn't read.
    PassedOver,
    /// It holds this record.
    Read(Record),
    /// It is refused.
    Refused(Cause),
}

/// What a line means, where the record that it may hold stands in a place of the caller's: a record takes many times as
/// many bytes, which would be copied at each return.
#[derive(Clone, Copy)]
pub(crate) enum Meaning {
    /// It is empty, or of a type that isn't read.
    PassedOver,
    /// It holds the record that was put into the caller's place.
    Read,
    /// It is refused.
    Refused(Cause),
}

/// A raw line without one carriage return at its end.
fn content(raw: &[u8]) -> &[u8]
    ensures { result.now ≡ content raw.now }
{
    let end = raw.len().saturating_sub(1);
    if raw.is_empty() || raw[end] != b'\r' {
        return raw;
    }
    &raw[..end]
}

#[tactic(auto, unfolding(crate::specs::Judgement::chain_record))]
fn read_chain(columns: &ChainColumns, line: &Columns<'_>, place: &mut Record) -> Result<(), Cause>
    ensures read { with_record result place.new ≡ chain_record columns.now line.now }
    ensures kept { OnErr result (place.new ≡ place.old) }
{
    let tlid = number_at(Field::Tlid, columns.tlid, line)?;
    let from = point_at(Field::FrLong, Field::FrLat, &columns.from, line)?;
    let to = point_at(Field::ToLong, Field::ToLat, &columns.to, line)?;
    *place = Record::Chain { tlid, from, to };
    Ok(())
}

fn sequence_number(number: u64) -> Result<u16, Cause>
    ensures { result ≡ sequence_number number }
{
    if number <= u64::from(u16::MAX) {
        Ok(number as u16)
    } else {
        Err(Cause::BadField(Field::Rtsq))
    }
}

#[tactic(auto, unfolding(crate::specs::Judgement::shape_record))]
fn read_shape(columns: &ShapeColumns, line: &Columns<'_>, place: &mut Record) -> Result<(), Cause>
    ensures read { with_record result place.new ≡ shape_record columns.now line.now }
    ensures kept { OnErr result (place.new ≡ place.old) }
{
    let tlid = number_at(Field::Tlid, columns.tlid, line)?;
    let number = number_at(Field::Rtsq, columns.rtsq, line)?;
    let rtsq = sequence_number(number)?;
    let pairs = shape_pairs(&columns.pairs, line)?;
    *place = Record::Shape { tlid, rtsq, pairs };
    Ok(())
}

fn shape_pairs(
    columns: &[PointColumns; PAIRS],
    line: &Columns<'_>,
) -> Result<[Option<Point>; PAIRS], Cause>
    ensures { result ≡ shape_pairs 1 columns.now line.now }
{
    let mut pairs = [None; PAIRS];
    for index in 0..PAIRS {
        pairs[index] = shape_pair_at(index as u8 + 1, &columns[index], line)?;
    }
    Ok(pairs)
}

#[tactic(auto, unfolding(crate::specs::Judgement::sides_record))]
fn read_sides(columns: &SidesColumns, line: &Columns<'_>, place: &mut Record) -> Result<(), Cause>
    ensures read { with_record result place.new ≡ sides_record columns.now line.now }
    ensures kept { OnErr result (place.new ≡ place.old) }
{
    let tlid = number_at(Field::Tlid, columns.tlid, line)?;
    let (start_cell, end_cell) = cells_at(columns.cells, line)?;
    let left = side_at(Field::CenidL, Field::PolyidL, &columns.left, line)?;
    let right = side_at(Field::CenidR, Field::PolyidR, &columns.right, line)?;
    *place = Record::Sides {
        tlid,
        start_cell,
        end_cell,
        left,
        right,
    };
    Ok(())
}

#[tactic(auto, unfolding(crate::specs::Judgement::poly_point_record))]
fn read_poly_point(
    columns: &PolyPointColumns,
    line: &Columns<'_>,
    place: &mut Record,
) -> Result<(), Cause>
    ensures read { with_record result place.new ≡ poly_point_record columns.now line.now }
    ensures kept { OnErr result (place.new ≡ place.old) }
{
    let key = key_at(Field::Cenid, Field::Polyid, &columns.key, line)?;
    let point = point_at(Field::PolyLong, Field::PolyLat, &columns.point, line)?;
    *place = Record::PolyPoint { key, point };
    Ok(())
}

#[tactic(auto, unfolding(crate::specs::Judgement::landmark_record))]
fn read_landmark(
    columns: &LandmarkColumns,
    line: &Columns<'_>,
    place: &mut Record,
) -> Result<(), Cause>
    ensures read { with_record result place.new ≡ landmark_record columns.now line.now }
    ensures kept { OnErr result (place.new ≡ place.old) }
{
    let land = number_at(Field::Land, columns.land, line)?;
    let point = optional_point_at(Field::LaLong, Field::LaLat, &columns.point, line)?;
    *place = Record::Landmark { land, point };
    Ok(())
}

#[tactic(auto, unfolding(crate::specs::Judgement::area_link_record))]
fn read_area_link(
    columns: &AreaLinkColumns,
    line: &Columns<'_>,
    place: &mut Record,
) -> Result<(), Cause>
    ensures read { with_record result place.new ≡ area_link_record columns.now line.now }
    ensures kept { OnErr result (place.new ≡ place.old) }
{
    let key = key_at(Field::Cenid, Field::Polyid, &columns.key, line)?;
    let land = number_at(Field::Land, columns.land, line)?;
    *place = Record::AreaLink { key, land };
    Ok(())
}

fn meaning_of(read: Result<(), Cause>) -> Meaning
    ensures judged { (r : Record) → judgement_with result r ≡ judged (with_record read r) }
    ensures kept { (old new : Record) → OnErr read (new ≡ old) → KeepsUnread result old new }
{
    match read {
        Ok(()) => Meaning::Read,
        Err(cause) => Meaning::Refused(cause),
    }
}

fn judge_content(layout: &Layout, content: &[u8], place: &mut Record) -> Meaning
    ensures judged { judgement_with result place.new ≡ content_judgement layout.now content.now }
    ensures kept { KeepsUnread result place.old place.new }
{
    let line = Columns::new(content);
    match content {
        [b'1', ..] => meaning_of(read_chain(&layout.chain, &line, place)),
        [b'2', ..] => meaning_of(read_shape(&layout.shape, &line, place)),
        [b'I', ..] => meaning_of(read_sides(&layout.sides, &line, place)),
        [b'P', ..] => meaning_of(read_poly_point(&layout.poly_point, &line, place)),
        [kind, ..] => judge_landmarks(&layout.landmarks, *kind, &line, place),
        [] => Meaning::PassedOver,
    }
}

// What a line of type 7 or 8, or of a type that isn't read, means.
fn judge_landmarks(
    columns: &Option<LandmarksColumns>,
    kind: u8,
    line: &Columns<'_>,
    place: &mut Record,
) -> Meaning
    ensures judged { judgement_with result place.new ≡ landmarks_judgement columns.now kind line.now }
    ensures kept { KeepsUnread result place.old place.new }
{
    let Some(columns) = columns else {
        return Meaning::PassedOver;
    };
    match kind {
        b'7' => meaning_of(read_landmark(&columns.landmark, line, place)),
        b'8' => meaning_of(read_area_link(&columns.area_link, line, place)),
        _ => Meaning::PassedOver,
    }
}

/// What a raw line, which stands without its line feed, means under its number, counted from 1. A record that it holds
/// is put into `place`, which otherwise stays as it is.
pub(crate) fn judge_into(layout: &Layout, number: u64, raw: &[u8], place: &mut Record) -> Meaning
    ensures judged { judgement_with result place.new ≡ judgement layout.now number raw.now }
    ensures kept { KeepsUnread result place.old place.new }
{
    if number > MAX_LINES {
        return Meaning::Refused(Cause::TooManyLines);
    }
    if raw.len() > MAX_LINE_BYTES {
        return Meaning::Refused(Cause::LineTooLong);
    }
    judge_content(layout, content(raw), place)
}

/// What a raw line, which stands without its line feed, means under its number, counted from 1.
pub fn judge_line(layout: &Layout, number: u64, raw: &[u8]) -> Judgement
    // Its record, or that it is passed over, or the first cause for which it is refused.
    ensures { result ≡ judgement layout.now number raw.now }
{
    let mut record = NO_RECORD;
    match judge_into(layout, number, raw, &mut record) {
        Meaning::PassedOver => Judgement::PassedOver,
        Meaning::Read => Judgement::Read(record),
        Meaning::Refused(cause) => Judgement::Refused(cause),
    }
}
