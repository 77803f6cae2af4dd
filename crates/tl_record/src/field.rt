//! Reading a field of one kind.

ghost use Rattle.std.specs.Prelude.{◌≡◌, ◌≤◌, ◌<◌, ◌^◌, Ok, Some, IfSome, nat_le, unsigned_abs};
ghost use Rattle.tl_record.specs.declared.stop.Field.{Field};
ghost use Rattle.tl_record.specs.Fields.{field, is_cenid_byte, number_spelt, coordinate_spelt};
ghost use Rattle.std.specs.List.{list_all};
ghost use Rattle.tl_record.specs.Judgement.{required, number_at, coordinate, point, point_at, optional_point};
ghost use Rattle.tl_record.specs.Judgement.{optional_point_at, unless_zero, cenid_at, key_at, side_at, optional_id};
ghost use Rattle.tl_record.specs.Judgement.{id_at, cells_at, shape_pair_at};

use crate::aligned::aligned_number;
use crate::columns::{ColumnRange, Columns, FiveColumns};
use crate::layout::{CellColumns, KeyColumns, PointColumns};
use crate::number::{Spelt, coordinate_spelt, number_spelt};
use crate::pair::{filled_pair_at, is_zero_pair_at};
use crate::printed::five_printed;
use crate::stop::{Cause, Field};
use tl_geom::Point;
use tl_record_key::PolyKey;

/// The greatest distance of a longitude from 0, in millionths of a degree.
pub const MAX_LONGITUDE: u32 = 180_000_000;

/// The greatest distance of a latitude from 0, in millionths of a degree.
pub const MAX_LATITUDE: u32 = 90_000_000;

/// What a number's field spells.
#[inline(always)]
fn number_spelt_at(columns: ColumnRange, line: &Columns<'_>) -> Spelt<u64>
    ensures { result ≡ number_spelt (field line.now columns) }
{
    match aligned_number_at(columns, line) {
        Some(value) => Spelt::Value(value),
        None => trimmed_number_at(columns, line),
    }
}

/// What a number's field spells that may hold anything.
#[inline(never)]
fn trimmed_number_at(columns: ColumnRange, line: &Columns<'_>) -> Spelt<u64>
    ensures { result ≡ number_spelt (field line.now columns) }
{
    number_spelt(columns.of(line))
}

/// What a number's field spells that holds blanks and then digits, as most do. `None` says nothing.
#[inline(always)]
fn aligned_number_at(columns: ColumnRange, line: &Columns<'_>) -> Option<u64>
    ensures { IfSome result (λ value. number_spelt (field line.now columns) ≡ Spelt.Value value) }
{
    let width = columns.width();
    if width > 16 {
        return None;
    }
    match columns.onward(line, 16) {
        Some(rest) => aligned_number(rest, width),
        None => None,
    }
}

/// A field that has to be given, with the value that it spells.
fn required<T: Copy>(name: Field, spelt: Spelt<T>) -> Result<T, Cause>
    ensures { result ≡ required name spelt }
{
    match spelt {
        Spelt::Blank => Err(Cause::Missing(name)),
        Spelt::Value(value) => Ok(value),
        Spelt::Unreadable => Err(Cause::BadField(name)),
    }
}

/// A number that has to be given.
#[inline(always)]
pub(crate) fn number_at(name: Field, columns: ColumnRange, line: &Columns<'_>) -> Result<u64, Cause>
    ensures { result ≡ number_at name columns line.now }
{
    required(name, number_spelt_at(columns, line))
}

/// What a longitude's or a latitude's field spells.
fn coordinate_spelt_at(columns: ColumnRange, line: &Columns<'_>) -> Spelt<i64>
    ensures { result ≡ coordinate_spelt (field line.now columns) }
{
    coordinate_spelt(columns.of(line))
}

/// A coordinate that has to be given, and is at most `limit` from 0.
fn coordinate(name: Field, limit: u32, spelt: Spelt<i64>) -> Result<i32, Cause>
    requires { limit < 2 ^ 31 }
    ensures { result ≡ coordinate name limit spelt }
{
    let value = required(name, spelt)?;
    if value.unsigned_abs() <= u64::from(limit) {
        Ok(value as i32)
    } else {
        Err(Cause::OutOfRange(name))
    }
}

/// A point that has to be given: its longitude is tested first.
fn point(
    long_name: Field,
    lat_name: Field,
    long: Spelt<i64>,
    lat: Spelt<i64>,
) -> Result<Point, Cause>
    ensures { result ≡ point long_name lat_name long lat }
{
    let x = coordinate(long_name, MAX_LONGITUDE, long)?;
    let y = coordinate(lat_name, MAX_LATITUDE, lat)?;
    Ok(Point { x, y })
}

/// Is the coordinate at most `limit` from 0?
#[inline(always)]
fn is_within(value: i64, limit: u32) -> bool
    requires { limit < 2 ^ 31 }
    ensures { result ≡ nat_le (unsigned_abs value) limit }
{
    0 - i64::from(limit) <= value && value <= i64::from(limit)
}

/// A point whose fields stand side by side and are filled, and that is within its limits, as nearly all are. `None` says nothing.
#[inline(always)]
fn filled_point_at(columns: &PointColumns, line: &Columns<'_>) -> Option<Point>
    ensures required { IfSome result (λ p. (x y : Field) → point_at x y columns.now line.now ≡ Ok p) }
    ensures optional { IfSome result (λ p. (x y : Field) → optional_point_at x y columns.now line.now ≡ Ok (Some p)) }
{
    let Some((long, lat)) = filled_pair_at(columns, line) else {
        return None;
    };
    if !is_within(long, MAX_LONGITUDE) || !is_within(lat, MAX_LATITUDE) {
        return None;
    }
    Some(Point {
        x: long as i32,
        y: lat as i32,
    })
}

/// A point that has to be given.
#[inline(always)]
pub(crate) fn point_at(
    long_name: Field,
    lat_name: Field,
    columns: &PointColumns,
    line: &Columns<'_>,
) -> Result<Point, Cause>
    ensures { result ≡ point_at long_name lat_name columns.now line.now }
{
    match filled_point_at(columns, line) {
        Some(point) => Ok(point),
        None => point_by_fields(long_name, lat_name, columns, line),
    }
}

/// A point that has to be given, field by field.
#[inline(never)]
fn point_by_fields(
    long_name: Field,
    lat_name: Field,
    columns: &PointColumns,
    line: &Columns<'_>,
) -> Result<Point, Cause>
    ensures { result ≡ point_at long_name lat_name columns.now line.now }
{
    let long = coordinate_spelt_at(columns.long, line);
    let lat = coordinate_spelt_at(columns.lat, line);
    point(long_name, lat_name, long, lat)
}

/// A point that may be left out, by two blank fields.
#[inline(never)]
pub(crate) fn optional_point_at(
    long_name: Field,
    lat_name: Field,
    columns: &PointColumns,
    line: &Columns<'_>,
) -> Result<Option<Point>, Cause>
    ensures { result ≡ optional_point_at long_name lat_name columns.now line.now }
{
    let long = coordinate_spelt_at(columns.long, line);
    let lat = coordinate_spelt_at(columns.lat, line);
    if let (Spelt::Blank, Spelt::Blank) = (long, lat) {
        return Ok(None);
    }
    Ok(Some(point(long_name, lat_name, long, lat)?))
}

/// A shape pair, `None` where it isn't used. Most that aren't are zeros.
#[inline(always)]
pub(crate) fn shape_pair_at(
    number: u8,
    columns: &PointColumns,
    line: &Columns<'_>,
) -> Result<Option<Point>, Cause>
    ensures { result ≡ shape_pair_at number columns.now line.now }
{
    if is_zero_pair_at(columns, line) {
        return Ok(None);
    }
    if let Some(point) = filled_point_at(columns, line) {
        return Ok(unless_zero(Some(point)));
    }
    let pair = optional_point_at(Field::Long(number), Field::Lat(number), columns, line)?;
    Ok(unless_zero(pair))
}

/// A shape pair, unless both its fields read as 0.
#[inline(always)]
fn unless_zero(pair: Option<Point>) -> Option<Point>
    ensures { result ≡ unless_zero pair }
{
    match pair {
        Some(point) if point.x == 0 && point.y == 0 => None,
        other => other,
    }
}

fn is_cenid(bytes: &[u8]) -> bool
    ensures { result ≡ list_all is_cenid_byte bytes.now }
{
    bytes.iter().all(|byte| 0x20 <= *byte && *byte <= 0x7e)
}

/// The bytes of a CENID.
#[inline(always)]
fn cenid_at(name: Field, columns: FiveColumns, line: &Columns<'_>) -> Result<[u8; 5], Cause>
    ensures { result ≡ cenid_at name columns line.now }
{
    match printed_at(columns, line) {
        Some(bytes) => Ok(bytes),
        None => any_cenid_at(name, columns, line),
    }
}

/// The bytes of five columns that are those of a CENID, where the line goes on behind them. `None` says nothing.
#[inline(always)]
fn printed_at(columns: FiveColumns, line: &Columns<'_>) -> Option<[u8; 5]>
    ensures { IfSome result (λ bytes. (x : Field) → cenid_at x columns line.now ≡ Ok bytes) }
{
    let Some(rest) = columns.onward(line, 16) else {
        return None;
    };
    five_printed(rest)
}

/// The bytes of a CENID, whatever they are.
#[inline(never)]
fn any_cenid_at(name: Field, columns: FiveColumns, line: &Columns<'_>) -> Result<[u8; 5], Cause>
    ensures { result ≡ cenid_at name columns line.now }
{
    let bytes = columns.of(line);
    if is_cenid(&bytes) {
        Ok(bytes)
    } else {
        Err(Cause::BadField(name))
    }
}

/// A polygon's key, that has to be given: its CENID is tested first.
pub(crate) fn key_at(
    cenid_name: Field,
    polyid_name: Field,
    columns: &KeyColumns,
    line: &Columns<'_>,
) -> Result<PolyKey, Cause>
    ensures { result ≡ key_at cenid_name polyid_name columns.now line.now }
{
    let cenid = cenid_at(cenid_name, columns.cenid, line)?;
    let polyid = number_at(polyid_name, columns.polyid, line)?;
    Ok(PolyKey { cenid, polyid })
}

/// The polygon on one side of a chain. With a blank POLYID the side is outside, and its CENID isn't tested.
#[inline(always)]
pub(crate) fn side_at(
    cenid_name: Field,
    polyid_name: Field,
    columns: &KeyColumns,
    line: &Columns<'_>,
) -> Result<Option<PolyKey>, Cause>
    ensures { result ≡ side_at cenid_name polyid_name columns.now line.now }
{
    let spelt = number_spelt_at(columns.polyid, line);
    if let Spelt::Blank = spelt {
        return Ok(None);
    }
    let cenid = cenid_at(cenid_name, columns.cenid, line)?;
    let polyid = required(polyid_name, spelt)?;
    Ok(Some(PolyKey { cenid, polyid }))
}

fn optional_id(name: Field, spelt: Spelt<u64>) -> Result<Option<u64>, Cause>
    ensures { result ≡ optional_id name spelt }
{
    match spelt {
        Spelt::Blank | Spelt::Value(0) => Ok(None),
        Spelt::Value(id) => Ok(Some(id)),
        Spelt::Unreadable => Err(Cause::BadField(name)),
    }
}

/// A zero-cell id, where one is given: blanks are none, and neither is 0.
fn id_at(name: Field, columns: ColumnRange, line: &Columns<'_>) -> Result<Option<u64>, Cause>
    ensures { result ≡ id_at name columns line.now }
{
    optional_id(name, number_spelt_at(columns, line))
}

/// The zero-cell ids of a chain's start and its end. Without columns for them no byte is looked at.
pub(crate) fn cells_at(
    columns: Option<CellColumns>,
    line: &Columns<'_>,
) -> Result<(Option<u64>, Option<u64>), Cause>
    ensures { result ≡ cells_at columns line.now }
{
    let Some(cells) = columns else {
        return Ok((None, None));
    };
    let start = id_at(Field::Tzids, cells.start, line)?;
    let end = id_at(Field::Tzide, cells.end, line)?;
    Ok((start, end))
}
