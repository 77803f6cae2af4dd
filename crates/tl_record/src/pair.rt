//! A point's fields side by side, as the Census Bureau writes them: a longitude of ten columns, and a latitude of the nine behind it.

ghost use Rattle.std.specs.Prelude.{◌≡◌, ◌≤◌, ℕ, true, pos, length, take, drop, IfSome};
ghost use Rattle.tl_record.specs.Fields.{field, coordinate_spelt};

use crate::columns::Columns;
use crate::layout::PointColumns;
use crate::number::{Spelt, filled_spelt, is_plus_zero};

/// The bytes of a line from a point's longitude on, where its fields stand side by side and the line goes on behind them.
#[inline(always)]
fn pair_onward<'a>(columns: &PointColumns, line: &Columns<'a>) -> Option<&'a [u8]>
    ensures many { IfSome result (λ pair. 19 ≤ length pair.now) }
    ensures long { IfSome result (λ pair. field line.now columns.now.long ≡ take 10 pair.now) }
    ensures lat { IfSome result (λ pair. field line.now columns.now.lat ≡ take 9 (drop 10 pair.now)) }
{
    let (long, lat) = (columns.long, columns.lat);
    if long.width() != 10 || lat.width() != 9 {
        return None;
    }
    if usize::from(lat.first()) != usize::from(long.first()) + 10 {
        return None;
    }
    let Some(pair) = long.onward(line, 19) else {
        return None;
    };
    Some(pair)
}

/// The longitude and the latitude that fields side by side spell which are filled: a sign and digits in each. `None` says nothing.
#[inline(always)]
pub(crate) fn filled_pair_at(columns: &PointColumns, line: &Columns<'_>) -> Option<(i64, i64)>
    ensures long { IfSome result (λ pair. coordinate_spelt (field line.now columns.now.long) ≡ Spelt.Value pair.0) }
    ensures lat { IfSome result (λ pair. coordinate_spelt (field line.now columns.now.lat) ≡ Spelt.Value pair.1) }
{
    let Some(pair) = pair_onward(columns, line) else {
        return None;
    };
    let Some(long) = filled_spelt(&pair[..10]) else {
        return None;
    };
    let Some(lat) = filled_spelt(&pair[10..19]) else {
        return None;
    };
    Some((long, lat))
}

/// Whether fields side by side are zeros behind a plus, as those of a shape pair that isn't used. `false` says nothing.
#[inline(always)]
pub(crate) fn is_zero_pair_at(columns: &PointColumns, line: &Columns<'_>) -> bool
    ensures long { result ≡ true → coordinate_spelt (field line.now columns.now.long) ≡ Spelt.Value (pos 0) }
    ensures lat { result ≡ true → coordinate_spelt (field line.now columns.now.lat) ≡ Spelt.Value (pos 0) }
{
    match pair_onward(columns, line) {
        Some(pair) => is_plus_zero(&pair[..10]) && is_plus_zero(&pair[10..19]),
        None => false,
    }
}
