//! The columns of the field that a line is refused for.

ghost use Rattle.std.specs.Prelude.{◌≡◌, option_map};
ghost use Rattle.tl_record.specs.Layout.{layout_with};
ghost use Rattle.tl_record.specs.declared.stop.Field.TheVariants.{Long, Lat};
ghost use Rattle.tigertopo_faults.specs.Places.FieldColumns.{columns_of, range_of, chain_columns, shape_columns, cell_columns, sides_columns};
ghost use Rattle.tigertopo_faults.specs.Places.FieldColumns.{poly_point_columns, landmark_columns, area_link_columns, landmarks_columns};

use crate::places::field_columns::FieldColumns;
use tl_record::{
    AreaLinkColumns, CellColumns, ChainColumns, ColumnRange, Field, LandmarkColumns,
    LandmarksColumns, Layout, Options, PolyPointColumns, ShapeColumns, SidesColumns, layout_with,
};

/// The columns that a field has on a line whose first byte is `kind`, its record type, by the column table with these
/// options. A type that hasn't the field has none.
pub fn columns_of(options: Options, kind: u8, field: Field) -> Option<FieldColumns>
    ensures { option_map range_of result ≡ columns_of (layout_with options) kind field }
{
    match columns_by(&layout_with(options), kind, field) {
        Some(columns) => Some(FieldColumns {
            first: columns.first(),
            last: columns.last(),
        }),
        None => None,
    }
}

// The same by a column table.
fn columns_by(layout: &Layout, kind: u8, field: Field) -> Option<ColumnRange>
    ensures { result ≡ columns_of layout.now kind field }
{
    match kind {
        b'1' => of_chain(&layout.chain, field),
        b'2' => of_shape(&layout.shape, field),
        b'I' => of_sides(&layout.sides, field),
        b'P' => of_polygon(&layout.poly_point, field),
        _ => of_landmarks(&layout.landmarks, kind, field),
    }
}

// Type 1.
fn of_chain(columns: &ChainColumns, field: Field) -> Option<ColumnRange>
    ensures { result ≡ chain_columns columns.now field }
{
    match field {
        Field::Tlid => Some(columns.tlid),
        Field::FrLong => Some(columns.from.long),
        Field::FrLat => Some(columns.from.lat),
        Field::ToLong => Some(columns.to.long),
        Field::ToLat => Some(columns.to.lat),
        _ => None,
    }
}

// Type 2.
fn of_shape(columns: &ShapeColumns, field: Field) -> Option<ColumnRange>
    ensures { result ≡ shape_columns columns.now field }
{
    match field {
        Field::Tlid => Some(columns.tlid),
        Field::Rtsq => Some(columns.rtsq),
        Field::Long(pair) => of_long(columns, pair),
        Field::Lat(pair) => of_lat(columns, pair),
        _ => None,
    }
}

// The longitude of a shape pair, by the pair's number from 1.
fn of_long(columns: &ShapeColumns, pair: u8) -> Option<ColumnRange>
    ensures { result ≡ shape_columns columns.now (Long pair) }
{
    if pair == 0 {
        return None;
    }
    match columns.pairs.get(usize::from(pair) - 1) {
        Some(point) => Some(point.long),
        None => None,
    }
}

// The latitude of a shape pair.
fn of_lat(columns: &ShapeColumns, pair: u8) -> Option<ColumnRange>
    ensures { result ≡ shape_columns columns.now (Lat pair) }
{
    if pair == 0 {
        return None;
    }
    match columns.pairs.get(usize::from(pair) - 1) {
        Some(point) => Some(point.lat),
        None => None,
    }
}

// Type I.
fn of_sides(columns: &SidesColumns, field: Field) -> Option<ColumnRange>
    ensures { result ≡ sides_columns columns.now field }
{
    match field {
        Field::Tlid => Some(columns.tlid),
        Field::CenidL => Some(columns.left.cenid.range()),
        Field::PolyidL => Some(columns.left.polyid),
        Field::CenidR => Some(columns.right.cenid.range()),
        Field::PolyidR => Some(columns.right.polyid),
        other => of_cells(columns.cells, other),
    }
}

// The zero-cell ids of type I, where they are read.
fn of_cells(columns: Option<CellColumns>, field: Field) -> Option<ColumnRange>
    ensures { result ≡ cell_columns columns field }
{
    match (columns, field) {
        (Some(cells), Field::Tzids) => Some(cells.start),
        (Some(cells), Field::Tzide) => Some(cells.end),
        _ => None,
    }
}

// Type P.
fn of_polygon(columns: &PolyPointColumns, field: Field) -> Option<ColumnRange>
    ensures { result ≡ poly_point_columns columns.now field }
{
    match field {
        Field::Cenid => Some(columns.key.cenid.range()),
        Field::Polyid => Some(columns.key.polyid),
        Field::PolyLong => Some(columns.point.long),
        Field::PolyLat => Some(columns.point.lat),
        _ => None,
    }
}

// Types 7 and 8, where they are read.
fn of_landmarks(columns: &Option<LandmarksColumns>, kind: u8, field: Field) -> Option<ColumnRange>
    ensures { result ≡ landmarks_columns columns.now kind field }
{
    let Some(columns) = columns else {
        return None;
    };
    match kind {
        b'7' => of_landmark(&columns.landmark, field),
        b'8' => of_link(&columns.area_link, field),
        _ => None,
    }
}

// Type 7.
fn of_landmark(columns: &LandmarkColumns, field: Field) -> Option<ColumnRange>
    ensures { result ≡ landmark_columns columns.now field }
{
    match field {
        Field::Land => Some(columns.land),
        Field::LaLong => Some(columns.point.long),
        Field::LaLat => Some(columns.point.lat),
        _ => None,
    }
}

// Type 8.
fn of_link(columns: &AreaLinkColumns, field: Field) -> Option<ColumnRange>
    ensures { result ≡ area_link_columns columns.now field }
{
    match field {
        Field::Cenid => Some(columns.key.cenid.range()),
        Field::Polyid => Some(columns.key.polyid),
        Field::Land => Some(columns.land),
        _ => None,
    }
}
