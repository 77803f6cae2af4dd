//! Which columns hold which field.

ghost use Rattle.tl_record.specs.Layout.{tiger_2006, layout_with, sides_with, sides_tlid, sides_cells};
ghost use Rattle.tl_record.specs.Layout.{tiger_2006_chain, tiger_2006_shape, tiger_2006_key, tiger_2006_poly_point};
ghost use Rattle.tl_record.specs.Layout.{tiger_2006_landmark, tiger_2006_area_link, landmarks_with};
ghost use Rattle.std.specs.Prelude.{◌≡◌};
ghost use Rattle.tl_record.specs.Range.{columns, IsRange};

use crate::columns::{ColumnRange, FiveColumns};
use crate::options::Options;
use crate::record::PAIRS;

/// Where a point's longitude and latitude stand.
#[derive(Clone, Copy)]
pub struct PointColumns {
    pub long: ColumnRange,
    pub lat: ColumnRange,
}

/// The columns of type 1, complete chains.
#[derive(Clone, Copy)]
pub struct ChainColumns {
    pub tlid: ColumnRange,
    pub from: PointColumns,
    pub to: PointColumns,
}

/// The columns of type 2, shape points of chains.
#[derive(Clone, Copy)]
pub struct ShapeColumns {
    pub tlid: ColumnRange,
    pub rtsq: ColumnRange,
    pub pairs: [PointColumns; PAIRS],
}

/// Where a polygon's CENID and POLYID stand.
#[derive(Clone, Copy)]
pub struct KeyColumns {
    pub cenid: FiveColumns,
    pub polyid: ColumnRange,
}

/// Where the zero-cell ids of a chain's start and its end stand.
#[derive(Clone, Copy)]
pub struct CellColumns {
    pub start: ColumnRange,
    pub end: ColumnRange,
}

/// The columns of type I, the polygons on both sides of a chain. `cells` is `None` where the zero-cell ids aren't read.
#[derive(Clone, Copy)]
pub struct SidesColumns {
    pub tlid: ColumnRange,
    pub cells: Option<CellColumns>,
    pub left: KeyColumns,
    pub right: KeyColumns,
}

/// The columns of type P, polygons with their internal points.
#[derive(Clone, Copy)]
pub struct PolyPointColumns {
    pub key: KeyColumns,
    pub point: PointColumns,
}

/// The columns of type 7, landmarks.
#[derive(Clone, Copy)]
pub struct LandmarkColumns {
    pub land: ColumnRange,
    pub point: PointColumns,
}

/// The columns of type 8, polygons of area landmarks.
#[derive(Clone, Copy)]
pub struct AreaLinkColumns {
    pub key: KeyColumns,
    pub land: ColumnRange,
}

/// The columns of types 7 and 8, landmarks and the polygons that belong to them.
#[derive(Clone, Copy)]
pub struct LandmarksColumns {
    pub landmark: LandmarkColumns,
    pub area_link: AreaLinkColumns,
}

/// Which columns hold the fields of each record type that is read. `landmarks` is `None` where types 7 and 8 aren't read.
#[derive(Clone, Copy)]
pub struct Layout {
    pub chain: ChainColumns,
    pub shape: ShapeColumns,
    pub sides: SidesColumns,
    pub poly_point: PolyPointColumns,
    pub landmarks: Option<LandmarksColumns>,
    /// Whether chains that two counties tell are joined.
    pub joins: bool,
    /// Whether records of each of the types 1, I and P are asked for.
    pub complete: bool,
}

fn point_columns(long_first: u16, long_last: u16, lat_first: u16, lat_last: u16) -> PointColumns
    requires long { IsRange (columns long_first long_last) }
    requires lat { IsRange (columns lat_first lat_last) }
    ensures { result ≡ record { long = columns long_first long_last; lat = columns lat_first lat_last } }
{
    PointColumns {
        long: ColumnRange::new(long_first, long_last),
        lat: ColumnRange::new(lat_first, lat_last),
    }
}

fn tiger_2006_chain() -> ChainColumns
    ensures { result ≡ tiger_2006_chain }
{
    ChainColumns {
        tlid: ColumnRange::new(6, 15),
        from: point_columns(191, 200, 201, 209),
        to: point_columns(210, 219, 220, 228),
    }
}

fn tiger_2006_shape() -> ShapeColumns
    ensures { result ≡ tiger_2006_shape }
{
    ShapeColumns {
        tlid: ColumnRange::new(6, 15),
        rtsq: ColumnRange::new(16, 18),
        pairs: [
            point_columns(19, 28, 29, 37),
            point_columns(38, 47, 48, 56),
            point_columns(57, 66, 67, 75),
            point_columns(76, 85, 86, 94),
            point_columns(95, 104, 105, 113),
            point_columns(114, 123, 124, 132),
            point_columns(133, 142, 143, 151),
            point_columns(152, 161, 162, 170),
            point_columns(171, 180, 181, 189),
            point_columns(190, 199, 200, 208),
        ],
    }
}

fn sides_tlid(options: Options) -> ColumnRange
    ensures { result ≡ sides_tlid options }
{
    if options.released {
        ColumnRange::new(11, 20)
    } else {
        ColumnRange::new(6, 15)
    }
}

fn sides_cells(options: Options) -> Option<CellColumns>
    ensures { result ≡ sides_cells options }
{
    if !options.zero_cells {
        return None;
    }
    Some(CellColumns {
        start: ColumnRange::new(21, 30),
        end: ColumnRange::new(31, 40),
    })
}

fn sides_with(options: Options) -> SidesColumns
    ensures { result ≡ sides_with options }
{
    SidesColumns {
        tlid: sides_tlid(options),
        cells: sides_cells(options),
        left: KeyColumns {
            cenid: FiveColumns::new(41),
            polyid: ColumnRange::new(46, 55),
        },
        right: KeyColumns {
            cenid: FiveColumns::new(56),
            polyid: ColumnRange::new(61, 70),
        },
    }
}

fn tiger_2006_key() -> KeyColumns
    ensures { result ≡ tiger_2006_key }
{
    KeyColumns {
        cenid: FiveColumns::new(11),
        polyid: ColumnRange::new(16, 25),
    }
}

fn tiger_2006_poly_point() -> PolyPointColumns
    ensures { result ≡ tiger_2006_poly_point }
{
    PolyPointColumns {
        key: tiger_2006_key(),
        point: point_columns(26, 35, 36, 44),
    }
}

fn tiger_2006_landmark() -> LandmarkColumns
    ensures { result ≡ tiger_2006_landmark }
{
    LandmarkColumns {
        land: ColumnRange::new(11, 20),
        point: point_columns(55, 64, 65, 73),
    }
}

fn tiger_2006_area_link() -> AreaLinkColumns
    ensures { result ≡ tiger_2006_area_link }
{
    AreaLinkColumns {
        key: tiger_2006_key(),
        land: ColumnRange::new(26, 35),
    }
}

fn landmarks_with(options: Options) -> Option<LandmarksColumns>
    ensures { result ≡ landmarks_with options }
{
    if options.join {
        return None;
    }
    Some(LandmarksColumns {
        landmark: tiger_2006_landmark(),
        area_link: tiger_2006_area_link(),
    })
}

/// The column table of the TIGER/Line files of 2006, in this project's own profile of the documentation, with what the
/// options choose of type I, and without types 7 and 8 where counties are joined.
pub fn layout_with(options: Options) -> Layout
    ensures { result ≡ layout_with options }
{
    Layout {
        chain: tiger_2006_chain(),
        shape: tiger_2006_shape(),
        sides: sides_with(options),
        poly_point: tiger_2006_poly_point(),
        landmarks: landmarks_with(options),
        joins: options.join,
        complete: options.complete,
    }
}

/// The column table where nothing is chosen: `layout_with(Options::default())`.
pub fn tiger_2006() -> Layout
    ensures { result ≡ tiger_2006 }
{
    layout_with(Options::default())
}
