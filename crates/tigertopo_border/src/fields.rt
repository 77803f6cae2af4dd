//! Fields of records, each of so many columns.

ghost use Rattle.std.specs.Prelude.{◌≡◌, option_map, replicate};
ghost use Rattle.tigertopo_border.specs.Spelling.{blanks, filled, number_field, sign_text, coordinate_field};
ghost use Rattle.tigertopo_border.specs.Spelling.{point_fields, pair_fields, key_fields, side_fields};

use itoa::Buffer;
use tl_cert_output::Page;
use tl_geom::Point;
use tl_record_key::PolyKey;

/// Prints so many blanks.
pub fn print_blanks<P: Page>(count: usize, page: &mut P)
    ensures { P.adds page.old page.new (blanks count) }
{
    print_bytes(b' ', count, page);
}

/// Prints a number at the end of a field of so many columns, behind blanks.
pub fn print_number<P: Page>(width: usize, number: u64, page: &mut P)
    ensures { P.adds page.old page.new (number_field width number) }
{
    print_filled(b' ', width, number, page);
}

/// Prints a point: its longitude and its latitude.
pub fn print_point<P: Page>(point: Point, page: &mut P)
    ensures { P.adds page.old page.new (point_fields point) }
{
    print_coordinate(9, point.x, page);
    print_coordinate(8, point.y, page);
}

/// Prints a shape pair.
pub fn print_pair<P: Page>(pair: Option<Point>, page: &mut P)
    ensures { P.adds page.old page.new (pair_fields pair) }
{
    match pair {
        Some(point) => print_point(point, page),
        None => page.add(b"+000000000+00000000"),
    }
}

/// Prints a polygon's key.
pub fn print_key<P: Page>(key: PolyKey, page: &mut P)
    ensures { P.adds page.old page.new (key_fields key) }
{
    page.add(&key.cenid);
    print_number(10, key.polyid, page);
}

/// Prints what lies on a side.
pub fn print_side<P: Page>(key: Option<PolyKey>, page: &mut P)
    ensures { P.adds page.old page.new (side_fields key) }
{
    match key {
        Some(key) => print_key(key, page),
        None => print_blanks(15, page),
    }
}

// Prints a coordinate: its sign, and so many digits.
fn print_coordinate<P: Page>(digits: usize, value: i32, page: &mut P)
    ensures { P.adds page.old page.new (coordinate_field digits value) }
{
    page.add(sign_of(value));
    print_filled(b'0', digits, u64::from(value.unsigned_abs()), page);
}

// The sign of a coordinate.
fn sign_of<'a>(value: i32) -> &'a [u8]
    ensures { result.now ≡ sign_text value }
{
    if value < 0 { b"-" } else { b"+" }
}

// Prints a number at the end of a field, behind as many of these bytes as it leaves.
fn print_filled<P: Page>(byte: u8, width: usize, number: u64, page: &mut P)
    ensures { P.adds page.old page.new (filled byte width number) }
{
    let mut digits = Buffer::new();
    let text = digits.format(number);
    print_bytes(byte, width.saturating_sub(text.len()), page);
    page.add(text.as_bytes());
}

// Prints a byte so many times.
fn print_bytes<P: Page>(byte: u8, count: usize, page: &mut P)
    ensures { P.adds page.old page.new (replicate count byte) }
{
    for _ in 0..count {
        page.add(&[byte]);
    }
}
