//! The lines of chains.

ghost use Rattle.std.specs.Prelude.{◌≡◌, ◌+◌, ◌*◌, ◌≤◌, ◌++◌, drop, length};
ghost use Rattle.std.specs.Fmt.{signed_decimal};
ghost use Rattle.tigertopo_program.specs.Print.Printing.{point_text, points_text, chain_text, counts_text, shown_text};

use itoa::write_digits;
use tl_cert_output::Page;
use tl_geom::Point;
use tl_map_county::Chains;

// A blank, a comma, and two numbers with a sign and ten digits each.
const LONGEST_POINT: usize = 24;

// How many points are put together before they are added.
const TOGETHER: usize = 8;

const LONGEST_POINTS: usize = TOGETHER * LONGEST_POINT;

/// Prints a line for each chain and a line of counts.
pub fn print_chains<P: Page>(chains: &Chains, page: &mut P)
    ensures { P.adds page.old page.new (shown_text chains.now) }
{
    for chain in 0..chains.len() {
        print_chain(chains.tlid(chain), chains.points(chain), page);
    }
    print_counts(chains.len(), chains.segments(), chains.skipped(), page);
}

fn print_counts<P: Page>(chains: u32, segments: u32, skipped: u64, page: &mut P)
    ensures { P.adds page.old page.new (counts_text chains segments skipped) }
{
    page.add(b"chains=");
    page.number(chains);
    page.add(b" segments=");
    page.number(segments);
    page.add(b" skipped=");
    page.number(skipped);
    page.add(b"\n");
}

fn print_chain<P: Page>(tlid: u64, points: &[Point], page: &mut P)
    ensures { P.adds page.old page.new (chain_text (record { tlid = tlid; points = points.now })) }
{
    page.add(b"tlid ");
    page.number(tlid);
    let mut printed = 0;
    while points.len() - printed > TOGETHER {
        print_points(&points[printed..printed + TOGETHER], page);
        printed += TOGETHER;
    }
    print_points(&points[printed..], page);
    page.add(b"\n");
}

// Points one after the other, put together before they are added.
fn print_points<P: Page>(points: &[Point], page: &mut P)
    requires { length points.now ≤ 8 }
    ensures { P.adds page.old page.new (points_text points.now) }
{
    let mut text = [0; LONGEST_POINTS];
    let start = put_points(points, &mut text, LONGEST_POINTS);
    page.add(&text[start..]);
}

// Points one after the other, put so that they end at `end`. Gives where they start.
fn put_points(points: &[Point], text: &mut [u8], end: usize) -> usize
    requires room { 24 * length points.now ≤ end }
    requires within { end ≤ length text.old }
    ensures start { result ≤ end }
    ensures text { drop result text.new ≡ points_text points.now ++ drop end text.old }
{
    let mut start = end;
    let mut left = points.len();
    while left > 0 {
        left -= 1;
        start = put_point(points[left], text, start);
    }
    start
}

/// Prints a blank, the longitude, a comma and the latitude.
pub fn print_point<P: Page>(point: Point, page: &mut P)
    ensures { P.adds page.old page.new (point_text point) }
{
    let mut text = [0; LONGEST_POINT];
    let start = put_point(point, &mut text, LONGEST_POINT);
    page.add(&text[start..]);
}

// A blank, the longitude, a comma and the latitude, put so that they end at `end`. Gives where they start.
fn put_point(point: Point, text: &mut [u8], end: usize) -> usize
    requires room { 24 ≤ end }
    requires within { end ≤ length text.old }
    ensures start { (result ≤ end) × (end ≤ result + 24) }
    ensures text { drop result text.new ≡ point_text point ++ drop end text.old }
{
    let latitude = put_number(point.y, text, end);
    text[latitude - 1] = b',';
    let longitude = put_number(point.x, text, latitude - 1);
    text[longitude - 1] = b' ';
    longitude - 1
}

// A number with its sign, put so that it ends at `end`. Gives where it starts.
fn put_number(number: i32, text: &mut [u8], end: usize) -> usize
    requires room { 11 ≤ end }
    requires within { end ≤ length text.old }
    ensures start { (result ≤ end) × (end ≤ result + 11) }
    ensures text { drop result text.new ≡ signed_decimal number ++ drop end text.old }
{
    let start = write_digits(u64::from(number.unsigned_abs()), text, end);
    if number >= 0 {
        return start;
    }
    text[start - 1] = b'-';
    start - 1
}
