//! Parts of a picture's text.

ghost use Rattle.std.specs.Prelude.{◌≡◌, pos, ◌+ℤ◌, ◌-ℤ◌};
ghost use Rattle.tigertopo_pictures.specs.Svg.Texts.{size_text, circle_head};
ghost use Rattle.tigertopo_pictures.specs.Svg.Colours.{hue};
ghost use Rattle.tigertopo_pictures.specs.Svg.Fills.{fill_head};
ghost use Rattle.tigertopo_pictures.specs.Svg.Texts.{closer, closer_text, is_eastern, west_label, east_label, label_head};

use crate::svg::frame::{Frame, Spot};
use tl_cert_output::Page;
use tl_geom::Point;

/// Prints how what has a colour begins.
pub fn print_fill_head<P: Page>(colour: u32, page: &mut P)
    ensures { P.adds page.old page.new (fill_head colour) }
{
    page.add(b"<path style=\"fill:hsl(");
    page.number(hue(colour));
    page.add(b",70%,88%)\" d=\"");
}

// The hue of a colour, in degrees.
fn hue(colour: u32) -> u64
    ensures { result ≡ hue colour }
{
    137 * u64::from(colour) % 360
}

/// Prints how the file begins: what it shows, in tenths of a pixel.
pub fn print_size<P: Page>(frame: Frame, page: &mut P)
    ensures { P.adds page.old page.new (size_text frame) }
{
    let side = frame.side();
    page.add(b"<svg xmlns=\"http://www.w3.org/2000/svg\" class=\"tigertopo\" viewBox=\"-100 -600 ");
    page.number(frame.reach_east() / side + 200);
    page.add(b" ");
    page.number(frame.reach_south() / side + 700);
    page.add(b"\" style=\"width:100%;height:auto\">\n");
}

/// Prints how the circle of a fault at a place begins.
pub fn print_circle_head<P: Page>(spot: Spot, page: &mut P)
    ensures { P.adds page.old page.new (circle_head spot) }
{
    page.add(b"<circle cx=\"");
    page.number(spot.x);
    page.add(b"\" cy=\"");
    page.number(spot.y);
    page.add(b"\" r=\"60\"><title>");
}

/// Prints what to type for a picture of a place by itself, behind a fault's title.
pub fn print_closer<P: Page>(frame: Frame, p: Point, page: &mut P)
    ensures { P.adds page.old page.new (closer_text frame p) }
{
    page.add(b"\n--at @");
    page.number(p.x);
    page.add(b",");
    page.number(p.y);
    page.add(b" --width ");
    page.number(closer(frame));
    page.add(b"</title></circle>");
}

// How wide a picture is that shows a place closer, in millionths of a degree.
fn closer(frame: Frame) -> u32
    ensures { result ≡ closer frame }
{
    (frame.wide.max(frame.high) / 10).max(2)
}

/// Prints how a fault's code beside its circle begins, where there is room for it.
pub fn print_label_head<P: Page>(frame: Frame, spot: Spot, page: &mut P)
    ensures { P.adds page.old page.new (label_head frame spot) }
{
    if is_eastern(frame, spot) {
        print_west_label(spot, page);
    } else {
        print_east_label(spot, page);
    }
}

// Whether a place lies less than forty pixels from the eastern border of what is shown.
fn is_eastern(frame: Frame, spot: Spot) -> bool
    ensures { result ≡ is_eastern frame spot }
{
    let border = i128::from(frame.reach_east() / frame.side());
    border < beyond(spot.x, 400)
}

// How a fault's code to the west of its circle begins.
fn print_west_label<P: Page>(spot: Spot, page: &mut P)
    ensures { P.adds page.old page.new (west_label spot) }
{
    page.add(b"<text class=\"code\" text-anchor=\"end\" x=\"");
    page.number(short_of(spot.x, 80));
    page.add(b"\" y=\"");
    page.number(beyond(spot.y, 45));
    page.add(b"\">");
}

// How one to the east of it begins.
fn print_east_label<P: Page>(spot: Spot, page: &mut P)
    ensures { P.adds page.old page.new (east_label spot) }
{
    page.add(b"<text class=\"code\" x=\"");
    page.number(beyond(spot.x, 80));
    page.add(b"\" y=\"");
    page.number(beyond(spot.y, 45));
    page.add(b"\">");
}

// A number, and so many more.
fn beyond(n: i64, more: u16) -> i128
    ensures { result ≡ n +ℤ pos more }
{
    i128::from(n) + i128::from(more)
}

// A number, and so many less.
fn short_of(n: i64, less: u16) -> i128
    ensures { result ≡ n -ℤ pos less }
{
    i128::from(n) - i128::from(less)
}
