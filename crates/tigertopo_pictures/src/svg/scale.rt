//! The scale of a picture.

ghost use Rattle.std.specs.Prelude.{◌≡◌, ◌≤◌, ◌^◌};
ghost use Rattle.tigertopo_pictures.specs.Svg.Texts.{scale_of, metres_text, scale_tenths, scale_line, scale_part};

use crate::svg::frame::Frame;
use tl_cert_output::Page;

// How long the line may be that shows a scale, in hundredths of a metre.
const SCALES: [u32; 26] = [
    500_000_000,
    200_000_000,
    100_000_000,
    50_000_000,
    20_000_000,
    10_000_000,
    5_000_000,
    2_000_000,
    1_000_000,
    500_000,
    200_000,
    100_000,
    50_000,
    20_000,
    10_000,
    5_000,
    2_000,
    1_000,
    500,
    200,
    100,
    50,
    20,
    10,
    5,
    2,
];

/// Prints a line of a round length in metres, and how long it is.
pub fn print_scale<P: Page>(frame: Frame, page: &mut P)
    ensures { P.adds page.old page.new (scale_part frame) }
{
    print_scale_line(frame, scale_of(frame.side(), &SCALES), page);
}

// The first of these that is at most a quarter of the longer side, or else 1.
fn scale_of(longer: u64, scales: &[u32]) -> u32
    ensures { result ≡ scale_of longer scales.now }
{
    for length in scales {
        if 3_600 * u64::from(*length) <= longer {
            return *length;
        }
    }
    1
}

// Prints a line of so many hundredths of a metre, and how long it is.
fn print_scale_line<P: Page>(frame: Frame, length: u32, page: &mut P)
    ensures { P.adds page.old page.new (scale_line frame length) }
{
    let tenths = scale_tenths(frame, length);
    page.add(b"<path class=\"scale\" d=\"M0 -240v80m0 -40h");
    page.number(tenths);
    page.add(b"m0 -40v80\"/><text x=\"");
    page.number(tenths + 100);
    page.add(b"\" y=\"-155\">");
    print_metres(length, page);
    page.add(b"</text>\n");
}

// How long a line of so many hundredths of a metre is, in tenths of a pixel.
fn scale_tenths(frame: Frame, length: u32) -> u64
    ensures value { result ≡ scale_tenths frame length }
    ensures bound { result ≤ 2 ^ 62 }
{
    8_820_000 * u64::from(length) / frame.side()
}

// Prints so many hundredths of a metre, with their unit.
fn print_metres<P: Page>(amount: u32, page: &mut P)
    ensures { P.adds page.old page.new (metres_text amount) }
{
    if amount >= 100_000 {
        page.number(amount / 100_000);
        page.add(b" km");
    } else if amount >= 100 {
        page.number(amount / 100);
        page.add(b" m");
    } else {
        page.number(amount);
        page.add(b" cm");
    }
}
