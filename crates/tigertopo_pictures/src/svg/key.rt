//! What the lines, dots and circles of a picture mean, and its scale.

ghost use Rattle.std.specs.Prelude.{if◌then◌else◌, []};
ghost use Rattle.tigertopo_pictures.specs.Svg.Texts.{chain_key, marks_key, faults_key, key_part};

use crate::svg::frame::Frame;
use crate::svg::picture::Picture;
use crate::svg::scale::print_scale;
use tl_cert_output::Page;
use tl_check_verdict::MapFault;

const CHAIN_KEY: &[u8] =
    b"<rect x=\"-100\" y=\"-600\" width=\"100%\" height=\"500\" fill=\"#fff\"/>\n\
<path class=\"chain\" d=\"M0 -430h250\"/><text x=\"300\" y=\"-385\">chain</text>\n";

const MARKS_KEY: &[u8] =
    b"<path class=\"node\" d=\"M1200 -430h0\"/><text x=\"1300\" y=\"-385\">node</text>\n\
<path class=\"point\" d=\"M2100 -430h0\"/><text x=\"2200\" y=\"-385\">polygon's point</text>\n";

const FAULTS_KEY: &[u8] =
    b"<path class=\"fault\" d=\"M4360 -430a60 60 0 1 0 120 0a60 60 0 1 0 -120 0\"/>\
<text x=\"4560\" y=\"-385\">fault</text>\n";

/// Prints what of these is in the picture, and its scale.
pub fn print_key<P: Page>(picture: Picture, faults: &[MapFault], page: &mut P)
    ensures { P.adds page.old page.new
        (key_part picture faults.now) }
{
    print_chain_key(page);
    print_marks_key(picture.is_marked, page);
    print_faults_key(!faults.is_empty(), page);
    print_scale(picture.frame, page);
}

// What the line of a chain is.
fn print_chain_key<P: Page>(page: &mut P)
    ensures { P.adds page.old page.new chain_key }
{
    page.add(CHAIN_KEY);
}

// What the dots are, where there are any.
fn print_marks_key<P: Page>(is_marked: bool, page: &mut P)
    ensures { P.adds page.old page.new
        (if is_marked then marks_key else []) }
{
    if is_marked {
        page.add(MARKS_KEY);
    }
}

// What the circles are, where there are any.
fn print_faults_key<P: Page>(has_faults: bool, page: &mut P)
    ensures { P.adds page.old page.new
        (if has_faults then faults_key else []) }
{
    if has_faults {
        page.add(FAULTS_KEY);
    }
}
