//! Pictures on their way out.

ghost use Rattle.std.specs.Prelude.{◌≡◌, ◌++◌, IfSome, codes, flat_map, length, option_map};
ghost use Rattle.tigertopo_pictures.specs.Svg.Strokes.{strokes_left};
ghost use Rattle.tigertopo_pictures.specs.Svg.Pictures.{drawn};
ghost use Rattle.tigertopo_pictures.specs.Svg.Texts.{stroke_text, drawing_text, size_text, style_text};
ghost use Rattle.tigertopo_pictures.specs.Svg.Texts.{chains_part, nodes_part, points_part, marks_part, faults_part, key_part};
ghost use Rattle.tigertopo_pictures.specs.Svg.Fills.{AreFillsOf, fills_part};
ghost use Rattle.tigertopo_pictures.specs.Svg.Whole.{picture_text};

use crate::svg::chains::walk_along;
use crate::svg::filled::print_fills;
use crate::svg::fills::Fills;
use crate::svg::frame::Frame;
use crate::svg::key::print_key;
use crate::svg::marks::{print_faults, print_nodes, print_points};
use crate::svg::pairs::print_stroke;
use crate::svg::picture::Picture;
use crate::svg::text::print_size;
use crate::svg::walk::Walk;
use tl_cert_output::Page;
use tl_check_verdict::MapFault;
use tl_geom::Rational;
use tl_map_county::Map;

// How each part is drawn.
const STYLE: &[u8] =
    b"<style>path,circle{fill:none;vector-effect:non-scaling-stroke;stroke-linecap:round;stroke-linejoin:round}\
text{font:130px sans-serif;fill:#333;stroke:#fff;stroke-width:25px;paint-order:stroke}\
.chains,.chain{stroke:#333;stroke-width:1}.nodes,.node{stroke:#000;stroke-width:3.2}\
.points,.point{stroke:#07c;stroke-width:4}.scale{stroke:#333;stroke-width:1.5}\
circle,.fault{stroke:#d00;stroke-width:2;fill:#d00;fill-opacity:.2}.code{fill:#a00}\
.polygons path{fill-rule:evenodd}\
@media(max-width:700px){text{font-size:240px}circle{r:95px}}\
@media(min-width:1500px){text{font-size:90px}circle{r:45px}}</style>\n\
<rect x=\"-100\" y=\"-600\" width=\"100%\" height=\"100%\" fill=\"#fff\"/>\n";

/// Prints the picture of a map with these faults, which lie at these places, and its polygons filled where there is something to fill
/// them by.
pub fn print_picture<P: Page>(
    map: &Map,
    picture: Picture,
    fills: Option<&Fills>,
    faults: &[MapFault],
    places: &[Option<Rational>],
    page: &mut P,
)
    requires places { length places.now ≡ length faults.now }
    requires fills { IfSome fills (λ f. AreFillsOf map.now f.now) }
    ensures { P.adds page.old page.new
        (picture_text map.now picture (option_map (λ f. f.now.filling) fills.entry) faults.now places.now) }
{
    print_front(map, picture, fills, page);
    print_back(map, picture, faults, places, page);
}

// Prints the beginning of the file, how each part is drawn, the polygons that are filled, and the lines of chains.
fn print_front<P: Page>(map: &Map, picture: Picture, fills: Option<&Fills>, page: &mut P)
    requires { IfSome fills (λ f. AreFillsOf map.now f.now) }
    ensures { P.adds page.old page.new
        (size_text picture.frame ++ style_text ++ fills_part picture.frame map.now (option_map (λ f. f.now.filling) fills.entry)
        ++ chains_part picture map.now) }
{
    print_size(picture.frame, page);
    print_style(page);
    print_fills(map, picture.frame, fills, page);
    print_chains(map, picture, page);
}

// Prints how each part is drawn.
fn print_style<P: Page>(page: &mut P)
    ensures { P.adds page.old page.new style_text }
{
    page.add(STYLE);
}

// Prints what is marked, and the end of the file.
fn print_back<P: Page>(
    map: &Map,
    picture: Picture,
    faults: &[MapFault],
    places: &[Option<Rational>],
    page: &mut P,
)
    requires { length places.now ≡ length faults.now }
    ensures { P.adds page.old page.new
        (marks_part picture map.now ++ faults_part picture.frame faults.now places.now ++ key_part picture faults.now ++ codes "</svg>\n") }
{
    print_marks(map, picture, page);
    print_faults(picture.frame, faults, places, page);
    print_key(picture, faults, page);
    page.add(b"</svg>\n");
}

// Prints the lines of chains.
fn print_chains<P: Page>(map: &Map, picture: Picture, page: &mut P)
    ensures { P.adds page.old page.new
        (chains_part picture map.now) }
{
    page.add(b"<path class=\"chains\" d=\"");
    print_drawings(map, picture, page);
    page.add(b"\"/>\n");
}

// Prints the strokes of all chains.
fn print_drawings<P: Page>(map: &Map, picture: Picture, page: &mut P)
    ensures { P.adds page.old page.new
        (flat_map drawing_text (drawn picture map.now)) }
{
    for number in 0..map.chains() {
        let points = map.chain(number).points;
        let mut walk = walk_along(picture.frame, points);
        print_strokes(&mut walk, page);
    }
}

// Prints the strokes that a walk comes to.
#[inline(always)]
fn print_strokes<P: Page>(walk: &mut Walk<'_>, page: &mut P)
    ensures { P.adds page.old page.new
        (flat_map stroke_text (strokes_left walk.old)) }
{
    while let Some(stroke) = walk.next() {
        print_stroke(stroke, page);
    }
}

// Prints the dots of nodes and of polygons' points, where they are marked.
fn print_marks<P: Page>(map: &Map, picture: Picture, page: &mut P)
    ensures { P.adds page.old page.new
        (marks_part picture map.now) }
{
    if picture.is_marked {
        print_nodes_part(map, picture, page);
        print_points_part(map, picture.frame, page);
    }
}

// Prints the dots of nodes.
fn print_nodes_part<P: Page>(map: &Map, picture: Picture, page: &mut P)
    ensures { P.adds page.old page.new
        (nodes_part picture map.now) }
{
    page.add(b"<path class=\"nodes\" d=\"");
    print_nodes(map, picture, page);
    page.add(b"\"/>\n");
}

// Prints the dots of polygons' points.
fn print_points_part<P: Page>(map: &Map, frame: Frame, page: &mut P)
    ensures { P.adds page.old page.new
        (points_part frame map.now) }
{
    page.add(b"<path class=\"points\" d=\"");
    print_points(map, frame, page);
    page.add(b"\"/>\n");
}
