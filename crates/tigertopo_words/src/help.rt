//! What the help of the program and of each command says.

use crate::table::Named;

pub const ABOUT: &str = "Checks the topology of TIGER/Line 2006 record files";

pub const EXAMPLES: &str = "\
Examples:
  tigertopo show TGR24001.RT1 TGR24001.RT2    prints each chain's TLID and points
  tigertopo landmarks --released TGR24001.RT* prints each landmark and its polygons
  tigertopo locate @-78762000,39652000 A.RT*  tells where a point lies
  tigertopo audit TGR24001.RT*                decides whether the map is sound
  tigertopo audit --all --most 20 A.RT*       tells the first 20 faults, and how many there are
  tigertopo audit --where TGR24001.RT*        tells in which lines of which files a fault's records stand
  tigertopo audit --faces TGR24001.RT*        decides too whether sides that face one another agree
  tigertopo build --out A.CERT TGR24001.RT*   makes a certificate of a sound map
  tigertopo check --cert A.CERT TGR24001.RT*  decides by a certificate whether the map is sound
  tigertopo convert OLD.CERT NEW.CERT         writes a certificate anew in version 2
  tigertopo export --geojson A.geojson A.RT*  writes the map as GeoJSON
  tigertopo draw --out A.svg --faults A.RT*   draws the map and its faults for a browser
  tigertopo border --name A --out A.border .. writes the records of a sound map's border

Exit status:
  0   done or sound, or help was asked for
  1   the map has a fault
  2   the certificate has a fault
  3   a record is refused
  4   memory ran out, a file or the output failed, or the budget is used up
  64  the words are no command";

const SHOW_EXAMPLE: &str = "\
Each chain is a line `tlid T X,Y X,Y ..`, in millionths of a degree, and the last line is
`chains=C segments=S skipped=K`, where K counts the lines that hold no record.

Example:
  tigertopo show TGR24001.RT1 TGR24001.RT2";

const LANDMARKS_EXAMPLE: &str = "\
Each landmark is a line `land N area polygons P P ..` or `land N point X,Y polygons P ..`, where a
polygon is its CENID (each blank as _), `/` and its POLYID, and no polygon is `none`. The last line
is `landmarks=K`.

Example:
  tigertopo landmarks --released TGR24001.RT*";

const LOCATE_EXAMPLE: &str = "\
The point is `@`, its longitude, a comma and its latitude, in millionths of a degree, or both in degrees
with a point and one to six decimals, with no plus and no leading zero. Where a chain runs through it
the line is `on tlid T`, with the least TLID of those that do. Else it is `in polygons P P .. landmarks
N N ..`, where a polygon is its CENID (each blank as _), `/` and its POLYID, a landmark is its LAND
number, and an empty list is `none`. Whether the map is sound isn't tested.

Examples:
  tigertopo locate @-78762000,39652000 TGR24001.RT*
  tigertopo locate @-78.762,39.652 TGR24001.RT*";

const AUDIT_EXAMPLE: &str = "\
Of a sound map the line is `sound chains=C segments=S nodes=N polygons=P landmarks=L rings=R`. Else it
is `map fault` with a code, a name and what it is about. No certificate is read, and none is kept.

With --all each fault has its line, or each line that is refused, on the standard output, and the last
line is `faults=K` or `refused=K`. Where a record is refused no fault is looked for, and where records
have a fault their map isn't looked at. Sides that don't agree touch the polygons that they name: whether
points lie in these isn't looked at, as `touched polygons=N not looked at` says. With --most N the last
line is `faults=K printed=P`. With --skip-refused the list goes on behind `refused=K` with the faults of the
records that are left, and the last line is `refused lines=K skipped`: whether the map is sound isn't said.

With --where each fault has a line behind it for each record that it speaks of, behind two blanks: the
file, the line, the record's type, the TLID, polygon or landmark, and where the fault lies, in degrees:
with six decimals `locate` and `draw --at` take it behind @, with ten it is rounded.
With --json each fault, or each line that is refused, is an object of JSON on a line of its own, with its code,
its name, what it is about, where it lies and its records; and the last line is an object that says `sound`,
`faults` or `refusals` and how many. --where adds nothing to that.
With --geojson OUT the faults that are told are made a collection of features of RFC 7946, with --all
all of them: each where it lies, with its code, what it is about and its records, then the chains that
they name, and last each line that is refused. Of a sound map the collection is empty. OUT is written as
OUT.unfinished and takes its name when it is whole. A file that this program hasn't made, or that is one
of FILES, is not replaced.

With --faces the map has to be such, too, that each place on no chain lies in exactly one polygon or
outside of all, and each side of each chain names what lies there. Else the line is `map fault G7
FaceDisagree ..`, with the TLIDs of two chains that face one another, or of one with nothing beyond it,
the polygons that their sides name, and of each a point: X and Y over one denominator. With --all too,
where no chains meet and no sides disagree, each two segments that face one another along a line of one
height and differ have their line, once.

Examples:
  tigertopo audit TGR24001.RT*
  tigertopo audit --faces TGR24001.RT*
  tigertopo audit --all --faces TGR24001.RT*
  tigertopo audit --all --where TGR24001.RT*
  tigertopo audit --all --json TGR24001.RT*
  tigertopo audit --all --geojson TGR24001.geojson TGR24001.RT*";

const BUILD_EXAMPLE: &str = "\
Of a sound map the line is `built chains=C segments=S nodes=N polygons=P landmarks=L rings=R`. Else it
is `map fault` with a code, a name and what it is about, and no file is made or changed. CERT is
written as CERT.unfinished and takes its name when it is whole, so an old one stays till then. A file
that is no certificate, or is one of FILES, is not replaced.

With --faces each place on no chain has to lie in exactly one polygon or outside of all, too, and each
side of each chain to name what lies there. Else the line is `map fault G7 FaceDisagree ..`, as `audit`
has it, and no certificate is made.

Examples:
  tigertopo build --out TGR24001.CERT TGR24001.RT*
  tigertopo build --faces --out TGR24001.CERT TGR24001.RT*";

const CHECK_EXAMPLE: &str = "\
Of a sound map the line is `sound chains=C segments=S nodes=N polygons=P landmarks=L rings=R`. Else it
is `map fault` or `certificate fault` with a code, a name and what it is about. Nobody has to trust
CERT: where it isn't right for the map, that is a fault of the certificate.

With --faces each place on no chain has to lie in exactly one polygon or outside of all, too, and each
side of each chain to name what lies there. Else the line is `map fault G7 FaceDisagree ..`, as `audit`
has it.

Examples:
  tigertopo check --cert TGR24001.CERT TGR24001.RT*
  tigertopo check --faces --cert TGR24001.CERT TGR24001.RT*";

const CONVERT_EXAMPLE: &str = "\
The line is `converted nodes=N rounds=M walks=W`; of a text that is no certificate's, `certificate
fault K1 Text line N` with the line that none has. OUT is written as OUT.unfinished and takes its name
when it is whole. A file that is no certificate, or is CERT, is not replaced.

Example:
  tigertopo convert OLD.CERT NEW.CERT";

const EXPORT_EXAMPLE: &str = "\
OUT is a collection of features of RFC 7946, in degrees: each chain as a line with its TLID and the
polygons on both sides, each polygon's point with its landmarks, where the map is sound each polygon with
its holes and its area in square millionths of a degree, and each landmark's point; each with `file`, the
first of FILES. With --layer KIND it has features of one kind alone. OUT is written as OUT.unfinished and
takes its name when it is whole; to a pipe it stands alone, and the line goes to the error output. A file
that this command hasn't made, or that is one of FILES, is not replaced. The line is `exported chains=C
polygons=P rings=R`; of a map that isn't sound no rings are told, the line `not sound` follows, and the
status is 1.

Examples:
  tigertopo export --geojson TGR24001.geojson TGR24001.RT*
  tigertopo export --geojson chains.geojson --layer chains TGR24001.RT*";

const DRAW_EXAMPLE: &str = "\
OUT is a picture in SVG, as wide as the window, of the whole map, or of the place about X,Y that is W
millionths of a degree wide and high: chains, nodes and polygons' points, and with --faults each fault in red
with its code, which says what it is, and what to type for a closer picture, where the pointer rests on it;
with --faces too these are the faults that `audit --all --faces` tells. Degrees of longitude are shorter by
the cosine of the middle latitude. What is smaller than a third of a pixel is left out. OUT is made as that
of `export` is. The line is `drawn chains=C`, with the number of chains that are seen, and with --faults
`drawn chains=C faults=F`.

Examples:
  tigertopo draw --out TGR24001.svg --faults TGR24001.RT*
  tigertopo draw --out place.svg --at @-78762000,39652000 --width 20000 TGR24001.RT*";

const BORDER_EXAMPLE: &str = "\
The border is the map's chains with a polygon on one side at most. OUT has their records of the types 1, 2
and I, by rising TLID, with the polygon NAME/1 on each side that has one, and a record of type P, which gives
it the point of the map's first polygon. NAME is one to five characters of ASCII. OUT is made as that of
`export` is, where `audit --faces` finds nothing wrong, and else its line is printed and no file is made. The
line is `bordered chains=C segments=S`, with the numbers of the border.

Example:
  tigertopo border --name 24001 --out 24001.border TGR24001.RT*";

/// What is said of the command behind its arguments, and examples of it.
pub fn example_of(named: &Named) -> &'static str {
    match named {
        Named::Show => SHOW_EXAMPLE,
        Named::Landmarks => LANDMARKS_EXAMPLE,
        Named::Locate => LOCATE_EXAMPLE,
        Named::Audit => AUDIT_EXAMPLE,
        Named::Build => BUILD_EXAMPLE,
        Named::Check => CHECK_EXAMPLE,
        Named::Convert => CONVERT_EXAMPLE,
        Named::Export => EXPORT_EXAMPLE,
        Named::Draw => DRAW_EXAMPLE,
        Named::Border => BORDER_EXAMPLE,
    }
}
