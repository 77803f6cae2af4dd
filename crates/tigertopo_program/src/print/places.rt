//! The line of a place.

ghost use Rattle.std.specs.Prelude.{◌<◌, All, length};
ghost use Rattle.tigertopo_program.specs.Print.Places.{on_text, land_text, lands_text, listed_lands, inside_text};
ghost use Rattle.tl_geom.specs.declared.point.Point.{Point};
ghost use Rattle.tl_check_inside.specs.Places.{IsPlaceOf};
ghost use Rattle.tigertopo_program.specs.Places.{place_text};

use crate::print::landmarks::print_listed;
use std::alloc::{AllocError, Global};
use tl_cert_output::{Page, Text};
use tl_check_inside::Place;
use tl_map_county::Map;

/// Where a point lies in a map, as a text.
#[derive(Clone, Copy)]
pub struct PlaceText<'a> {
    pub map: &'a Map,
    pub place: &'a Place,
}

impl Text for PlaceText<'_> {
    ghost text = { λ text. place_text text.map.now text.place.now };

    ghost is_ready = { λ text. (point : Point) × IsPlaceOf text.map.now point text.place.now };

    fn add_to<P: Page>(&self, _alloc: Global, page: &mut P) -> Result<(), AllocError> {
        add_place(self.map, self.place, page);
        Ok(())
    }
}

// Prints the line of a place.
fn add_place<P: Page>(map: &Map, place: &Place, page: &mut P)
    requires { (point : Point) × IsPlaceOf map.now point place.now }
    ensures { P.adds page.old page.new (place_text map.now place.now) }
{
    match place {
        Place::OnChain(chain) => print_on_chain(map, *chain, page),
        Place::In {
            polygons,
            landmarks,
        } => print_inside(map, polygons, landmarks, page),
    }
}

// Prints the line of a point on a chain, which is given by its number: its TLID.
fn print_on_chain<P: Page>(map: &Map, chain: u32, page: &mut P)
    requires { chain < length map.now.chains }
    ensures { P.adds page.old page.new (on_text map.now.chains chain) }
{
    page.add(b"on tlid ");
    page.number(map.chain(chain).tlid);
    page.add(b"\n");
}

// Prints the line of a point on no chain: the keys of the polygons that it lies in and the LAND numbers of the
// landmarks, each given by its number.
fn print_inside<P: Page>(map: &Map, polygons: &[u32], landmarks: &[u32], page: &mut P)
    requires polygons { All (λ p. p < length map.now.polygons) polygons.now }
    requires landmarks { All (λ l. l < length map.now.landmarks) landmarks.now }
    ensures { P.adds page.old page.new (inside_text map.now polygons.now landmarks.now) }
{
    page.add(b"in polygons");
    print_listed(map, polygons, page);
    page.add(b" landmarks");
    print_listed_lands(map, landmarks, page);
    page.add(b"\n");
}

fn print_listed_lands<P: Page>(map: &Map, numbers: &[u32], page: &mut P)
    requires { All (λ l. l < length map.now.landmarks) numbers.now }
    ensures { P.adds page.old page.new (listed_lands map.now.landmarks numbers.now) }
{
    if numbers.is_empty() {
        return page.add(b" none");
    }
    print_lands(map, numbers, page);
}

fn print_lands<P: Page>(map: &Map, numbers: &[u32], page: &mut P)
    requires { All (λ l. l < length map.now.landmarks) numbers.now }
    ensures { P.adds page.old page.new (lands_text map.now.landmarks numbers.now) }
{
    for number in numbers {
        print_land(map, *number, page);
    }
}

fn print_land<P: Page>(map: &Map, number: u32, page: &mut P)
    requires { number < length map.now.landmarks }
    ensures { P.adds page.old page.new (land_text map.now.landmarks number) }
{
    page.add(b" ");
    page.number(map.landmark(number).land);
}
