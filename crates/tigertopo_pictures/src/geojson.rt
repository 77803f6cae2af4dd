//! Counties as GeoJSON.
//!
//! [`print_county`] and [`print_county_with`] print a county's chains and polygons as one FeatureCollection of RFC 7946, and say
//! exactly which bytes are added to the page. [`CountyText`] and [`CountyTextWith`] are these as texts that can be handed to whoever makes
//! a file of them.

mod areas;
mod county;
mod features;
mod holes;
mod landmarks;
mod metres;
mod polygons;
mod positions;
mod rings;
mod strings;
mod text;
mod windings;

pub use county::{Shapes, print_county, print_county_with};
pub use features::{print_chain, print_lead};
pub use positions::print_position;
pub use strings::{print_key, print_quoted, print_string};
pub use text::{CountyText, CountyTextWith};
