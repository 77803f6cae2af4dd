//! Faults as one FeatureCollection.

ghost use Rattle.std.specs.Prelude.{◌≡◌};
ghost use Rattle.tigertopo_faults.specs.Geojson.Texts.{behind_faults, closing_text};

use crate::geojson::chains::{list_tlids, print_chains};
use crate::geojson::fault::print_features;
use crate::records::RecordLines;
use std::alloc::{AllocError, Global};
use tl_cert_output::{Page, Text};
use tl_check_verdict::MapFault;
use tl_geom::Rational;
use tl_map_county::Map;

/// Faults as features, behind them the chains that they name, where the records have a map, and last the features of refused lines. How
/// many polygons are touched is said at the end, where some are.
#[derive(Clone, Copy)]
pub struct FaultsText<'a> {
    /// The files' names.
    pub names: &'a [String],
    /// How many lines each of them has.
    pub counts: &'a [u64],
    /// The map, where the records have one.
    pub drawn: Option<&'a Map>,
    /// The lines of the records that the faults speak of.
    pub lines: &'a RecordLines,
    /// Where the faults lie.
    pub places: &'a [Option<Rational>],
    pub faults: &'a [MapFault],
    /// How many polygons are touched.
    pub touched: u64,
    /// The features of refused lines, each with a comma in front.
    pub refused: &'a [u8],
}

impl Text for FaultsText<'_> {
    ghost use Rattle.std.specs.Prelude.{⊤, map as map_list, string_bytes, option_copied};
    ghost use Rattle.tigertopo_faults.specs.Records.Keeping.{held};
    ghost use Rattle.tigertopo_faults.specs.Geojson.Texts.{faults_text};

    ghost text = { λ told. faults_text (map_list string_bytes told.names.now) told.counts.now (option_copied told.drawn)
        (held told.lines.now) told.places.now told.faults.now told.touched told.refused.now };

    ghost is_ready = { λ told. ⊤ };

    /// The TLIDs that faults name are listed first.
    fn add_to<P: Page>(&self, alloc: Global, page: &mut P) -> Result<(), AllocError> {
        let tlids = list_tlids(alloc, self.drawn, self.faults)?;
        page.add(b"{\"type\":\"FeatureCollection\",\"name\":\"tigertopo\",\"features\":[");
        print_features(
            self.names,
            self.counts,
            self.drawn,
            self.lines,
            self.places,
            self.faults,
            page,
        );
        print_chains(self.drawn, tlids.as_slice(), page);
        page.add(behind_faults(self.faults, self.refused));
        print_closing(self.touched, page);
        Ok(())
    }
}

// Features that each have a comma in front, behind those of faults: the first of all features has none.
fn behind_faults<'a>(faults: &[MapFault], features: &'a [u8]) -> &'a [u8]
    ensures { result.now ≡ behind_faults faults.now features.now }
{
    match features {
        [_, rest @ ..] if faults.is_empty() => rest,
        _ => features,
    }
}

// Prints the end of a collection of faults.
fn print_closing<P: Page>(touched: u64, page: &mut P)
    ensures { P.adds page.old page.new (closing_text touched) }
{
    if touched == 0 {
        page.add(b"\n]}\n");
    } else {
        page.add(b"\n],\"touched\":");
        page.number(touched);
        page.add(b"}\n");
    }
}
