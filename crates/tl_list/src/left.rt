//! What is left of a county without its refused lines.

ghost use Rattle.std.specs.Prelude.{◌≡◌, ℕ, List, Bool, Option};
ghost use Rattle.tl_record.specs.declared.options.Options.{Options};
ghost use Rattle.tl_record.specs.Records.{Records as AllRecords};
ghost use Rattle.tl_list.specs.Findings.{IsFoundIn, AreOfMap};
ghost use Rattle.tl_list.specs.Noting.{IfRefused};
ghost use Rattle.tl_list.specs.Keeping.OfRecords.{AreFindingsOfRecords, AreLeftOf, AreRead};

use crate::noted::NotedLines;
use crate::of_records::Findings;
use std::alloc::Global;
use tl_check_verdict::MapFault;
use tl_list_text::Listing;
use tl_map_county::Map;
use tl_record::Refusal;

/// What is listed of records that are left without refused lines: their faults, of which there may be none, and how many polygons are
/// touched; with their map, where they have one.
#[derive(Drop)]
pub struct LeftFaults {
    pub map: Option<Map>,
    pub faults: Vec<MapFault>,
    pub touched: u64,
}

/// All that is wrong with a county, and where its refused lines are skipped, with what is left without them.
#[derive(Drop)]
pub struct Found {
    /// What is found in its text as it stands.
    pub whole: Findings,
    /// Where lines are refused and skipped, the faults of what is left; nothing where the text has too many lines.
    pub left: Option<LeftFaults>,
    /// Where something is noted of lines: the records with their lines, and how refused lines begin.
    pub noted: NotedLines,
}

/// What is found in a text, of its refused lines and of what is listed of what is left without them; and this is noted of its lines.
pub fn found_in(alloc: Global, refused: Vec<Refusal>, listed: Findings, noted: NotedLines) -> Found
    ensures found { (options : Options) (skips : Bool) (known : Option (List ℕ)) → AreRead options skips known refused.items listed
        → IsFoundIn options skips known result }
    ensures of_map { (faces : Bool) → AreOfMap faces listed → AreOfMap faces result.whole }
    ensures noted { result.noted ≡ noted }
    ensures refused { ((faces : Bool) × ((all : AllRecords) × AreFindingsOfRecords faces all listed)) → IfRefused result.whole.listing (λ list. list ≡ refused) }
{
    if refused.is_empty() {
        return Found {
            whole: listed,
            left: None,
            noted,
        };
    }
    Found {
        whole: Findings {
            listing: Listing::Refused(refused),
            map: None,
        },
        left: faults_left(alloc, listed),
        noted,
    }
}

// The faults that are listed, of which there are none where the map is sound.
fn faults_left(alloc: Global, listed: Findings) -> Option<LeftFaults>
    ensures { (faces : Bool) (all : AllRecords) → AreFindingsOfRecords faces all listed → AreLeftOf faces all result }
{
    let Findings { listing, map } = listed;
    match listing {
        Listing::Sound(_) => Some(LeftFaults {
            map,
            faults: Vec::new(alloc),
            touched: 0,
        }),
        Listing::Refused(_) => None,
        Listing::Faults { faults, touched } => Some(LeftFaults {
            map,
            faults,
            touched,
        }),
    }
}
