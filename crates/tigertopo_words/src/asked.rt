//! What the program is asked to do.

ghost use Rattle.std.specs.Prelude.{◌≡◌};
ghost use Rattle.tigertopo_words.specs.Asked.{named_of};

use crate::budget::Told;
use crate::form::Form;
use crate::layer::Layer;
use crate::table::{Named, row_of};
use tl_geom::Point;
use tl_record::Options;

/// What the program is asked to do, with record files, which are read one after the other as one text.
#[derive(Drop)]
pub struct Command {
    pub asked: Asked,
    /// How the records are read, and what is asked of their map.
    pub options: Options,
    /// The names of the record files; none for `convert`.
    pub files: Vec<String>,
    /// Whether it is shown how far the reading of files is.
    pub progress: bool,
}

/// What is asked.
#[derive(Drop)]
pub enum Asked {
    /// To print the chains.
    Show,
    /// To print the landmarks with their polygons.
    Landmarks,
    /// To tell where this point lies.
    Locate {
        point: Point,
    },
    /// To decide with no certificate given whether the map is sound, and to tell in this form what is wrong with it: one fault or
    /// more, and with a file of GeoJSON of this name that is made of the faults, if one is named.
    Audit {
        told: Told,
        form: Form,
        made: Option<String>,
    },
    /// To make a certificate of this name, in version 2, where the map is sound.
    Build {
        made: String,
    },
    /// To decide by the certificate of this name whether the map is sound. The budget is how many pairs of segments may
    /// be tested whose rectangles meet.
    Check {
        cert: String,
        budget: u64,
    },
    /// To read the certificate of this name, and to make one of the other name, in version 2.
    Convert {
        cert: String,
        made: String,
    },
    /// To make a file of GeoJSON of this name, of the map, or of one layer of it.
    Export {
        made: String,
        layer: Option<Layer>,
    },
    /// To make a picture of this name, of the map or of a place in it, with its faults where they are asked for: those of faces among
    /// them where the options ask for these, which they do only where faults are asked for.
    Draw {
        made: String,
        view: Option<View>,
        faults: bool,
    },
    /// To make a file of this name, of the records of the map's border, where the map is sound and its faces agree. The border is that of
    /// one polygon, whose CENID is given.
    Border {
        name: [u8; 5],
        made: String,
    },
}

/// A place that a picture shows, in millionths of a degree.
#[derive(Clone, Copy)]
pub struct View {
    /// The point in its middle.
    pub center: Point,
    /// How wide it is: from 1 to 360,000,000.
    pub width: u32,
}

impl Command {
    ghost use Rattle.std.specs.Prelude.{◌≡◌, option_map, string_bytes};
    ghost use Rattle.tigertopo_words.specs.Commands.{name_of};
    ghost use Rattle.tigertopo_words.specs.Asked.{cert_of, made_of};

    /// The name of the command, as it is typed.
    pub fn name(&self) -> &'static str
        ensures { result.now ≡ name_of (named_of self.now.asked) }
    {
        row_of(&named_of(&self.asked)).name
    }

    /// The name of the certificate that is read, if one is.
    pub fn cert(&self) -> Option<&String>
        ensures { option_map (λ name. string_bytes name.now) result ≡ cert_of self.now.asked }
    {
        match &self.asked {
            Asked::Check { cert, .. } => Some(cert),
            Asked::Convert { cert, .. } => Some(cert),
            Asked::Show | Asked::Landmarks | Asked::Locate { .. } | Asked::Audit { .. } => None,
            Asked::Build { .. } | Asked::Export { .. } | Asked::Draw { .. } => None,
            Asked::Border { .. } => None,
        }
    }

    /// The name of the file that is made, if one is.
    pub fn made(&self) -> Option<&String>
        ensures { option_map (λ name. string_bytes name.now) result ≡ made_of self.now.asked }
    {
        match &self.asked {
            Asked::Audit { made, .. } => made.as_ref(),
            Asked::Build { made } => Some(made),
            Asked::Convert { made, .. } => Some(made),
            Asked::Export { made, .. } => Some(made),
            Asked::Draw { made, .. } => Some(made),
            Asked::Border { made, .. } => Some(made),
            Asked::Show | Asked::Landmarks | Asked::Locate { .. } | Asked::Check { .. } => None,
        }
    }
}

// The command that asks for it.
fn named_of(asked: &Asked) -> Named
    ensures { result ≡ named_of asked.now }
{
    match asked {
        Asked::Show => Named::Show,
        Asked::Landmarks => Named::Landmarks,
        Asked::Locate { .. } => Named::Locate,
        Asked::Audit { .. } => Named::Audit,
        Asked::Build { .. } => Named::Build,
        Asked::Check { .. } => Named::Check,
        Asked::Convert { .. } => Named::Convert,
        Asked::Export { .. } => Named::Export,
        Asked::Draw { .. } => Named::Draw,
        Asked::Border { .. } => Named::Border,
    }
}
