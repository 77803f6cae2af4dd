//! What a word that is given for an argument stands for.

use crate::budget::number_of;
use crate::cenid::cenid_of;
use crate::layer::layer_named;
use crate::point::point_of;
use crate::view::width_of;
use std::fmt;

// How each kind of word is spelt.
const NUMBER: &str =
    "a number from 0 to 18446744073709551615 is wanted, with no sign and no leading zero";

const POINT: &str =
    "@, a longitude from -180000000 to 180000000, a comma and a latitude from -90000000 to \
    90000000 are wanted, or both in degrees with one to six decimals, as @-78.762,39.652; with \
    no plus, no leading zero and no -0";

const WIDTH: &str = "a number from 1 to 360000000 is wanted, with no sign and no leading zero";

const LAYER: &str = "chains, points, polygons or landmarks is wanted";

const NAME: &str = "one to five characters of ASCII are wanted, from the blank to the tilde";

/// What a word stands for.
#[derive(Clone, Copy)]
pub enum Placeholder {
    Number,
    Point,
    Width,
    Layer,
    /// The name of a border's polygon.
    Name,
    /// A certificate's file.
    Cert,
    /// A file that is made.
    Out,
    /// Record files.
    Files,
}

impl Placeholder {
    /// How it is shown.
    pub fn shown(self) -> &'static str {
        match self {
            Placeholder::Number => "N",
            Placeholder::Point => "@X,Y",
            Placeholder::Width => "W",
            Placeholder::Layer => "KIND",
            Placeholder::Name => "NAME",
            Placeholder::Cert => "CERT",
            Placeholder::Out => "OUT",
            Placeholder::Files => "FILES",
        }
    }

    /// How such a word is spelt, where this one isn't spelt so.
    pub fn wanted(self, word: &str) -> Option<&'static str> {
        let (is_spelt, spelling) = match self {
            Placeholder::Number => (number_of(word).is_some(), NUMBER),
            Placeholder::Point => (point_of(word).is_some(), POINT),
            Placeholder::Width => (width_of(word).is_some(), WIDTH),
            Placeholder::Layer => (layer_named(word).is_some(), LAYER),
            Placeholder::Name => (cenid_of(Some(word)).is_some(), NAME),
            Placeholder::Cert | Placeholder::Out | Placeholder::Files => return None,
        };
        if is_spelt { None } else { Some(spelling) }
    }
}

impl fmt::Display for Placeholder {
    fn fmt<W: fmt::Write>(&self, f: &mut fmt::Formatter<W>) -> fmt::Result {
        f.write_str(self.shown())
    }
}
