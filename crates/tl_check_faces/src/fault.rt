//! What is wrong where faces disagree.

use std::fmt;
use tl_geom::Rational;
use tl_record_key::PolyKey;

/// What a segment names on its side toward another: the TLID of its chain, the key of the polygon there, or none where it is the
/// outside, and the place of the segment from which it faces the other, in millionths of a degree and in lowest terms.
#[derive(Clone, Copy, Debug, PartialEq, Eq)]
pub struct NamedFace {
    pub tlid: u64,
    pub polygon: Option<PolyKey>,
    pub at: Rational,
}

/// The two ways along a line of one height: to the west of a segment and slightly to the south, or to its east and slightly to the
/// north.
#[derive(Clone, Copy, Debug, PartialEq, Eq)]
pub enum Way {
    West,
    East,
}

impl Way {
    ghost use Rattle.std.specs.Prelude.{◌≡◌};
    ghost use Rattle.tl_check_faces.specs.FaultTexts.{way_text};

    /// The word for it.
    pub fn word(&self) -> &'static str
        ensures { result.now ≡ way_text self.now }
    {
        match self {
            Way::West => "west",
            Way::East => "east",
        }
    }
}

impl fmt::Display for Way {
    ghost use Rattle.std.specs.Prelude.{Some};
    ghost use Rattle.tl_check_faces.specs.FaultTexts.{way_text};

    ghost output = { λ way. Some (way_text way) };

    fn fmt<W: fmt::Write>(&self, f: &mut fmt::Formatter<W>) -> fmt::Result {
        f.write_str(self.word())
    }
}

/// G7: faces that disagree.
#[derive(Clone, Copy, Debug, PartialEq, Eq)]
pub enum FaceFault {
    /// Two segments face one another, and name different sides there.
    Facing { first: NamedFace, last: NamedFace },
    /// Nothing lies on the line from the segment this way, which has no end, and the segment doesn't name the outside there.
    Outward { face: NamedFace, way: Way },
}

impl fmt::Display for NamedFace {
    ghost use Rattle.std.specs.Prelude.{Some};
    ghost use Rattle.tl_check_faces.specs.FaultTexts.{named_face_text};

    ghost output = { λ face. Some (named_face_text face) };

    fn fmt<W: fmt::Write>(&self, f: &mut fmt::Formatter<W>) -> fmt::Result {
        let (tlid, at) = (self.tlid, self.at);
        match self.polygon {
            Some(polygon) => write!(
                f,
                "tlid {tlid} polygon {polygon} at {} {} {}",
                at.x, at.y, at.d
            ),
            None => write!(f, "tlid {tlid} outside at {} {} {}", at.x, at.y, at.d),
        }
    }
}
