//! Keys of polygons as they are printed.

ghost use Rattle.std.specs.Prelude.{◌≡◌};
ghost use Rattle.tl_record_key.specs.KeyText.{shown_byte, shown_cenid};

use crate::key::PolyKey;
use std::fmt;

/// A byte of a CENID as it is printed: a blank as an underscore.
fn shown(byte: u8) -> char
    ensures { result ≡ shown_byte byte }
{
    if byte == b' ' { '_' } else { char::from(byte) }
}

impl PolyKey {
    /// The five bytes of the CENID as they are printed, each blank as an underscore.
    pub fn shown_cenid(&self) -> [char; 5]
        ensures { result ≡ shown_cenid self.now }
    {
        let cenid = self.cenid;
        [
            shown(cenid[0]),
            shown(cenid[1]),
            shown(cenid[2]),
            shown(cenid[3]),
            shown(cenid[4]),
        ]
    }
}

impl fmt::Display for PolyKey {
    ghost use Rattle.std.specs.Prelude.{Some};
    ghost use Rattle.tl_record_key.specs.KeyText.{key_text};

    ghost output = { λ key. Some (key_text key) };

    /// The five bytes of the CENID, each blank as `_`, then `/` and the POLYID.
    fn fmt<W: fmt::Write>(&self, f: &mut fmt::Formatter<W>) -> fmt::Result {
        let [first, second, third, fourth, fifth] = self.shown_cenid();
        let polyid = self.polyid;
        write!(f, "{first}{second}{third}{fourth}{fifth}/{polyid}")
    }
}
