//! Keys of polygons.

use std::hash::{Hash, Hasher};

/// What names a polygon: CENID and POLYID together.
#[derive(Clone, Copy, Debug, PartialEq, Eq)]
pub struct PolyKey {
    /// Five bytes from 0x20 to 0x7E, as they stand in the record.
    pub cenid: [u8; 5],
    pub polyid: u64,
}

impl Hash for PolyKey {
    ghost use Rattle.tl_record_key.specs.KeyWords.{key_words, same_words};

    ghost hash_input = { key_words };

    ghost respects_eq = { same_words };

    // Two whole words: a derived hash is that of each byte on its own, and takes several times as long.
    fn hash<H: Hasher>(&self, state: &mut H) {
        let cenid = self.cenid;
        state.write(&[cenid[0], cenid[1], cenid[2], cenid[3], cenid[4], 0, 0, 0]);
        state.write_u64(self.polyid);
    }
}
