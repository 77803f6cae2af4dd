//! The border of a map as a text that is printed.

use crate::border::print_border;
use std::alloc::{AllocError, Global};
use tl_cert_output::{Page, Text};
use tl_map_county::Map;

/// The records of a map's border, whose one polygon has this CENID.
#[derive(Clone, Copy)]
pub struct BorderText<'a> {
    pub map: &'a Map,
    pub name: [u8; 5],
}

impl Text for BorderText<'_> {
    ghost use Rattle.std.specs.Prelude.{⊤};
    ghost use Rattle.tigertopo_border.specs.Border.{border_text};

    ghost text = { λ border. border_text border.name border.map.now };

    ghost is_ready = { λ border. ⊤ };

    fn add_to<P: Page>(&self, _alloc: Global, page: &mut P) -> Result<(), AllocError> {
        print_border(self.map, self.name, page);
        Ok(())
    }
}
