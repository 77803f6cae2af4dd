//! The numbers of darts: dart 2c runs along chain c, dart 2c + 1 against it.

ghost use Rattle.std.specs.Prelude.{◌≡◌};
ghost use Rattle.tl_map_county.specs.Darts.{reverse_dart as reverse_dart_of};

/// The reverse of a dart: the other dart of its chain.
pub fn reverse_dart(dart: u32) -> u32
    ensures { result ≡ reverse_dart_of dart }
{
    if dart % 2 == 0 { dart + 1 } else { dart - 1 }
}
