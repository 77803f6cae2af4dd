//! The keys of polygons.

ghost use Rattle.std.specs.Prelude.{encode_utf8};
ghost use Rattle.tl_record_key.specs.KeyText.{key_text};
ghost use Rattle.tl_list_text.specs.Keys.{whole_cenid};

use tl_cert_output::Page;
use tl_record::PolyKey;

/// Prints the key of a polygon.
pub fn print_key<P: Page>(key: PolyKey, page: &mut P)
    ensures { P.adds page.old page.new (key_text key) }
{
    print_cenid(key, page);
    page.add(b"/");
    page.number(key.polyid);
}

/// Prints the five bytes of its CENID, each blank as an underscore.
pub fn print_cenid<P: Page>(key: PolyKey, page: &mut P)
    ensures { P.adds page.old page.new (whole_cenid key) }
{
    let [first, second, third, fourth, fifth] = key.shown_cenid();
    print_char(first, page);
    print_char(second, page);
    print_char(third, page);
    print_char(fourth, page);
    print_char(fifth, page);
}

// Prints a character.
fn print_char<P: Page>(c: char, page: &mut P)
    ensures { P.adds page.old page.new (encode_utf8 c) }
{
    let mut bytes = [0; 4];
    page.add(c.encode_utf8(&mut bytes).as_bytes());
}
