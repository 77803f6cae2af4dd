//! Strings of JSON.

ghost use Rattle.std.specs.List.{flat_map};
ghost use Rattle.tigertopo_words.specs.Json.{byte_character, bytes_text};

use tigertopo_words::byte_character;
use tl_cert_output::Page;

/// Prints bytes that may be no text as a string: each is the character of its number.
pub fn print_byte_string<P: Page>(bytes: &[u8], page: &mut P)
    ensures { P.adds page.old page.new (bytes_text bytes.now) }
{
    page.add(b"\"");
    print_characters(bytes, page);
    page.add(b"\"");
}

// Prints bytes, each as the character of its number.
fn print_characters<P: Page>(bytes: &[u8], page: &mut P)
    ensures { P.adds page.old page.new (flat_map byte_character bytes.now) }
{
    for byte in bytes {
        page.add(byte_character(*byte).as_slice());
    }
}
