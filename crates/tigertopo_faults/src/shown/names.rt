//! Bytes that aren't shown as they are, and names of files as they are shown.

ghost use Rattle.std.specs.Prelude.{◌≡◌, slice_index};
ghost use Rattle.tigertopo_words.specs.Names.{escaped_byte, is_late_control, is_shown, shown_between, shown_name};

use tigertopo_words::hex_digit;
use tl_cert_output::Page;

/// Prints a file's name as it is shown: of a control character, U+007F to U+009F among them, and of a backslash each byte is `\x` and two
/// hexadecimal digits. So a name stands on one line, sends nothing to a terminal, and is no other's.
pub fn print_name<P: Page>(name: &str, page: &mut P)
    ensures { P.adds page.old page.new (shown_name name.now) }
{
    print_shown(name.as_bytes(), page);
}

// Prints the bytes of a name as they are shown.
fn print_shown<P: Page>(bytes: &[u8], page: &mut P)
    ensures { P.adds page.old page.new (shown_name bytes.now) }
{
    let mut before = 0;
    for at in 0..bytes.len() {
        print_between(before, bytes[at], byte_at(bytes, at + 1), page);
        before = bytes[at];
    }
}

// Prints a byte of a name that stands between these two, as it is shown.
fn print_between<P: Page>(before: u8, byte: u8, after: u8, page: &mut P)
    ensures { P.adds page.old page.new (shown_between before byte after) }
{
    if is_shown(before, byte, after) {
        page.add(&[byte]);
    } else {
        print_escaped(byte, page);
    }
}

/// A byte, and 0 past the end.
pub fn byte_at(bytes: &[u8], at: usize) -> u8
    ensures { result ≡ slice_index bytes.now at }
{
    if at < bytes.len() { bytes[at] } else { 0 }
}

/// Is a byte of a name that stands between these two shown as itself?
pub fn is_shown(before: u8, byte: u8, after: u8) -> bool
    ensures { result ≡ is_shown before byte after }
{
    (32 <= byte && (byte != 127 && byte != b'\\'))
        && (!is_late_control(before, byte) && !is_late_control(byte, after))
}

// Are two bytes, one behind the other, a control character from U+0080 to U+009F?
fn is_late_control(first: u8, second: u8) -> bool
    ensures { result ≡ is_late_control first second }
{
    first == 0xc2 && (128 <= second && second < 160)
}

/// Prints a byte that isn't shown as itself: `\x` and its two hexadecimal digits.
pub fn print_escaped<P: Page>(byte: u8, page: &mut P)
    ensures { P.adds page.old page.new (escaped_byte byte) }
{
    page.add(&[b'\\', b'x', hex_digit(byte / 16), hex_digit(byte % 16)]);
}
