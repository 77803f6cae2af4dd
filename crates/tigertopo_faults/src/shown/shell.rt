//! Words as they are typed, so that a shell takes them as they are.

ghost use Rattle.std.specs.Prelude.{◌≡◌};
ghost use Rattle.std.specs.List.{list_all};
ghost use Rattle.tigertopo_words.specs.Shell.{is_bare, is_bare_word, quoted_byte, quoted_word, shell_word};
ghost use Rattle.tigertopo_words.specs.Names.{told_behind};

use crate::shown::names::{byte_at, is_shown, print_escaped};
use tl_cert_output::Page;

/// Prints a word as it is typed: between quotation marks where a shell would take it otherwise. It stands on one line, and sends nothing to a
/// terminal.
pub fn print_shell_word<P: Page>(word: &str, page: &mut P)
    ensures { P.adds page.old page.new (shell_word word.now) }
{
    let bytes = word.as_bytes();
    if is_bare_word(bytes) {
        page.add(bytes);
    } else {
        print_quoted_word(bytes, page);
    }
}

// Does a word mean nothing to a shell but itself?
fn is_bare_word(word: &[u8]) -> bool
    ensures { result ≡ is_bare_word word.now }
{
    !word.is_empty() && are_bare(word)
}

// Prints a word between quotation marks.
fn print_quoted_word<P: Page>(word: &[u8], page: &mut P)
    ensures { P.adds page.old page.new (quoted_word word.now) }
{
    page.add(b"'");
    print_quoted(word, page);
    page.add(b"'");
}

// Do these bytes mean nothing to a shell but themselves?
fn are_bare(bytes: &[u8]) -> bool
    ensures { result ≡ list_all is_bare bytes.now }
{
    for byte in bytes {
        if !is_bare(*byte) {
            return false;
        }
    }
    true
}

// Does a byte mean nothing to a shell but itself?
fn is_bare(byte: u8) -> bool
    ensures { result ≡ is_bare byte }
{
    ((b'+' <= byte && byte <= b':') || (b'@' <= byte && byte <= b'Z'))
        || ((b'a' <= byte && byte <= b'z') || (byte == b'%' || byte == b'=' || byte == b'_'))
}

// Prints the bytes of a word between quotation marks.
fn print_quoted<P: Page>(bytes: &[u8], page: &mut P)
    ensures { P.adds page.old page.new (told_behind quoted_byte 0 bytes.now) }
{
    let mut before = 0;
    for at in 0..bytes.len() {
        print_quoted_byte(before, bytes[at], byte_at(bytes, at + 1), page);
        before = bytes[at];
    }
}

// Prints a byte between quotation marks, which stands between these two.
fn print_quoted_byte<P: Page>(before: u8, byte: u8, after: u8, page: &mut P)
    ensures { P.adds page.old page.new (quoted_byte before byte after) }
{
    if byte == b'\'' {
        page.add(b"'\\''");
    } else if byte == b'\\' || is_shown(before, byte, after) {
        page.add(&[byte]);
    } else {
        page.add(b"'$'");
        print_escaped(byte, page);
        page.add(b"''");
    }
}
