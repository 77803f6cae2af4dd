//! Strings of JSON, byte by byte.

ghost use Rattle.std.specs.Prelude.{◌≡◌, ◌<◌};
ghost use Rattle.tigertopo_words.specs.Json.{byte_character, numbered, string_byte};
ghost use Rattle.tigertopo_words.specs.Names.{hex_digit};

use arrayvec::ArrayVec;

/// A byte of a string, as it stands between the quotation marks.
pub fn json_byte(byte: u8) -> ArrayVec<u8, 6>
    ensures { result.items ≡ string_byte byte }
{
    let mut text = ArrayVec::new();
    if byte == b'"' || byte == b'\\' {
        text.push(b'\\');
        text.push(byte);
    } else if byte < 32 {
        return numbered(byte);
    } else {
        text.push(byte);
    }
    text
}

// A character below 256 by its number.
fn numbered(byte: u8) -> ArrayVec<u8, 6>
    ensures { result.items ≡ numbered byte }
{
    let mut text = ArrayVec::new();
    text.push(b'\\');
    text.push(b'u');
    text.push(b'0');
    text.push(b'0');
    text.push(hex_digit(byte / 16));
    text.push(hex_digit(byte % 16));
    text
}

/// A byte that may be of no text, as the character of its number.
pub fn byte_character(byte: u8) -> ArrayVec<u8, 6>
    ensures { result.items ≡ byte_character byte }
{
    if byte < 127 {
        json_byte(byte)
    } else {
        numbered(byte)
    }
}

/// A hexadecimal digit.
pub fn hex_digit(digit: u8) -> u8
    requires { digit < 16 }
    ensures { result ≡ hex_digit digit }
{
    if digit < 10 {
        b'0' + digit
    } else {
        b'a' + (digit - 10)
    }
}
