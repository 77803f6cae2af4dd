//! Strings of JSON.

ghost use Rattle.tl_list_text.specs.Keys.{whole_cenid};
ghost use Rattle.tigertopo_words.specs.Json.{string_text};
ghost use Rattle.tigertopo_pictures.specs.Geojson.Strings.{key_string, key_members};

use crate::spelling::{Spelling, Words, print_bytes, print_spelt};
use tigertopo_words::json_byte;
use tl_cert_output::Page;
use tl_list_text::{print_cenid, print_key as print_plain_key};
use tl_record_key::PolyKey;

// Bytes as they are spelt within a string.
#[derive(Clone, Copy)]
struct InString;

impl Spelling for InString {
    ghost use Rattle.tigertopo_words.specs.Json.{string_byte};

    ghost spelt = { string_byte };

    fn print<P: Page>(&self, byte: u8, page: &mut P) {
        page.add(json_byte(byte).as_slice());
    }
}

/// Prints bytes as a string.
pub fn print_string<P: Page>(text: &[u8], page: &mut P)
    ensures { P.adds page.old page.new (string_text text.now) }
{
    page.add(b"\"");
    print_bytes(&InString, text, page);
    page.add(b"\"");
}

/// Prints words as a string.
pub fn print_quoted<W: Words, P: Page>(words: &W, page: &mut P)
    ensures { P.adds page.old page.new (string_text (W.text words.now)) }
{
    page.add(b"\"");
    print_spelt(&InString, words, page);
    page.add(b"\"");
}

// The key of a polygon.
#[derive(Clone, Copy)]
struct KeyWords(PolyKey);

impl Words for KeyWords {
    ghost use Rattle.tl_record_key.specs.KeyText.{key_text};

    ghost text = { λ words. key_text words.0 };

    fn print<P: Page>(&self, page: &mut P) {
        print_plain_key(self.0, page);
    }
}

// Its CENID.
#[derive(Clone, Copy)]
struct CenidWords(PolyKey);

impl Words for CenidWords {
    ghost use Rattle.tl_list_text.specs.Keys.{whole_cenid};

    ghost text = { λ words. whole_cenid words.0 };

    fn print<P: Page>(&self, page: &mut P) {
        print_cenid(self.0, page);
    }
}

/// Prints the key of a polygon as a string.
pub fn print_key<P: Page>(key: PolyKey, page: &mut P)
    ensures { P.adds page.old page.new (key_string key) }
{
    print_quoted(&KeyWords(key), page);
}

/// Prints what a feature has of its polygon: the key, and the CENID and the POLYID apart.
pub fn print_key_members<P: Page>(key: PolyKey, page: &mut P)
    ensures { P.adds page.old page.new (key_members key) }
{
    page.add(b"\"polygon\":");
    print_key(key, page);
    page.add(b",\"cenid\":");
    print_quoted(&CenidWords(key), page);
    page.add(b",\"polyid\":");
    page.number(key.polyid);
}
