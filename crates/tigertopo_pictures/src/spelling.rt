//! Words within text of another kind, where some bytes are spelt otherwise.

ghost use Rattle.std.specs.Prelude.{◌≡◌, ℕ, List};
ghost use Rattle.std.specs.List.{flat_map};
ghost use Rattle.tigertopo_pictures.specs.Spelling.{AddsSpelt};

use tl_cert_output::Page;

/// Words that are printed within text.
pub trait Words {
    // The words.
    ghost text: { Self → List ℕ };

    /// Prints them as they are.
    fn print<P: Page>(&self, page: &mut P)
        ensures { P.adds page.old page.new (text self.now) };
}

/// How bytes are spelt.
pub trait Spelling {
    // What is printed of a byte.
    ghost spelt: { ℕ → List ℕ };

    /// Prints a byte.
    fn print<P: Page>(&self, byte: u8, page: &mut P)
        ensures { P.adds page.old page.new (spelt byte) };
}

/// Prints words in a spelling.
pub fn print_spelt<E: Spelling, W: Words, P: Page>(spelling: &E, words: &W, page: &mut P)
    ensures { P.adds page.old page.new (flat_map E.spelt (W.text words.now)) }
{
    let mut spelt = Spelt { spelling, page };
    print_on(words, &mut spelt);
}

/// Prints bytes in a spelling.
pub fn print_bytes<E: Spelling, P: Page>(spelling: &E, bytes: &[u8], page: &mut P)
    ensures { P.adds page.old page.new (flat_map E.spelt bytes.now) }
{
    for byte in bytes {
        spelling.print(*byte, page);
    }
}

// A page whose text stands on another one, spelt.
#[derive(Drop)]
struct Spelt<'a, E, P> {
    spelling: &'a E,
    page: &'a mut P,
}

impl<E: Spelling, P: Page> Page for Spelt<'_, E, P> {
    ghost use Rattle.tigertopo_pictures.specs.SpellingLaws.{spelt_adds};

    ghost adds = { λ old new text. AddsSpelt E.spelt P.adds old new text };

    fn add(&mut self, bytes: &[u8]) {
        print_bytes(self.spelling, bytes, self.page);
    }

    ghost adding = { spelt_adds E.spelt P.adding };
}

// Prints words on such a page.
fn print_on<E: Spelling, W: Words, P: Page>(words: &W, spelt: &mut Spelt<'_, E, P>)
    ensures same { spelt.new.page.ghost_name ≡ spelt.old.page.ghost_name }
    ensures adds { P.adds spelt.old.page.now spelt.new.page.now (flat_map E.spelt (W.text words.now)) }
{
    words.print(spelt);
}
