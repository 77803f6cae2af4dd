//! Pages, which text is added to.

ghost use Rattle.std.specs.Prelude.{ℕ, List};
ghost use Rattle.tl_cert_output.specs.Pages.{IsAdding};

use itoa::{Buffer, Integer};

/// What text is added to. Whoever prints adds to a page, and doesn't know where its text goes.
pub trait Page {
    // From the one to the other this text is added.
    ghost adds: { Self → Self → List ℕ → Type 0 };

    /// Adds these bytes.
    fn add(&mut self, bytes: &[u8])
        ensures { adds self.old self.new bytes.now };

    // One text behind another is added as both together.
    ghost adding: { IsAdding adds };

    /// Adds a number.
    final fn number<I: Integer>(&mut self, number: I)
        ensures { adds self.old self.new (I.text number) }
    {
        let mut digits = Buffer::new();
        self.add(digits.format(number).as_bytes());
    }
}
