//! Why words are no command.

ghost use Rattle.std.specs.Prelude.{◌≡◌};
ghost use Rattle.tigertopo_words.specs.declared.stop.WordsStop.TheVariants.{Memory};

use std::alloc::AllocError;

/// Why the words are no command.
#[derive(Drop)]
pub enum WordsStop {
    /// They don't name a command as it is used. The text says what is wrong; it is empty where memory was refused for it.
    Usage(String),
    /// They ask for help or for the version. The text is the answer.
    Help(String),
    /// Memory was refused, and nothing shows that they name no command.
    Memory,
}

impl From<AllocError> for WordsStop {
    ghost from_gives = { λ _ stop. stop ≡ Memory };

    fn from(_error: AllocError) -> WordsStop {
        WordsStop::Memory
    }
}
