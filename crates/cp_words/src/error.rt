// Why words give no command.
ghost use Rattle.std.specs.Prelude.{◌≡◌};
ghost use Rattle.clap.specs.Words.{kind_of};
ghost use Rattle.cp_words.specs.Parsed.{words_error_of};
ghost use Rattle.cp_words.specs.declared.error.WordsError.TheVariants.{Memory};

use clap::error::ErrorKind;
use std::alloc::AllocError;
use thiserror::Error;

/// Why words give no command.
#[derive(Debug, Drop, Error)]
pub enum WordsError {
    /// The words are no command.
    #[error("the words are no command")]
    Usage,
    /// Memory ran out.
    #[error("out of memory")]
    Memory,
}

impl From<AllocError> for WordsError {
    ghost from_gives = { λ _ e. e ≡ Memory };

    fn from(_e: AllocError) -> WordsError {
        WordsError::Memory
    }
}

impl From<clap::Error> for WordsError {
    ghost from_gives = { λ error e. e ≡ words_error_of (kind_of error) };

    fn from(error: clap::Error) -> WordsError {
        match error.kind() {
            ErrorKind::OutOfMemory => WordsError::Memory,
            _ => WordsError::Usage,
        }
    }
}
