// Why there is no verdict.
use cp_base::{Place, Status};
use cp_readback::ReadBackError;
use cp_sexpr::ReadError;
use cp_words::WordsError;
use std::alloc::{AllocError, AllocFailed};
use std::io;
use std::io::ErrorKind;
use thiserror::Error;

/// Why there is no verdict.
#[derive(Clone, Copy, Debug, Drop, Error)]
pub(crate) enum Stopped {
    #[error("usage: cpsa_check print, or cpsa_check analyse [--limit N] [--bound N]")]
    Usage,
    #[error("no report {}:{}", .0.line, .0.col)]
    NoReport(Place),
    #[error("read fault")]
    ReadFault,
    #[error("memory")]
    Memory,
    #[error("too long")]
    TooLong,
}

impl Stopped {
    /// `Memory` if the error is want of memory, otherwise the other reason.
    pub(crate) fn memory_or(error: io::Error, other: Stopped) -> Stopped {
        match error.kind() {
            ErrorKind::OutOfMemory => Stopped::Memory,
            _ => other,
        }
    }

    /// The status that the program ends with.
    pub(crate) fn number(self) -> u8 {
        match self {
            Stopped::Usage => Status::Usage.number(),
            Stopped::NoReport(_) => 3,
            Stopped::ReadFault => Status::ReadFault.number(),
            Stopped::Memory => Status::Memory.number(),
            Stopped::TooLong => Status::TooLong.number(),
        }
    }
}

impl From<AllocError> for Stopped {
    fn from(_: AllocError) -> Stopped {
        Stopped::Memory
    }
}

impl<T: Drop> From<AllocFailed<T>> for Stopped {
    fn from(_: AllocFailed<T>) -> Stopped {
        Stopped::Memory
    }
}

impl From<WordsError> for Stopped {
    fn from(error: WordsError) -> Stopped {
        match error {
            WordsError::Usage => Stopped::Usage,
            WordsError::Memory => Stopped::Memory,
        }
    }
}

impl From<ReadError> for Stopped {
    fn from(error: ReadError) -> Stopped {
        match error {
            ReadError::Refused(refusal) => Stopped::NoReport(refusal.place),
            ReadError::Memory => Stopped::Memory,
        }
    }
}

impl From<ReadBackError> for Stopped {
    fn from(error: ReadBackError) -> Stopped {
        match error {
            ReadBackError::Refused(place) => Stopped::NoReport(place),
            ReadBackError::Memory => Stopped::Memory,
        }
    }
}
