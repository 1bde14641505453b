// Why a text, or the forms in it, could not be read.
ghost use Rattle.std.specs.Prelude.{◌≡◌};
ghost use Rattle.cp_sexpr.specs.declared.error.OrMemory.TheVariants.{Refused, Memory};

use cp_base::Refusal;
use std::alloc::{AllocError, AllocFailed};
use thiserror::Error;

/// Why a text, or the forms in it, could not be read: for a cause of its own, or because memory ran out.
#[derive(Debug, Drop, Error)]
pub enum OrMemory<E> {
    /// Refused, for this cause.
    #[error("refused")]
    Refused(E),
    /// Memory ran out.
    #[error("out of memory")]
    Memory,
}

/// Why a text could not be read: it is refused, for its first fault from the left, or memory ran out.
pub type ReadError = OrMemory<Refusal>;

impl From<Refusal> for OrMemory<Refusal> {
    ghost from_gives = { λ r e. e ≡ Refused r };

    fn from(r: Refusal) -> OrMemory<Refusal> {
        OrMemory::Refused(r)
    }
}

impl<E> From<AllocError> for OrMemory<E> {
    ghost from_gives = { λ _ e. e ≡ Memory };

    fn from(_e: AllocError) -> OrMemory<E> {
        OrMemory::Memory
    }
}

impl<E, T: Drop> From<AllocFailed<T>> for OrMemory<E> {
    ghost from_gives = { λ _ e. e ≡ Memory };

    fn from(_e: AllocFailed<T>) -> OrMemory<E> {
        OrMemory::Memory
    }
}
