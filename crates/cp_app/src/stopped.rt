// Why a run prints no report.
ghost use Rattle.std.specs.Prelude.{◌≡◌};
ghost use Rattle.cp_app.specs.Steps.{status_of};

use cp_base::{Refusal, Status};
use cp_sexpr::OrMemory;
use std::alloc::AllocError;

// Why a run that was given a command prints no report.
#[derive(Clone, Copy, Debug, PartialEq, Eq)]
pub(crate) enum Stopped {
    // The input is refused, at this place and with this code.
    Refused(Refusal),
    // The source failed.
    ReadFault,
    // The input has more bytes than a run reads.
    TooLong,
    // Memory ran out.
    Memory,
}

impl Stopped {
    // The status of a run that stops for this reason.
    pub(crate) fn status(self) -> Status
        ensures { result ≡ status_of self }
    {
        match self {
            Stopped::Refused(refusal) => Status::Refused(refusal),
            Stopped::ReadFault => Status::ReadFault,
            Stopped::TooLong => Status::TooLong,
            Stopped::Memory => Status::Memory,
        }
    }
}

impl From<AllocError> for Stopped {
    ghost use Rattle.cp_app.specs.declared.stopped.Stopped.TheVariants.{Memory};

    ghost from_gives = { λ _ cause. cause ≡ Memory };

    fn from(_: AllocError) -> Stopped {
        Stopped::Memory
    }
}

impl From<OrMemory<Refusal>> for Stopped {
    ghost use Rattle.cp_app.specs.Steps.{cause_of};

    ghost from_gives = { λ error cause. cause ≡ cause_of error };

    fn from(error: OrMemory<Refusal>) -> Stopped {
        match error {
            OrMemory::Refused(refusal) => Stopped::Refused(refusal),
            OrMemory::Memory => Stopped::Memory,
        }
    }
}
