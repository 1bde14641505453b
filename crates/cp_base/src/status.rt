// How a run ends, and the error of a source or a sink.
ghost use Rattle.std.specs.Prelude.{◌≡◌};
ghost use Rattle.cp_base.specs.Statuses.{status_number};

use crate::place::Refusal;

/// A fault outside the program: a read or a write failed.
#[derive(Clone, Copy, Debug, PartialEq, Eq)]
pub struct Failed;

/// How a run ends.
#[derive(Clone, Copy, Debug, PartialEq, Eq)]
pub enum Status {
    /// The whole output was put, and no search met a limit.
    Done,
    /// The whole output was put, and some search met a limit.
    Limit,
    /// The words are not a command.
    Usage,
    /// The input is refused, at this place and with this code.
    Refused(Refusal),
    /// The source failed.
    ReadFault,
    /// The sink for the output failed.
    WriteFault,
    /// Memory ran out.
    Memory,
    /// The input has more bytes than a run reads.
    TooLong,
}

impl Status {
    /// The exit status of the program: 0 for `Done`, 1 for `Limit`, 2 for `Usage`, 3 for `Refused`, 4 for `ReadFault`, 5 for
    /// `WriteFault`, 6 for `Memory`, 7 for `TooLong`.
    pub fn number(self) -> u8
        ensures { result ≡ status_number self }
    {
        match self {
            Status::Done => 0,
            Status::Limit => 1,
            Status::Usage => 2,
            Status::Refused(_) => 3,
            Status::ReadFault => 4,
            Status::WriteFault => 5,
            Status::Memory => 6,
            Status::TooLong => 7,
        }
    }
}
