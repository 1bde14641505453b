// What a command puts.
ghost use Rattle.std.specs.Prelude.{◌≡◌, ℕ, List, Some, OnErr};
ghost use Rattle.cp_app.specs.Steps.{HasPut, outcomes_status};
ghost use Rattle.cp_base.specs.Outside.{Rose};

use crate::output::put_pieces;
use cp_base::{Failed, Sink, Status};

// What a command puts, the byte offset at which each of its top forms ends, and whether every outcome in it is complete.
#[derive(Drop)]
pub(crate) struct Answer {
    pub(crate) text: Vec<u8>,
    pub(crate) ends: Vec<usize>,
    pub(crate) complete: bool,
}

// The status of a run whose answer was put.
pub(crate) fn outcomes_status(complete: bool) -> Status
    ensures { result ≡ outcomes_status complete }
{
    if complete {
        Status::Done
    } else {
        Status::Limit
    }
}

// Puts an answer, one piece for each top form.
pub(crate) fn put_answer<O: Sink>(out: &mut O, answer: &Answer) -> Result<(), Failed>
    ensures put { (before : List ℕ) → O.held out.old ≡ Some before
        → HasPut before answer.now.text.items (O.held out.new) result }
    ensures failed { OnErr result (Rose (O.faults out.old) (O.faults out.new)) }
    ensures needed { O.needless out.new ≡ O.needless out.old }
{
    put_pieces(out, &answer.text, &answer.ends)
}
