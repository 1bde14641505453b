// Sinks for bytes.
ghost use Rattle.std.specs.Prelude.{◌≤◌, ◌<◌, ℕ, List, Option, length, IfOk, OnErr};
ghost use Rattle.cp_base.specs.Outside.{IsNeeded, Puts, Rose};

use crate::status::Failed;

/// A sink for bytes that may fail.
pub trait Sink {
    /// What the sink has taken, if it tells.
    ghost held: { Self → Option (List ℕ) };

    /// How often the sink has failed: a count that stops at `u64::MAX`.
    ghost faults: { Self → ℕ };

    /// How many calls were made without need: with an empty piece. A sink that does not count them may always tell the same number.
    ghost needless: { Self → ℕ };

    /// Puts a prefix of the bytes and returns its length: at least one of a nonempty piece. A sink that can take none of a
    /// nonempty piece fails. A failed call leaves what the sink holds unchanged.
    fn put(&mut self, bytes: &[u8]) -> Result<usize, Failed>
        ensures count { IfOk result (λ n. n ≤ length bytes.now) }
        ensures progress { IfOk result (λ n. 0 < length bytes.now → 0 < n) }
        ensures failed { OnErr result (Rose (faults self.old) (faults self.new)) }
        ensures never_falls { faults self.old ≤ faults self.new }
        ensures moved { Puts (held self.old) (held self.new) bytes.now result }
        ensures needed { IsNeeded bytes.now (needless self.old) (needless self.new) };
}
