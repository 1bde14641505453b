// Sources of bytes.
ghost use Rattle.std.specs.Prelude.{◌≡◌, ◌≤◌, ℕ, List, Option, Bool, false, length, IfOk, OnErr};
ghost use Rattle.cp_base.specs.Outside.{IsNeeded, Rose, StaysOpen, Takes};

use crate::status::Failed;

/// A source of bytes that may fail.
pub trait Source {
    /// What the source still holds, if it tells.
    ghost left: { Self → Option (List ℕ) };

    /// How often the source has failed: a count that stops at `u64::MAX`.
    ghost faults: { Self → ℕ };

    /// Whether a call has said that this is the end. A source that does not keep it may always say no.
    ghost has_ended: { Self → Bool };

    /// How many calls were made without need: after the end, or into an empty buffer. A source that does not count them may always
    /// tell the same number.
    ghost needless: { Self → ℕ };

    /// Takes some of the remaining bytes into the start of the buffer and returns how many.
    ///
    /// 0 for a nonempty buffer means the end. A source that tells what it holds returns 0 only there; of one that does not tell,
    /// nothing more is known. A failed call leaves what the source holds unchanged.
    fn take(&mut self, buf: &mut [u8]) -> Result<usize, Failed>
        ensures count { IfOk result (λ n. n ≤ length buf.old) }
        ensures failed { OnErr result (Rose (faults self.old) (faults self.new)) }
        ensures never_falls { faults self.old ≤ faults self.new }
        ensures moved { Takes (left self.old) (left self.new) buf.old buf.new result }
        ensures open { StaysOpen (has_ended self.old) (has_ended self.new) result }
        ensures needed { has_ended self.old ≡ false → IsNeeded buf.old (needless self.old) (needless self.new) };
}
