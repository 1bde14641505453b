// Reads the whole input from a source.
ghost use Rattle.std.specs.Prelude.{◌≡◌, ◌≤◌, ℕ, List, [], false, length, Some, IfOk, IfErr};
ghost use Rattle.cp_app.specs.Headline.{most_bytes};
ghost use Rattle.cp_app.specs.Steps.{HasStoppedReading};
ghost use Rattle.cp_app.specs.declared.stopped.Stopped.TheVariants.{ReadFault};
ghost use Rattle.cp_base.specs.Outside.{Rose};

use crate::stopped::Stopped;
use cp_base::Source;
use cp_sexpr::MAX_LENGTH;
use std::alloc::Global;

// The number of bytes asked for at once.
const BUFFER_LENGTH: usize = 4_096;

// Reads the source to its end and returns its bytes. It stops after one byte more than an input may have, with the error
// `TooLong`.
pub(crate) fn read_all<S: Source>(alloc: Global, source: &mut S) -> Result<Vec<u8>, Stopped>
    ensures short { IfOk result (λ bytes. length bytes.items ≤ most_bytes) }
    ensures whole { (input : List ℕ) → S.left source.old ≡ Some input
        → IfOk result (λ bytes. (bytes.items ≡ input) × (S.left source.new ≡ Some [])) }
    ensures stopped { (input : List ℕ) → S.left source.old ≡ Some input
        → IfErr result (HasStoppedReading input (S.left source.new)) }
    ensures read_fault { IfErr result (λ cause. cause ≡ ReadFault
        → Rose (S.faults source.old) (S.faults source.new)) }
    ensures needed { S.has_ended source.old ≡ false → S.needless source.new ≡ S.needless source.old }
{
    let mut bytes = Vec::new(alloc);
    let mut buffer = [0; BUFFER_LENGTH];
    while bytes.len() <= MAX_LENGTH {
        let room = buffer.len().min(MAX_LENGTH + 1 - bytes.len());
        let Ok(count) = source.take(&mut buffer[..room]) else {
            return Err(Stopped::ReadFault);
        };
        if count == 0 {
            return Ok(bytes);
        }
        bytes.extend_from_slice(&buffer[..count])?;
    }
    Err(Stopped::TooLong)
}
