// What `gen` puts.
ghost use Rattle.std.specs.Prelude.{◌≡◌, true, IfErr, IfOk};
ghost use Rattle.cp_generate.specs.Generated.{generated_text};
ghost use Rattle.cp_app.specs.declared.stopped.Stopped.TheVariants.{Memory};

use crate::answer::Answer;
use crate::stopped::Stopped;
use cp_generate::generate_pieces;
use std::alloc::Global;

// The protocol and `n` problems.
pub(crate) fn generated(alloc: Global, n: u32) -> Result<Answer, Stopped>
    ensures answer { IfOk result (λ answer. (answer.text.items ≡ generated_text n) × (answer.complete ≡ true)) }
    ensures memory { IfErr result (λ cause. cause ≡ Memory) }
{
    let mut text = Vec::new(alloc);
    let mut ends = Vec::new(alloc);
    generate_pieces(alloc, n, &mut text, &mut ends)?;
    Ok(Answer {
        text,
        ends,
        complete: true,
    })
}
