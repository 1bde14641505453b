// What `bench` puts.
ghost use Rattle.std.specs.Prelude.{◌≡◌, ◌≤◌, string_bytes, IfErr, IfOk};
ghost use Rattle.cp_language.specs.Input.{input_of};
ghost use Rattle.cp_generate.specs.Generated.{generated_forms};
ghost use Rattle.cp_app.specs.Analysis.{IsAnalysisOf};
ghost use Rattle.cp_app.specs.Bench.{bench_line};
ghost use Rattle.cp_app.specs.Details.{IsBenchmarkInDetail};
ghost use Rattle.cp_app.specs.Headline.{HaveTrees};
ghost use Rattle.cp_app.specs.Steps.{outcomes_status, AreTotals};
ghost use Rattle.cp_app.specs.declared.stopped.Stopped.TheVariants.{Memory};

use crate::analysis::{is_complete, trees_of};
use crate::answer::Answer;
use crate::stopped::Stopped;
use cp_generate::{generate, generated_text_is_accepted};
use cp_load::load;
use cp_print::{expanded_count, shape_count};
use cp_sexpr::read;
use cp_skel::{Limits, Tree};
use std::alloc::{AllocError, Global};

// Sums over trees: how many labels there are, how many were expanded, how many are shapes, and how many trees are complete.
#[derive(Clone, Copy)]
struct Totals {
    labels: u128,
    expanded: u128,
    shapes: u128,
    complete: u128,
}

// The sums over these trees.
fn sums_over(trees: &[Tree]) -> Totals
    ensures { AreTotals trees.now result }
{
    let mut all = Totals {
        labels: 0,
        expanded: 0,
        shapes: 0,
        complete: 0,
    };
    for tree in trees {
        let labels = tree.labels.as_slice();
        all.labels += labels.len() as u128;
        all.expanded += expanded_count(labels) as u128;
        all.shapes += shape_count(labels) as u128;
        all.complete += is_complete(tree.outcome) as u128;
    }
    all
}

// The line for `n` problems of these sums.
fn line(alloc: Global, n: u32, all: Totals) -> Result<String, AllocError>
    ensures { IfOk result (λ text. string_bytes text ≡ bench_line n all.labels all.expanded all.shapes all.complete) }
{
    let Totals {
        labels,
        expanded,
        shapes,
        complete,
    } = all;
    format!(in alloc;
        "(bench {n} labels {labels} expanded {expanded} shapes {shapes} complete {complete})\n"
    )
}

// The trees of `n` problems that are generated.
fn generated_trees(alloc: Global, n: u32, limits: Limits) -> Result<Vec<Tree>, Stopped>
    requires few { n ≤ 500 }
    ensures trees { IfOk result (λ ts. HaveTrees (IsAnalysisOf limits) (input_of (generated_forms n)) ts.items) }
    ensures memory { IfErr result (λ cause. cause ≡ Memory) }
{
    generated_text_is_accepted();
    let text = generate(alloc, n)?;
    let forms = read(alloc, &text)?;
    let loaded = load(alloc, &forms)?;
    trees_of(alloc, &loaded.entries, limits).map_err(Stopped::from)
}

// Analyses `n` problems that are generated, and counts.
pub(crate) fn benchmark(alloc: Global, n: u32, limits: Limits) -> Result<Answer, Stopped>
    requires few { n ≤ 500 }
    ensures answer { IfOk result (λ answer. IsBenchmarkInDetail n limits answer.text.items (outcomes_status answer.complete)) }
    ensures memory { IfErr result (λ cause. cause ≡ Memory) }
{
    let trees = generated_trees(alloc, n, limits)?;
    let all = sums_over(&trees);
    let text = line(alloc, n, all)?;
    Ok(Answer {
        text: text.into_bytes(),
        ends: Vec::new(alloc),
        complete: all.complete >= n as u128,
    })
}
