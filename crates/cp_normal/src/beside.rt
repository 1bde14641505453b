// The normal forms of a skeleton beside a substitution, and whether they differ from it in their order alone.
ghost use Rattle.std.specs.Prelude.{IsTrue, IfOk};
ghost use Rattle.cp_lists.specs.Lists.{IsIn};
ghost use Rattle.cp_normal.specs.Candidates.{NarrowsInto};
ghost use Rattle.cp_normal.specs.Leaves.{EachHasLeaves, HasOpen};
ghost use Rattle.cp_normal.specs.Formed.{AreFormsBeside, Keeps};
ghost use Rattle.cp_normal.specs.declared.form.Form.{Form as PlainForm};

use crate::form::Form;
use crate::narrowing::{Narrowing, Next, next_of, settled};
use crate::rewriting::{Candidate, each_leaves, some_is_open};
use crate::unified_branches::branches;
use cp_skel::Skeleton;
use cp_unify::Subst;
use std::alloc::{AllocError, Global};
use std::marker::Brand;

/// Normal forms of a skeleton.
#[derive(Drop)]
pub struct FormsBeside {
    pub forms: Vec<Form>,
    /// Set if each form has the skeleton's strands and the given substitution.
    pub are_settled: bool,
}

/// The normal forms to which candidates come, and whether none of the candidates is open.
fn forms_among(
    alloc: Global,
    candidates: Vec<Candidate<Form, Form>>,
) -> Result<FormsBeside, AllocError>
    ensures { IfOk result (λ found. EachHasLeaves NarrowsInto candidates.items found.forms.items
        × (IsTrue found.are_settled → HasOpen candidates.items → ⊥)) }
{
    let are_settled = !some_is_open(&candidates);
    let forms = each_leaves::<Narrowing, Brand>(alloc, &Narrowing, candidates)?;
    Ok(FormsBeside { forms, are_settled })
}

/// The normal forms of a skeleton, as [`normalise_beside`](crate::normalise_beside) tells them. If no unique value is misplaced in
/// the skeleton, they are known to keep its strands and the given substitution; there is one at most then, for which no list of
/// candidates is made.
pub fn forms_beside(alloc: Global, k: Skeleton, beside: Subst) -> Result<FormsBeside, AllocError>
    ensures forms { IfOk result (λ found. AreFormsBeside k beside found.forms.items) }
    ensures settled { IfOk result (λ found. IsTrue found.are_settled → (f : PlainForm) → IsIn f found.forms.items → Keeps k beside f) }
{
    let form = Form {
        skeleton: k,
        substitution: beside,
    };
    match next_of(alloc, &form.skeleton)? {
        Next::Ends => Ok(FormsBeside {
            forms: Vec::new(alloc),
            are_settled: true,
        }),
        Next::Branches(misplaced, atoms) => {
            let candidates = branches(alloc, &form, &misplaced.value, &atoms)?;
            forms_among(alloc, candidates)
        }
        Next::Settles(pairs) => {
            let normal = settled(alloc, form, pairs)?;
            let forms = vec![in alloc; normal]?;
            Ok(FormsBeside {
                forms,
                are_settled: true,
            })
        }
    }
}
