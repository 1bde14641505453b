// Branches of a skeleton.
ghost use Rattle.std.specs.Prelude.{◌≡◌, IfOk};
ghost use Rattle.cp_model.specs.Term.{Term, apply_to};
ghost use Rattle.cp_theory.specs.Normal.{skeleton_under};
ghost use Rattle.cp_unify.specs.Bindings.{as_substitution};
ghost use Rattle.cp_collapse.specs.SameSkeletons.{SaysTheSame};
ghost use Rattle.cp_normal.specs.Candidates.{AreOpenBranches};

use crate::form::Form;
use crate::rewriting::Candidate;
use cp_collapse::under;
use cp_skel::Atom;
use cp_unify::{Subst, compose, unify};
use std::alloc::{AllocError, Global};

/// The skeleton under `s`, and its own substitution followed by `s`.
fn branch_by(alloc: Global, form: &Form, s: &Subst) -> Result<Form, AllocError>
    ensures same { IfOk result (λ l. SaysTheSame (skeleton_under (as_substitution s.now) form.now.skeleton) l.skeleton) }
    ensures variables { IfOk result (λ l. l.skeleton.variables ≡ form.now.skeleton.variables) }
    ensures followed { IfOk result (λ l. (t : Term)
        → apply_to (as_substitution l.substitution) t
        ≡ apply_to (as_substitution s.now) (apply_to (as_substitution form.now.substitution) t)) }
{
    let skeleton = under(alloc, &form.skeleton, s)?;
    compose(alloc, &form.substitution, s).map(|substitution| Form {
        skeleton,
        substitution,
    })
}

/// For each atom that unifies with the value, in order: the skeleton under their most general unifier, and its substitution
/// followed by that unifier, to be narrowed further.
pub(crate) fn branches(
    alloc: Global,
    form: &Form,
    value: &Atom,
    atoms: &[Atom],
) -> Result<Vec<Candidate<Form, Form>>, AllocError>
    ensures { IfOk result (λ made. AreOpenBranches form.now value.now atoms.now made.items) }
{
    let nothing = Subst::new(alloc);
    let mut branches = Vec::new(alloc);
    for atom in atoms {
        let s = match unify(alloc, value.as_term(), atom.as_term(), &nothing)? {
            Some(s) => s,
            None => continue,
        };
        branches.push(Candidate::Open(branch_by(alloc, form, &s)?))?;
    }
    Ok(branches)
}
