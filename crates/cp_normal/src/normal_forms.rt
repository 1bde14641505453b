// The normal forms of a skeleton.
ghost use Rattle.std.specs.Prelude.{◌≡◌, map, IfOk};
ghost use Rattle.cp_lists.specs.Lists.{IsIn};
ghost use Rattle.cp_model.specs.Skeleton.{Skeleton as Plain, IsSkeleton, Skeleton};
ghost use Rattle.cp_model.specs.Strand.{Protocol};
ghost use Rattle.cp_theory.specs.Normal.{LosesNoStanding};
ghost use Rattle.cp_normal.specs.BySubstitution.{ComeBySubstitutions};
ghost use Rattle.cp_normal.specs.Exact.{HasForms};
ghost use Rattle.cp_normal.specs.Formed.{AreFormsBeside};
ghost use Rattle.cp_normal.specs.NormalForms.{IsNormalFormOf};

use crate::beside::forms_beside;
use crate::form::Form;
use cp_skel::Skeleton;
use cp_unify::Subst;
use std::alloc::{AllocError, Global};

/// The normal forms of a skeleton, in the order of [`normalise`], each with a substitution: the given one, followed by the one by
/// which the normal form comes from the skeleton, independent of any bundle. So if the given substitution maps terms to terms of
/// the skeleton, the result maps them to terms of the normal form.
pub fn normalise_beside(alloc: Global, k: Skeleton, beside: &Subst) -> Result<Vec<Form>, AllocError>
    ensures forms { IfOk result (λ fs. AreFormsBeside k beside.now fs.items) }
{
    let substitution = beside.copy(alloc)?;
    let found = forms_beside(alloc, k, substitution)?;
    Ok(found.forms)
}

/// The skeletons of forms, in their order.
fn skeletons_of(alloc: Global, forms: Vec<Form>) -> Result<Vec<Skeleton>, AllocError>
    ensures { IfOk result (λ ks. ks.items ≡ map (λ f. f.skeleton) forms.items) }
{
    let mut skeletons = Vec::with_capacity(alloc, forms.len())?;
    for form in forms {
        let Form { skeleton, .. } = form;
        skeletons.push(skeleton)?;
    }
    Ok(skeletons)
}

/// The normal forms of a skeleton. The rules are tried in order, and from the start again after each change:
///
/// - No normal form: some node carries a non-originating value, or a unique value has two recorded origins or does not originate
///   at its own.
/// - Branches: if a unique value originates at a node of a role strand other than its recorded origin, each atom that an earlier
///   reception of that strand carries and that unifies with the value gives a branch: the skeleton under the most general unifier
///   of the two, which maps the later of two variables to the earlier. The normal forms are those of the branches, in order. Of
///   several such values the first is taken: by the node's strand, then its index, then the report order of unique values (the
///   problem's own, then those that roles give, strand by strand, then any others). The atoms come in the order of the
///   receptions, then of their positions, each once.
/// - Pairs: the pairs from the recorded origin of each unique value to the receptions of other strands that carry it are added.
///   If they close a cycle, there is no normal form.
///
/// Equal normal forms are kept. Each normal form is the skeleton under one substitution, independent of any bundle, with the
/// added pairs.
pub fn normalise(alloc: Global, k: Skeleton) -> Result<Vec<Skeleton>, AllocError>
    ensures forms { IfOk result (λ ks. (r : Plain) → IsIn r ks.items → IsNormalFormOf k r) }
    ensures loses_none { IfOk result (λ ks. (protocol : Protocol) → IsSkeleton protocol k → LosesNoStanding protocol k ks.items) }
    ensures exact { IfOk result (λ ks. HasForms k ks.items) }
    ensures by_substitutions { IfOk result (λ ks. (protocol : Protocol) → IsSkeleton protocol k → ComeBySubstitutions protocol k ks.items) }
    ensures variables { IfOk result (λ ks. (r : Skeleton) → IsIn r ks.items → r.variables ≡ k.variables) }
{
    let nothing = Subst::new(alloc);
    let forms = normalise_beside(alloc, k, &nothing)?;
    skeletons_of(alloc, forms)
}
