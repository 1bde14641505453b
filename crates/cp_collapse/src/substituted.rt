// Skeletons under substitutions.
ghost use Rattle.std.specs.Prelude.{◌≡◌, ◌↔◌, map, IsTrue, IfOk};
ghost use Rattle.cp_model.specs.Term.{Substitution, apply_to, apply_to_atom, composed};
ghost use Rattle.cp_model.specs.Strand.{event_map};
ghost use Rattle.cp_model.specs.Homomorphism.{substitution_by};
ghost use Rattle.cp_model.specs.PrefixVariables.{declared_variables, terms_of};
ghost use Rattle.cp_theory.specs.Normal.{unique_under, assumptions_under, from_problem_under, skeleton_under};
ghost use Rattle.cp_unify.specs.Bindings.{as_substitution};
ghost use Rattle.cp_strand.specs.View.{instance_view};
ghost use Rattle.cp_collapse.specs.SameSkeletons.{SaysTheSame};
ghost use Rattle.cp_collapse.specs.Values.{declared_under};
ghost use Rattle.cp_collapse.specs.Held.{indexed_under, IsGivenUnder};

use crate::variable_terms::{declared_terms, leaves_declared};
use cp_skel::{
    Assumptions, Atom, Event, FromProblem, Instance, Skeleton, Strand, StrandShape, UniqueAt,
};
use cp_strand::{Given, IndexedUnique};
use cp_term::Term;
use cp_unify::{Subst, apply, leaves};
use std::alloc::{AllocError, Global};

/// Data to which a substitution can be applied.
pub(crate) trait Substituted {
    /// The value under a substitution.
    ghost becomes: { Substitution → Self → Self };

    /// Fast test: true only if the substitution leaves the value as it is.
    fn is_left(&self, s: &Subst) -> bool
        ensures { IsTrue result → becomes (as_substitution s.now) self.now ≡ self.now };

    /// Applies the substitution.
    fn under(&self, alloc: Global, s: &Subst) -> Result<Self, AllocError>
        ensures { IfOk result (λ x. x ≡ becomes (as_substitution s.now) self.now) };
}

/// Fast test: true only if the substitution leaves each item as it is.
fn all_left<T: Substituted>(items: &[T], s: &Subst) -> bool
    ensures { IsTrue result → map (T.becomes (as_substitution s.now)) items.now ≡ items.now }
{
    for item in items {
        if !item.is_left(s) {
            return false;
        }
    }
    true
}

/// Applies the substitution to each item.
pub(crate) fn each_under<T: Substituted + Drop>(
    alloc: Global,
    items: &[T],
    s: &Subst,
) -> Result<Vec<T>, AllocError>
    ensures { IfOk result (λ v. v.items ≡ map (T.becomes (as_substitution s.now)) items.now) }
{
    let mut all = Vec::with_capacity(alloc, items.len())?;
    for item in items {
        all.push(item.under(alloc, s)?)?;
    }
    Ok(all)
}

impl Substituted for Term {
    ghost becomes = { apply_to };

    fn is_left(&self, s: &Subst) -> bool {
        leaves(s, self)
    }

    fn under(&self, alloc: Global, s: &Subst) -> Result<Term, AllocError> {
        apply(alloc, s, self)
    }
}

impl Substituted for Atom {
    ghost becomes = { apply_to_atom };

    fn is_left(&self, s: &Subst) -> bool {
        leaves(s, self.as_term())
    }

    fn under(&self, alloc: Global, s: &Subst) -> Result<Atom, AllocError> {
        if self.is_left(s) {
            return self.copy();
        }
        match Atom::new(apply(alloc, s, self.as_term())?) {
            Some(atom) => Ok(atom),
            None => unreachable!(),
        }
    }
}

impl Substituted for Event {
    ghost becomes = { λ s. event_map (apply_to s) };

    fn is_left(&self, s: &Subst) -> bool {
        leaves(s, self.payload())
    }

    fn under(&self, alloc: Global, s: &Subst) -> Result<Event, AllocError> {
        match self {
            Event::Send(message) => apply(alloc, s, message).map(Event::Send),
            Event::Receive(message) => apply(alloc, s, message).map(Event::Receive),
        }
    }
}

/// The index stays.
impl Substituted for IndexedUnique {
    ghost becomes = { indexed_under };

    fn is_left(&self, s: &Subst) -> bool {
        self.value.is_left(s)
    }

    fn under(&self, alloc: Global, s: &Subst) -> Result<IndexedUnique, AllocError> {
        self.value.under(alloc, s).map(|value| IndexedUnique {
            value,
            index: self.index,
        })
    }
}

/// The recorded origin stays.
impl Substituted for UniqueAt {
    ghost becomes = { unique_under };

    fn is_left(&self, s: &Subst) -> bool {
        self.value().is_left(s)
    }

    fn under(&self, alloc: Global, s: &Subst) -> Result<UniqueAt, AllocError> {
        self.value()
            .under(alloc, s)
            .map(|value| UniqueAt::new(value, self.origin()))
    }
}

/// If nothing changes, they are copied.
impl Substituted for Assumptions {
    ghost becomes = { assumptions_under };

    fn is_left(&self, s: &Subst) -> bool {
        all_left(self.non_originating(), s)
            && all_left(self.penetrator_non_originating(), s)
            && all_left(self.uniquely_originating(), s)
    }

    fn under(&self, alloc: Global, s: &Subst) -> Result<Assumptions, AllocError> {
        if self.is_left(s) {
            return self.copy(alloc);
        }
        Assumptions::of(
            each_under(alloc, self.non_originating(), s),
            each_under(alloc, self.penetrator_non_originating(), s),
            each_under(alloc, self.uniquely_originating(), s),
        )
    }
}

/// The map from a problem, followed by the substitution. If nothing changes, it is copied.
impl Substituted for FromProblem {
    ghost becomes = { from_problem_under };

    fn is_left(&self, s: &Subst) -> bool {
        all_left(self.values(), s) && self.assumptions().is_left(s)
    }

    fn under(&self, alloc: Global, s: &Subst) -> Result<FromProblem, AllocError> {
        if self.is_left(s) {
            return self.copy(alloc);
        }
        let values = each_under(alloc, self.values(), s)?;
        let assumptions = self.assumptions().under(alloc, s)?;
        self.with_values(alloc, values, assumptions)
    }
}

/// Whether the two lists hold the same terms, place by place.
pub fn are_same_terms(a: &[Term], b: &[Term]) -> bool
    ensures { IsTrue result ↔ (a.now ≡ b.now) }
{
    if a.len() != b.len() {
        return false;
    }
    for index in 0..a.len() {
        if !a[index].same(&b[index]) {
            return false;
        }
    }
    true
}

/// What its role gives an instance, under a substitution.
fn given_under(alloc: Global, given: &Given, s: &Subst) -> Result<Given, AllocError>
    ensures { IfOk result (λ g. IsGivenUnder (as_substitution s.now) given.now g) }
{
    let non_originating = each_under(alloc, &given.non_originating, s)?;
    let penetrator_non_originating = each_under(alloc, &given.penetrator_non_originating, s)?;
    let uniquely_originating = each_under(alloc, &given.uniquely_originating, s)?;
    Ok(Given {
        non_originating,
        penetrator_non_originating,
        uniquely_originating,
    })
}

/// The strand of an instance whose terms became these under the substitution. If they are the same terms, the strand itself is
/// shared. What the strand holds becomes what the new one holds.
fn with_values(
    alloc: Global,
    strand: &Strand,
    instance: &Instance,
    values: Vec<Term>,
    s: &Subst,
) -> Result<Strand, AllocError>
    requires strand { strand.now ≡ instance_view instance.now }
    requires values { values.items ≡ terms_of (composed (substitution_by instance.now.values) (as_substitution s.now))
        (declared_variables 0 instance.now.role.variables) }
    ensures { IfOk result (λ t. t ≡ instance_view (record instance.now { values = values.items })) }
{
    if are_same_terms(&values, instance.values()) {
        return strand.copy();
    }
    let role = instance.role();
    role.is_sound();
    let changed = Instance::new(role.clone()?, instance.height(), values);
    match (strand.held(), strand.given()) {
        (Some(events), Some(given)) => {
            let events = each_under(alloc, events, s)?;
            let given = given_under(alloc, given, s)?;
            Strand::holding(alloc, changed, events, given)
        }
        _ => Strand::instance(alloc, changed),
    }
}

/// The substitution is applied to the term of each variable that the role of an instance declares, or to the message of a
/// listener. If nothing changes, the strand is shared.
impl Substituted for Strand {
    ghost becomes = { declared_under };

    fn is_left(&self, s: &Subst) -> bool {
        match self.shape() {
            StrandShape::Instance(instance) => {
                let declarations = instance.role().variables();
                leaves_declared(s, declarations, instance.values())
            }
            StrandShape::Listener(message) => leaves(s, message),
        }
    }

    fn under(&self, alloc: Global, s: &Subst) -> Result<Strand, AllocError> {
        if self.is_left(s) {
            return self.copy();
        }
        match self.shape() {
            StrandShape::Instance(instance) => {
                let declarations = instance.role().variables();
                let terms = instance.values();
                let values = declared_terms(alloc, declarations, terms, s)?;
                with_values(alloc, self, instance, values, s)
            }
            StrandShape::Listener(message) => { Strand::listener(alloc, apply(alloc, s, message)?) }
        }
    }
}

/// The skeleton under a substitution: it is applied to every term. Strands, nodes and pairs stay where they are.
pub fn under(alloc: Global, k: &Skeleton, s: &Subst) -> Result<Skeleton, AllocError>
    ensures same { IfOk result (λ l. SaysTheSame (skeleton_under (as_substitution s.now) k.now) l) }
    ensures variables { IfOk result (λ l. l.variables ≡ k.now.variables) }
{
    k.is_sound();
    let variables = k.variables().copy()?;
    let strands = each_under(alloc, k.strands(), s)?;
    let order = k.order().copy(alloc)?;
    let assumptions = k.assumptions().under(alloc, s)?;
    let from_problem = k.from_problem().under(alloc, s)?;
    Ok(Skeleton::new(variables, strands, order, assumptions, from_problem))
}
