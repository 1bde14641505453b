// The assumptions of a skeleton without one of its strands.
ghost use Rattle.std.specs.Prelude.{◌≡◌, ◌↔◌, ◌⊎◌, ◌++◌, ◌<◌, length, IsTrue, IfOk};
ghost use Rattle.cp_model.specs.Term.{AtomTerm};
ghost use Rattle.cp_model.specs.Bindings.{bindings_of};
ghost use Rattle.cp_model.specs.Given.{applying, atoms_onto};
ghost use Rattle.cp_lists.specs.Lists.{IsIn};
ghost use Rattle.cp_skel.specs.Deletion.{LeavesOut, as_it_is, GivesFrom, IsGivenElsewhere, IsForgotten, ForgetsAssumptions};
ghost use Rattle.cp_skel.specs.Kinds.{stated_as, IsInFirstAlone};

use crate::assumptions::Assumptions;
use crate::gathered::add_missing;
use crate::new_numbers::left_without;
use crate::skeleton::Skeleton;
use cp_strand::{Atom, Instance, Role, Strand, StrandShape, applying, has_atom};
use std::alloc::{AllocError, Global};

/// The kinds of assumptions that are plain atoms.
#[derive(Clone, Copy)]
enum Kind {
    NonOriginating,
    PenetratorNonOriginating,
}

/// What a role states of a kind.
fn stated(kind: Kind, role: &Role) -> &[Atom]
    ensures { result.now ≡ stated_as kind role.now }
{
    match kind {
        Kind::NonOriginating => role.non_originating(),
        Kind::PenetratorNonOriginating => role.penetrator_non_originating(),
    }
}

/// Of these atoms of its role, those that apply to an instance, under its terms, and are not among the old ones, each
/// once.
fn missing_applied(
    alloc: Global,
    instance: &Instance,
    stated: &[Atom],
    old: &[Atom],
) -> Result<Vec<Atom>, AllocError>
    ensures { IfOk result (λ more. old.now ++ more.items ≡ atoms_onto old.now
        (applying instance.now.role instance.now.height (bindings_of instance.now.values) stated.now)) }
{
    let applied = applying(alloc, instance, stated)?;
    let mut more = Vec::new(alloc);
    add_missing(&applied, old, &mut more)?;
    Ok(more)
}

/// What a strand gives of a kind, each once, except what is already given.
fn given_by(
    alloc: Global,
    kind: Kind,
    strand: &Strand,
    given: &[Atom],
) -> Result<Vec<Atom>, AllocError>
    ensures { IfOk result (λ more. (v : AtomTerm)
        → IsIn v (given.now ++ more.items) ↔ (IsIn v given.now ⊎ GivesFrom (stated_as kind) strand.now v)) }
{
    match strand.shape() {
        StrandShape::Instance(instance) => {
            missing_applied(alloc, instance, stated(kind, instance.role()), given)
        }
        StrandShape::Listener(_) => Ok(Vec::new(alloc)),
    }
}

/// What strands other than this one give of a kind.
fn given_elsewhere(
    alloc: Global,
    kind: Kind,
    strands: &[Strand],
    gone: usize,
) -> Result<Vec<Atom>, AllocError>
    ensures { IfOk result (λ given. (v : AtomTerm)
        → IsIn v given.items ↔ IsGivenElsewhere (stated_as kind) strands.now gone v) }
{
    let mut given = Vec::new(alloc);
    for (number, strand) in strands.iter().enumerate() {
        if number == gone {
            continue;
        }
        let mut more = given_by(alloc, kind, strand, &given)?;
        given.append(&mut more)?;
    }
    Ok(given)
}

/// Whether the atom is in the first list and in neither of the others.
fn is_in_first_alone(first: &[Atom], second: &[Atom], third: &[Atom], atom: &Atom) -> bool
    ensures { IsTrue result ↔ IsInFirstAlone first.now second.now third.now atom.now }
{
    has_atom(first, atom) && !has_atom(second, atom) && !has_atom(third, atom)
}

/// These atoms, except those that are in the first list and in neither of the others.
fn atoms_left(
    alloc: Global,
    atoms: &[Atom],
    gave: &[Atom],
    elsewhere: &[Atom],
    own: &[Atom],
) -> Result<Vec<Atom>, AllocError>
    ensures { IfOk result (λ v. LeavesOut (IsInFirstAlone gave.now elsewhere.now own.now) as_it_is atoms.now v.items) }
{
    let mut left = Vec::new(alloc);
    for atom in atoms {
        if is_in_first_alone(gave, elsewhere, own, atom) {
            continue;
        }
        left.push(atom.copy()?)?;
    }
    Ok(left)
}

/// The assumptions of a kind, except those that are forgotten with a strand.
fn kind_left(
    alloc: Global,
    kind: Kind,
    strands: &[Strand],
    gone: usize,
    atoms: &[Atom],
    own: &[Atom],
) -> Result<Vec<Atom>, AllocError>
    requires { gone < length strands.now }
    ensures { IfOk result (λ v. LeavesOut (IsForgotten (stated_as kind) strands.now own.now gone) as_it_is atoms.now v.items) }
{
    let none = Vec::new(alloc);
    let gave = given_by(alloc, kind, &strands[gone], &none)?;
    let elsewhere = given_elsewhere(alloc, kind, strands, gone)?;
    atoms_left(alloc, atoms, &gave, &elsewhere, own)
}

/// The assumptions of a skeleton without a strand.
pub(crate) fn assumptions_without(
    alloc: Global,
    k: &Skeleton,
    gone: usize,
) -> Result<Assumptions, AllocError>
    requires { gone < length k.now.strands }
    ensures { IfOk result (λ a. ForgetsAssumptions gone k.now a) }
{
    let had = k.assumptions();
    let own = k.from_problem().assumptions();
    Assumptions::of(
        kind_left(
            alloc,
            Kind::NonOriginating,
            k.strands(),
            gone,
            had.non_originating(),
            own.non_originating(),
        ),
        kind_left(
            alloc,
            Kind::PenetratorNonOriginating,
            k.strands(),
            gone,
            had.penetrator_non_originating(),
            own.penetrator_non_originating(),
        ),
        left_without(alloc, gone, had.uniquely_originating()),
    )
}
