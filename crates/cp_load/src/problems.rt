// Problems: their faults, and what they state.
ghost use Rattle.std.specs.Prelude.{◌≡◌, [], map, IfOk, OnOk};
ghost use Rattle.cp_sexpr.specs.View.{view};
ghost use Rattle.cp_language.specs.Problems.{protocol_name_faults, has_strand, protocol_named, protocol_or_none, problem_strands, problem_faults, problem_of};
ghost use Rattle.cp_roles.specs.Above.{protocols_view, turned};
ghost use Rattle.cp_scope.specs.FirstFault.{first_onto};
ghost use Rattle.cp_load.specs.UncheckedProblems.{unchecked_view};
ghost use Rattle.cp_roles.specs.MadeStrands.{AreMade};

use crate::bodies::{Scope, body_faults};
use crate::items::{before_items, has_strand};
use crate::unchecked_problems::UncheckedProblem;
use crate::values::own_skeleton;
use cp_base::{Code, Place};
use cp_roles::{copies_of, no_protocol, protocol_named, strands};
use cp_scope::{FirstFault, Variables, later_items, place_of, symbol_or_empty, variables_of};
use cp_sexpr::Form;
use cp_skel::{Declaration, Protocol, Strand};
use std::alloc::{AllocError, Global};
use std::rc::Rc;

/// Notes the faults of the name of a problem's protocol. `above` are the protocols above the problem.
pub(crate) fn protocol_name_faults(above: &[Rc<Protocol>], form: &Form, first: &mut FirstFault)
    ensures { first.new ≡ first_onto first.old (protocol_name_faults (turned (protocols_view above.now) []) (view form.now)) }
{
    match form {
        Form::Symbol(place, name) => {
            first.note_unless(
                protocol_named(above, name.as_bytes()).is_some(),
                *place,
                Code::UnknownProtocol,
            );
        }
        _ => first.note(place_of(form), Code::BadShape),
    }
}

/// The last protocol with this name, or one without roles if there is none.
fn protocol_or_none(
    alloc: Global,
    above: &[Rc<Protocol>],
    name: &[u8],
) -> Result<Rc<Protocol>, AllocError>
    ensures { IfOk result (λ p. p.value ≡ protocol_or_none (protocol_named (turned (protocols_view above.now) []) name.now)) }
{
    match protocol_named(above, name) {
        Some(protocol) => protocol.clone(),
        None => Ok(Rc::new(alloc, no_protocol(alloc)?)?),
    }
}

/// The strands of a problem, and all its variables: those declared, then those made for the strands.
#[derive(Drop)]
struct Parts {
    strands: Vec<Strand>,
    variables: Vec<Declaration>,
}

/// The strands that a problem states, given its protocol and its declared variables, and all its variables.
fn parts_of(
    alloc: Global,
    protocol: &Protocol,
    declared: &Variables,
    body: &[Form],
) -> Result<Parts, AllocError>
    ensures { IfOk result (λ p. AreMade (problem_strands protocol.now.roles declared.now (map view body.now))
        p.strands.items declared.now p.variables.items) }
{
    let mut variables = copies_of(alloc, declared.as_slice())?;
    let strands = strands(
        alloc,
        protocol.roles(),
        declared,
        before_items(body),
        &mut variables,
    )?;
    Ok(Parts { strands, variables })
}

/// Placeholder for an ill-formed problem.
fn no_problem(alloc: Global) -> Result<UncheckedProblem, AllocError>
    ensures { IfOk result (λ d. unchecked_view d ≡ problem_of [] []) }
{
    Ok(UncheckedProblem {
        protocol: Rc::new(alloc, no_protocol(alloc)?)?,
        declared: 0,
        skeleton: own_skeleton(alloc, &Variables::new(alloc), Vec::new(alloc), &[], &[])?,
    })
}

/// The problem with these items after its head. `above` are the protocols above it. Notes its faults; what stands for a
/// problem with faults has no meaning.
pub(crate) fn problem_of(
    alloc: Global,
    above: &[Rc<Protocol>],
    place: Place,
    items: &[Form],
    first: &mut FirstFault,
) -> Result<UncheckedProblem, AllocError>
    ensures faults { OnOk result (first.new ≡ first_onto first.old (problem_faults (turned (protocols_view above.now) []) place (map view items.now))) }
    ensures problem { IfOk result (λ d. unchecked_view d ≡ problem_of (turned (protocols_view above.now) []) (map view items.now)) }
{
    let [name, variables, body @ ..] = items else {
        first.note(place, Code::BadShape);
        return no_problem(alloc);
    };
    first.note_unless(has_strand(later_items(items, 1)), place, Code::BadShape);
    protocol_name_faults(above, name, first);
    let declared = variables_of(alloc, variables, first)?;
    let protocol = protocol_or_none(alloc, above, symbol_or_empty(name))?;
    let Parts { strands, variables } = parts_of(alloc, &protocol, &declared, body)?;
    let scope = Scope {
        alloc,
        roles: protocol.roles(),
        variables: &declared,
        strands: &strands,
    };
    body_faults(scope, body, first)?;
    let skeleton = own_skeleton(alloc, &declared, strands, body, &variables)?;
    Ok(UncheckedProblem {
        protocol,
        declared: declared.len(),
        skeleton,
    })
}
