// Protocols, and those above them in the input.
ghost use Rattle.std.specs.Prelude.{◌≡◌, [], map, option_map, IfOk, OnOk};
ghost use Rattle.cp_base.specs.declared.place.Code.TheVariants.{DuplicateProtocol};
ghost use Rattle.cp_sexpr.specs.View.{view};
ghost use Rattle.cp_language.specs.Faults.{fault};
ghost use Rattle.cp_language.specs.Roles.{name_faults_at, algebra_faults, protocol_faults, protocol_of};
ghost use Rattle.cp_language.specs.Problems.{protocol_named};
ghost use Rattle.cp_scope.specs.FirstFault.{first_onto};
ghost use Rattle.cp_roles.specs.Above.{protocols_view, turned};

use crate::roles::roles_of;
use cp_base::{Code, Place, Text};
use cp_scope::{FirstFault, NameSet, is_word, name_of, place_of};
use cp_sexpr::Form;
use cp_strand::Protocol;
use std::alloc::{AllocError, Global};
use std::rc::Rc;

/// The last protocol with this name.
pub fn protocol_named<'a>(protocols: &'a [Rc<Protocol>], name: &[u8]) -> Option<&'a Rc<Protocol>>
    ensures { option_map (λ p. p.now.value) result ≡ protocol_named (turned (protocols_view protocols.now) []) name.now }
{
    let mut found = None;
    for protocol in protocols {
        if is_word(protocol.name().as_str().as_bytes(), name) {
            found = Some(protocol);
        }
    }
    found
}

/// Notes the faults of the name of a protocol. `names` are the names of the protocols above it.
fn protocol_name_faults(names: &NameSet, form: &Form, first: &mut FirstFault)
    ensures { first.new ≡ first_onto first.old (name_faults_at names.now (λ p. fault p DuplicateProtocol) (view form.now)) }
{
    let Form::Symbol(place, name) = form else {
        first.note(place_of(form), Code::BadShape);
        return;
    };
    if names.has(name.as_str()) {
        first.note(*place, Code::DuplicateProtocol);
    }
}

/// Notes the faults of the name of an algebra.
fn algebra_faults(form: &Form, first: &mut FirstFault)
    ensures { first.new ≡ first_onto first.old (algebra_faults (view form.now)) }
{
    match form {
        Form::Symbol(place, name) => first.note_unless(
            is_word(name.as_bytes(), b"basic"),
            *place,
            Code::OutOfProfile,
        ),
        _ => first.note(place_of(form), Code::BadShape),
    }
}

/// Placeholder for an ill-formed protocol.
pub fn no_protocol(alloc: Global) -> Result<Protocol, AllocError>
    ensures { IfOk result (λ p. p ≡ protocol_of []) }
{
    let roles = Vec::new(alloc);
    Ok(Protocol::new(Text::new(alloc, "")?, roles))
}

/// The protocol with these items after its head. `names` are the names of the protocols above it. Notes its faults;
/// what stands for a protocol with faults has no meaning.
pub fn protocol_of(
    alloc: Global,
    names: &NameSet,
    place: Place,
    items: &[Form],
    first: &mut FirstFault,
) -> Result<Protocol, AllocError>
    ensures faults { OnOk result (first.new ≡ first_onto first.old (protocol_faults names.now place (map view items.now))) }
    ensures protocol { IfOk result (λ p. p ≡ protocol_of (map view items.now)) }
{
    let [name, algebra, items @ ..] = items else {
        first.note(place, Code::BadShape);
        return no_protocol(alloc);
    };
    protocol_name_faults(names, name, first);
    algebra_faults(algebra, first);
    let roles = roles_of(alloc, items, first)?;
    Ok(Protocol::new(name_of(alloc, name)?, roles))
}
