// From forms to protocols and problems.
ghost use Rattle.std.specs.Prelude.{◌≡◌, ◌++◌, ◌∷◌, [], map, Ok, Err, IfOk, IfErr, OnOk};
ghost use Rattle.std.specs.List.{filter_map};
ghost use Rattle.cp_base.specs.declared.place.Refusal.{Refusal as Fault};
ghost use Rattle.cp_sexpr.specs.View.{view, views};
ghost use Rattle.cp_language.specs.Faults.{place_of};
ghost use Rattle.cp_language.specs.Roles.{headed, protocol_faults, protocol_of};
ghost use Rattle.cp_language.specs.Input.{protocol_names, headed_top_faults, protocols_behind, faults_from, form_of, stated_protocol, headed_entry, entries_from};
ghost use Rattle.cp_language.specs.StatedInput.{protocols_of, IsInput};
ghost use Rattle.cp_roles.specs.Above.{protocols_view, names_of_protocols, turned};
ghost use Rattle.cp_scope.specs.FirstFault.{first_onto};
ghost use Rattle.cp_load.specs.UncheckedProblems.{unchecked_entry_view};
ghost use Rattle.cp_load.specs.Inputs.{input_entries};
ghost use Rattle.cp_sexpr.specs.declared.error.OrMemory.TheVariants.{Refused};

use crate::error::LoadError;
use crate::input::Input;
use crate::problems::problem_of;
use crate::unchecked_problems::{UncheckedEntry, all_finished};
use cp_base::{Code, Place, Text};
use cp_roles::protocol_of;
use cp_scope::{FirstFault, NameSet, TopHead, headed, place_of, top_head};
use cp_sexpr::Form;
use cp_skel::Protocol;
use std::alloc::{AllocError, Global};
use std::rc::Rc;

/// The protocol with these items after its head, which is appended to those above, which have these names. Notes its
/// faults.
fn add_protocol(
    alloc: Global,
    above: &mut Vec<Rc<Protocol>>,
    names: &mut NameSet,
    place: Place,
    items: &[Form],
    first: &mut FirstFault,
) -> Result<Rc<Protocol>, AllocError>
    requires { names.old ≡ names_of_protocols (protocols_view above.old.items) }
    ensures faults { OnOk result (first.new ≡ first_onto first.old (protocol_faults (protocol_names (turned (protocols_view above.old.items) [])) place (map view items.now))) }
    ensures protocol { IfOk result (λ p. p.value ≡ protocol_of (map view items.now)) }
    ensures protocols { OnOk result (protocols_view above.new.items ≡ protocols_view above.old.items ++ protocol_of (map view items.now) ∷ []) }
    ensures names { OnOk result (names.new ≡ names_of_protocols (protocols_view above.new.items)) }
{
    let protocol = protocol_of(alloc, names, place, items, first)?;
    let name = Text::new(alloc, protocol.name().as_str())?;
    names.push(alloc, name)?;
    let protocol = Rc::new(alloc, protocol)?;
    let shared = protocol.clone()?;
    above.push(protocol)?;
    Ok(shared)
}

/// A top form with what it states. A protocol that it states is appended to those above, which have these names. Notes
/// the form's faults.
pub fn top_form<'a>(
    alloc: Global,
    above: &mut Vec<Rc<Protocol>>,
    names: &mut NameSet,
    form: &'a Form,
    first: &mut FirstFault,
) -> Result<UncheckedEntry<'a>, AllocError>
    requires { names.old ≡ names_of_protocols (protocols_view above.old.items) }
    ensures faults { OnOk result (first.new ≡ first_onto first.old (headed_top_faults (turned (protocols_view above.old.items) []) (place_of (view form.now)) (headed (view form.now)))) }
    ensures entry { IfOk result (λ u. unchecked_entry_view u ≡ headed_entry (turned (protocols_view above.old.items) []) (headed (view form.now)) (view form.now)) }
    ensures protocols { OnOk result (protocols_view above.new.items ≡ protocols_view above.old.items ++ protocols_behind (headed (view form.now)) []) }
    ensures names { OnOk result (names.new ≡ names_of_protocols (protocols_view above.new.items)) }
{
    let place = place_of(form);
    let Some(list) = headed(form) else {
        first.note(place, Code::BadShape);
        return Ok(UncheckedEntry::Plain(form));
    };
    match top_head(list.head) {
        TopHead::Protocol => {
            let protocol = add_protocol(alloc, above, names, place, list.items, first);
            return protocol.map(|protocol| UncheckedEntry::Protocol(form, protocol));
        }
        TopHead::Problem => {
            let problem = problem_of(alloc, above, place, list.items, first);
            return problem.map(|problem| UncheckedEntry::Problem(form, problem));
        }
        TopHead::Free => {}
        TopHead::OutOfProfile => first.note(place, Code::OutOfProfile),
        TopHead::Unknown => first.note(place, Code::UnknownForm),
    }
    Ok(UncheckedEntry::Plain(form))
}

/// These forms, each with what it states. Notes their faults; what a form with faults states has no meaning.
fn read_forms<'a>(
    alloc: Global,
    forms: &'a [Form],
    first: &mut FirstFault,
) -> Result<Vec<UncheckedEntry<'a>>, AllocError>
    ensures faults { OnOk result (first.new ≡ first_onto first.old (faults_from [] (map view forms.now))) }
    ensures entries { IfOk result (λ us. map unchecked_entry_view us.items ≡ entries_from [] (map view forms.now)) }
{
    let mut protocols = Vec::new(alloc);
    let mut names = NameSet::new(alloc);
    let mut unchecked_entries = Vec::new(alloc);
    for form in forms {
        let unchecked = top_form(alloc, &mut protocols, &mut names, form, first)?;
        unchecked_entries.push(unchecked)?;
    }
    Ok(unchecked_entries)
}

/// Loads forms: the input that they are, each of them with what it states.
///
/// Forms with faults are refused for the first fault by line, then by column, then by kind. The other error is
/// `Memory`.
pub fn load(alloc: Global, forms: &[Form]) -> Result<Input<'_>, LoadError>
    ensures input { IfOk result (λ i. IsInput (views forms.now) (Ok (input_entries i))) }
    ensures forms { IfOk result (λ i. map form_of (input_entries i) ≡ map view forms.now) }
    ensures protocols { IfOk result (λ i. filter_map stated_protocol (input_entries i) ≡ protocols_of (views forms.now)) }
    ensures refused { IfErr result (λ e. (r : Fault) → e ≡ Refused r → IsInput (views forms.now) (Err r)) }
{
    let mut first = FirstFault::new();
    let unchecked_entries = read_forms(alloc, forms, &mut first)?;
    match first.found() {
        Some(fault) => Err(LoadError::Refused(fault)),
        None => Ok(Input {
            entries: all_finished(alloc, unchecked_entries)?,
        }),
    }
}
