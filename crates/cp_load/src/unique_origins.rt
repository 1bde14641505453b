// Where unique values originate on the strands of problems.
ghost use Rattle.std.specs.Prelude.{◌≡◌, OnOk};
ghost use Rattle.cp_model.specs.Term.{apply_to};
ghost use Rattle.cp_model.specs.Homomorphism.{substitution_by};
ghost use Rattle.cp_model.specs.Skeleton.{skeleton_trace};
ghost use Rattle.cp_model.specs.Given.{uniques_onto};
ghost use Rattle.cp_language.specs.Problems.{origins_from, own_uniques};
ghost use Rattle.cp_model.specs.Same.{carries, origin_in};
ghost use Rattle.cp_strand.specs.View.{instance_view};
ghost use Rattle.cp_load.specs.Originations.{origin_on, originates, place_if_sent, unique_at};

use cp_skel::{Atom, Event, Instance, Node, Strand, StrandShape, UniqueAt, add_unique, prefix_of};
use cp_term::Term;
use std::alloc::AllocError;

/// Whether the term of a role, under the terms of an instance, carries the part.
pub fn carries_under(values: &[Term], whole: &Term, part: &Term) -> bool
    ensures { result ≡ carries (apply_to (substitution_by values.now) whole.now) part.now }
{
    cp_strand::carries_under(values, whole, part)
}

/// The index of an event, if it is a transmission.
fn place_if_sent(event: &Event, index: usize) -> Option<usize>
    ensures { result ≡ place_if_sent event.now index }
{
    match event {
        Event::Send(_) => Some(index),
        Event::Receive(_) => None,
    }
}

/// The index at which a value originates on an instance, if it does.
fn instance_origin(instance: &Instance, value: &Term) -> Option<usize>
    ensures { result ≡ origin_in (skeleton_trace (instance_view instance.now)) value.now }
{
    let prefix = prefix_of(instance.role(), instance.height());
    for (index, event) in prefix.iter().enumerate() {
        if carries_under(instance.values(), event.payload(), value) {
            return place_if_sent(event, index);
        }
    }
    None
}

/// The index at which a value originates on a strand, if it does. Nothing originates on a listener.
fn strand_origin(strand: &Strand, value: &Term) -> Option<usize>
    ensures { result ≡ origin_on strand.now value.now }
{
    match strand.shape() {
        StrandShape::Instance(instance) => instance_origin(instance, value),
        StrandShape::Listener(_) => None,
    }
}

/// Whether a value originates on one of these strands.
pub(crate) fn originates(strands: &[Strand], value: &Atom) -> bool
    ensures { result ≡ originates strands.now value.now }
{
    for strand in strands {
        if strand_origin(strand, value.as_term()).is_some() {
            return true;
        }
    }
    false
}

/// Adds the origin of a value at this place of a strand, if there is one, unless it is already listed.
pub(crate) fn add_origin(
    value: &Atom,
    strand: usize,
    place: Option<usize>,
    uniques: &mut Vec<UniqueAt>,
) -> Result<(), AllocError>
    ensures { OnOk result (uniques.new.items
        ≡ uniques_onto uniques.old.items (unique_at value.now strand place)) }
{
    let Some(index) = place else {
        return Ok(());
    };
    let value = value.copy()?;
    add_unique(uniques, UniqueAt::new(value, Node { strand, index }))
}

/// Adds the origins of a value on these strands, except those already listed.
fn add_origins(
    strands: &[Strand],
    value: &Atom,
    uniques: &mut Vec<UniqueAt>,
) -> Result<(), AllocError>
    ensures { OnOk result (uniques.new.items
        ≡ uniques_onto uniques.old.items (origins_from 0 strands.now value.now)) }
{
    for (number, strand) in strands.iter().enumerate() {
        let origin = strand_origin(strand, value.as_term());
        add_origin(value, number, origin, uniques)?;
    }
    Ok(())
}

/// Adds the origins of these values on the strands, except those already listed.
pub(crate) fn add_own_uniques(
    strands: &[Strand],
    values: &[Atom],
    uniques: &mut Vec<UniqueAt>,
) -> Result<(), AllocError>
    ensures { OnOk result (uniques.new.items
        ≡ uniques_onto uniques.old.items (own_uniques strands.now values.now)) }
{
    for value in values {
        add_origins(strands, value, uniques)?;
    }
    Ok(())
}
