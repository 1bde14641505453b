// The values that role strands share, each with the weight of its place.
ghost use Rattle.std.specs.Prelude.{◌≡◌, ◌↔◌, map, IsTrue, IfOk};
ghost use Rattle.cp_model.specs.Homomorphism.{substitution_by};
ghost use Rattle.cp_fingerprint.specs.Slots.{slot_key};
ghost use Rattle.cp_fingerprint.specs.SharedValues.{text_number, place_weight, value_slots, prefix_slots, strand_slots, lists_of};

use cp_skel::{Instance, Role, Skeleton, Strand, StrandShape, value_of_variable};
use cp_term::{Shape, Term, VarId};
use std::alloc::{AllocError, Global};
use std::marker::Model;

/// A value at a place, with the weight of the place. The key is the value's number, which tells most values apart at once.
/// Contracts see only the weight and the value.
#[derive(Drop)]
pub struct Slot {
    weight: usize,
    key: usize,
    value: Term,
}

/// The number of a variable, or of the first variable of another atom; 0 for any other value.
pub fn key_of(value: &Term) -> usize
    ensures { result ≡ slot_key value.now }
{
    match value.shape() {
        Shape::Variable(id, _) => id.number(),
        Shape::Inverse(id) => id.number(),
        Shape::Ltk(a, _) => a.number(),
        Shape::Pubk(_, _, a) => a.number(),
        Shape::Tag(_) | Shape::Pair(..) | Shape::Encryption(..) => 0,
    }
}

impl Model for Slot {
    ghost use Rattle.std.specs.Prelude.{◌≡◌};
    ghost use Rattle.cp_fingerprint.specs.Slots.{Slot as Plain, coded_slot, slot_key};

    ghost Value = { Plain };

    ghost coded = { coded_slot };

    ghost view = { λ s. record { weight = s.weight; value = s.value } };

    ghost invariant = { λ s. s.key ≡ slot_key s.value };
}

impl Slot {
    /// A value at a place of this weight.
    fn new(weight: usize, value: Term) -> Slot
        ensures { result ≡ record { weight = weight; value = value } }
    {
        Slot {
            weight,
            key: key_of(&value),
            value,
        }
    }

    /// The value.
    pub fn value(&self) -> &Term
        ensures { result.now ≡ self.now.value }
    {
        &self.value
    }

    /// Whether this value stands at the place. `key` must be the value's key.
    pub fn has(&self, key: usize, value: &Term) -> bool
        ensures { key ≡ slot_key value.now → (IsTrue result ↔ (self.now.value ≡ value.now)) }
    {
        self.key == key && self.value.same(value)
    }
}

/// The places of a skeleton: those of its problem's variables, and for each strand those of its variables.
#[derive(Drop)]
pub struct Places {
    /// The places of the problem's variables.
    pub values: Vec<Slot>,
    /// For each strand the places of its variables.
    pub strands: Vec<Vec<Slot>>,
}

/// A number computed from a text.
pub(crate) fn text_number(bytes: &[u8]) -> usize
    ensures { result ≡ text_number 1 bytes.now }
{
    let mut number: usize = 1;
    for byte in bytes {
        number = number.wrapping_mul(1_000_003).wrapping_add(*byte as usize);
    }
    number
}

/// The weight of the place with this number, under a name with this number.
pub(crate) fn place_weight(name: usize, place: usize) -> usize
    ensures { result ≡ place_weight name place }
{
    name.wrapping_mul(1_000_003).wrapping_add(place) % 4093
}

/// The values of the problem's variables.
fn value_slots(alloc: Global, values: &[Term]) -> Result<Vec<Slot>, AllocError>
    ensures { IfOk result (λ v. v.items ≡ value_slots 0 values.now) }
{
    let mut slots = Vec::with_capacity(alloc, values.len())?;
    for (number, value) in values.iter().enumerate() {
        slots.push(Slot::new(place_weight(1, number), value.copy()?))?;
    }
    Ok(slots)
}

/// The values of the variables that occur in an instance's prefix.
fn instance_slots(alloc: Global, instance: &Instance) -> Result<Vec<Slot>, AllocError>
    ensures { IfOk result (λ v. v.items ≡ prefix_slots instance.now.role instance.now.height (substitution_by instance.now.values)) }
{
    let role: &Role = instance.role();
    let height = instance.height();
    let name = text_number(role.name().as_bytes());
    let declarations = role.variables();
    let mut slots = Vec::with_capacity(alloc, declarations.len())?;
    for (number, declaration) in declarations.iter().enumerate() {
        let id = VarId::numbered(number);
        if !role.occurs_before(id, declaration.sort, height) {
            continue;
        }
        let value = value_of_variable(alloc, instance.values(), id, declaration.sort)?;
        slots.push(Slot::new(place_weight(name, number), value))?;
    }
    Ok(slots)
}

/// The values of a strand's variables. A listener has none.
fn strand_slots(alloc: Global, strand: &Strand) -> Result<Vec<Slot>, AllocError>
    ensures { IfOk result (λ v. v.items ≡ strand_slots strand.now) }
{
    match strand.shape() {
        StrandShape::Instance(instance) => instance_slots(alloc, instance),
        StrandShape::Listener(_) => Ok(Vec::new(alloc)),
    }
}

/// For each strand the values of its variables.
fn strands_slots(alloc: Global, strands: &[Strand]) -> Result<Vec<Vec<Slot>>, AllocError>
    ensures { IfOk result (λ v. lists_of v.items ≡ map strand_slots strands.now) }
{
    strands
        .iter()
        .map(|strand| strand_slots(alloc, strand))
        .try_collect(alloc)
}

/// The values of the problem's variables, and for each strand those of its variables.
pub fn places_of(alloc: Global, k: &Skeleton) -> Result<Places, AllocError>
    ensures values { IfOk result (λ p. p.values.items ≡ value_slots 0 k.now.from_problem.values) }
    ensures strands { IfOk result (λ p. lists_of p.strands.items ≡ map strand_slots k.now.strands) }
{
    Ok(Places {
        values: value_slots(alloc, k.from_problem().values())?,
        strands: strands_slots(alloc, k.strands())?,
    })
}
