// The values that stand at places, and beside each the sum of the weights of its places. The sums saturate.
ghost use Rattle.std.specs.Prelude.{◌≡◌, ◌<◌, ◌∷◌, [], length, drop, map, Some, IfSome, IfOk, OnOk};
ghost use Rattle.cp_model.specs.Homomorphism.{substitution_by};
ghost use Rattle.cp_lists.specs.Lists.{item_at};
ghost use Rattle.cp_model.specs.Same.{has_variable};
ghost use Rattle.cp_model.specs.Strand.{variables_of_prefix};
ghost use Rattle.cp_model.specs.Term.{apply_to};
ghost use Rattle.cp_strand.specs.FirstEvents.{AreFirstEvents};
ghost use Rattle.cp_term.specs.Variables.{variable_of_sort};
ghost use Rattle.cp_fingerprint.specs.SharedValues.{declared_variable, value_slots, prefix_slots, strand_slots, strung};
ghost use Rattle.cp_fingerprint.specs.Values.{IsFoundAmong, IsAbsent};
ghost use Rattle.cp_fingerprint.specs.Weights.{values_of, AreAdded, AreSumsOf};

use crate::shares::Place;
use crate::slots::{place_weight, text_number};
use crate::values::{FEW, find_among_few, keep};
use cp_model::item_at;
use cp_skel::{Declaration, Instance, Role, Strand, StrandShape};
use cp_term::{Sort, Term, TermTable, VarId, is_of_sort, var};
use std::alloc::{AllocError, Global};

/// How many places there is room for from the start.
const ROOM: usize = 64;

/// A value, and the sum of the weights of some places at which it stands.
#[derive(Drop)]
pub(crate) struct ValueSum {
    pub(crate) value: Term,
    pub(crate) sum: usize,
}

/// The values that stand at some places, each once, with their sums; a table of those behind the first few; and the places with the
/// numbers of their values.
#[derive(Drop)]
pub(crate) struct Sums {
    pub(crate) sums: Vec<ValueSum>,
    pub(crate) more: TermTable,
    pub(crate) places: Vec<Place>,
}

/// Whether the variable with this number, which is declared so, occurs in the first `height` events of a role, which keeps these
/// indices of first events.
fn is_in_prefix(
    role: &Role,
    first_events: &[Option<usize>],
    height: usize,
    number: usize,
    declaration: &Declaration,
) -> bool
    requires kept { AreFirstEvents role.now first_events.now }
    requires declared { item_at role.now.variables number ≡ Some declaration.now }
    ensures { result ≡ has_variable (variables_of_prefix role.now height) (declared_variable number declaration.now) }
{
    let Some(first) = item_at(first_events, number) else {
        return role.occurs_before(VarId::numbered(number), declaration.sort, height);
    };
    match *first {
        Some(index) => index < height,
        None => false,
    }
}

impl Sums {
    /// No places.
    pub(crate) fn new(alloc: Global) -> Result<Sums, AllocError>
        ensures { IfOk result (AreSumsOf []) }
    {
        let sums = Vec::with_capacity(alloc, FEW)?;
        let places = Vec::with_capacity(alloc, ROOM)?;
        Ok(Sums {
            sums,
            more: TermTable::new(alloc),
            places,
        })
    }

    /// The number of this value, if it is one of them.
    pub(crate) fn find(&self, value: &Term) -> Option<usize>
        ensures there { IfSome result (λ i. i < length self.now.sums.items) }
        ensures found { self.now.more ≡ drop 16 (values_of self.now) → IsFoundAmong value.now (values_of self.now) result }
    {
        if let Some(number) = find_among_few(&self.sums, value) {
            return Some(number);
        }
        if self.sums.len() <= FEW {
            return None;
        }
        let id = self.more.find(value)?;
        let number = FEW.saturating_add(id.number());
        if number < self.sums.len() {
            return Some(number);
        }
        None
    }

    /// Adds a place of this weight, at which a value stands that is none of the values so far.
    fn add_new(&mut self, weight: usize, value: &Term) -> Result<(), AllocError>
        ensures { (self.old.more ≡ drop 16 (values_of self.old) → IsAbsent value.now (values_of self.old))
            → OnOk result (AreAdded (record { weight = weight; value = value.now } ∷ []) self.old self.new) }
    {
        let number = self.sums.len();
        keep(&mut self.more, number, value)?;
        let value = value.copy()?;
        self.sums.push(ValueSum { value, sum: weight })?;
        self.places
            .push(Place { weight, number })
            .map_err(AllocError::from)
    }

    /// Adds a place of this weight, at which the value stands.
    fn add(&mut self, weight: usize, value: &Term) -> Result<(), AllocError>
        ensures { OnOk result (AreAdded (record { weight = weight; value = value.now } ∷ []) self.old self.new) }
    {
        match self.find(value) {
            Some(number) => {
                let own = &mut self.sums[number];
                own.sum = own.sum.saturating_add(weight);
                self.places
                    .push(Place { weight, number })
                    .map_err(AllocError::from)
            }
            None => self.add_new(weight, value),
        }
    }

    /// Adds the places of the problem's variables, which have these values.
    pub(crate) fn add_values(&mut self, values: &[Term]) -> Result<(), AllocError>
        ensures { OnOk result (AreAdded (value_slots 0 values.now) self.old self.new) }
    {
        for (number, value) in values.iter().enumerate() {
            self.add(place_weight(1, number), value)?;
        }
        Ok(())
    }

    /// Adds a place of this weight, at which the value of a role's variable stands in an instance with these terms.
    fn add_variable(
        &mut self,
        alloc: Global,
        weight: usize,
        values: &[Term],
        id: VarId,
        sort: Sort,
    ) -> Result<(), AllocError>
        ensures { OnOk result (AreAdded (record { weight = weight; value = apply_to (substitution_by values.now) (variable_of_sort sort id) } ∷ []) self.old self.new) }
    {
        match item_at(values, id.number()) {
            Some(value) if is_of_sort(value, sort) => self.add(weight, value),
            _ => self.add(weight, &var(alloc, id, sort)?),
        }
    }

    /// Adds the places of the variables that occur in an instance's prefix.
    fn add_instance(&mut self, alloc: Global, instance: &Instance) -> Result<(), AllocError>
        ensures { OnOk result (AreAdded (prefix_slots instance.now.role instance.now.height (substitution_by instance.now.values)) self.old self.new) }
    {
        let role: &Role = instance.role();
        let height = instance.height();
        let first_events = role.first_events();
        let name = text_number(role.name().as_bytes());
        let declarations = role.variables();
        for (number, declaration) in declarations.iter().enumerate() {
            if !is_in_prefix(role, first_events, height, number, declaration) {
                continue;
            }
            self.add_variable(
                alloc,
                place_weight(name, number),
                instance.values(),
                VarId::numbered(number),
                declaration.sort,
            )?;
        }
        Ok(())
    }

    /// Adds the places of a strand's variables. A listener has none.
    fn add_strand(&mut self, alloc: Global, strand: &Strand) -> Result<(), AllocError>
        ensures { OnOk result (AreAdded (strand_slots strand.now) self.old self.new) }
    {
        match strand.shape() {
            StrandShape::Instance(instance) => self.add_instance(alloc, instance),
            StrandShape::Listener(_) => Ok(()),
        }
    }

    /// Adds the places of the strands' variables, and tells how many places each strand has.
    pub(crate) fn add_strands(
        &mut self,
        alloc: Global,
        strands: &[Strand],
    ) -> Result<Vec<usize>, AllocError>
        ensures added { OnOk result (AreAdded (strung (map strand_slots strands.now)) self.old self.new) }
        ensures counts { IfOk result (λ counts. counts.items ≡ map length (map strand_slots strands.now)) }
    {
        let mut counts = Vec::with_capacity(alloc, strands.len())?;
        for strand in strands {
            let before = self.places.len();
            self.add_strand(alloc, strand)?;
            counts.push(self.places.len().saturating_sub(before))?;
        }
        Ok(counts)
    }
}
