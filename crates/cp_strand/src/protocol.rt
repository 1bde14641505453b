// Declarations, events, roles and protocols.
ghost use Rattle.std.specs.Prelude.{◌≡◌, ◌≤◌, map, IfOk};
ghost use Rattle.cp_model.specs.Declares.{DeclaresItsVariables, HasDeclaringRoles};
ghost use Rattle.cp_model.specs.Strand.{variables_of_prefix};
ghost use Rattle.cp_model.specs.Same.{has_variable};
ghost use Rattle.cp_strand.specs.FirstEvents.{AreFirstEvents};

use crate::atom::Atom;
use crate::prefix_variables::{first_events, is_reached, occurs, prefix_of};
use cp_base::Text;
use cp_model::{Declaration, item_at};
use cp_term::{Shape, Sort, Term, VarId};
use std::alloc::{AllocError, Global};
use std::marker::Model;
use std::rc::Rc;

/// A transmission or a reception of a message.
pub type Event = cp_model::Event<Term>;

/// A role: its name, its variables, its events and its assumptions. It declares the variables of its events. It also
/// keeps whether it is small, and may keep the index of the first event in which each of its variables occurs;
/// contracts see neither.
pub struct Role {
    name: Text,
    variables: Vec<Declaration>,
    trace: Vec<Event>,
    non_originating: Vec<Atom>,
    penetrator_non_originating: Vec<Atom>,
    uniquely_originating: Vec<Atom>,
    is_small: bool,
    first_events: Vec<Option<usize>>,
}

// A value drops by one call of its own, wherever it is held.
impl Drop for Role {
    fn drop(self) {
        let Role {
            name,
            variables,
            trace,
            non_originating,
            penetrator_non_originating,
            uniquely_originating,
            is_small,
            first_events,
        } = self;
    }
}

/// The messages of a small role have fewer parts than this, and it has fewer assumptions of each kind.
const PARTS: usize = 64;

/// What remains of so many parts without those of a message, at least 0. The key of an encryption is not counted.
fn left_over(parts: usize, message: &Term) -> usize
    ensures { result ≤ parts }
{
    let mut left = parts;
    let mut rest = message;
    loop {
        if left == 0 {
            return 0;
        }
        left -= 1;
        match rest.shape() {
            Shape::Pair(first, second) => {
                left = left_over(left, first);
                rest = second;
            }
            Shape::Encryption(body, _) => rest = body,
            _ => return left,
        }
    }
}

/// Whether the messages of all these events together have few parts.
fn are_small(events: &[Event]) -> bool {
    let mut left = PARTS;
    for event in events {
        left = left_over(left, event.payload());
    }
    left > 0
}

impl Model for Role {
    ghost use Rattle.cp_model.specs.Strand.{Role as Plain};
    ghost use Rattle.cp_strand.specs.Code.{coded_role};

    ghost Value = { Plain };

    ghost coded = { coded_role };

    ghost use Rattle.cp_strand.specs.RoleParts.{role_of_parts};

    ghost view = { role_of_parts };

    ghost use Rattle.cp_model.specs.Declares.{DeclaresItsVariables};
    ghost use Rattle.cp_strand.specs.FirstEvents.{AreFirstEvents};

    ghost invariant = { λ r. DeclaresItsVariables (role_of_parts r) × AreFirstEvents (role_of_parts r) r.first_events.items };
}

impl Role {
    /// The role with this name, these variables, numbered by their places, these events, and these assumptions: the
    /// values that originate nowhere, those that the penetrator does not originate, and those that originate uniquely.
    /// It must declare the variables of its events.
    pub fn new(
        name: Text,
        variables: Vec<Declaration>,
        trace: Vec<Event>,
        non_originating: Vec<Atom>,
        penetrator_non_originating: Vec<Atom>,
        uniquely_originating: Vec<Atom>,
    ) -> Role
        requires { DeclaresItsVariables (record {
          name = name;
          variables = variables.items;
          trace = trace.items;
          non_originating = non_originating.items;
          penetrator_non_originating = penetrator_non_originating.items;
          uniquely_originating = uniquely_originating.items;
        }) }
        ensures { result ≡ record {
          name = name;
          variables = variables.items;
          trace = trace.items;
          non_originating = non_originating.items;
          penetrator_non_originating = penetrator_non_originating.items;
          uniquely_originating = uniquely_originating.items;
        } }
    {
        let is_small = are_small(&trace)
            && non_originating.len() < PARTS
            && penetrator_non_originating.len() < PARTS
            && uniquely_originating.len() < PARTS;
        let first_events = Vec::new(*variables.allocator());
        Role {
            name,
            variables,
            trace,
            non_originating,
            penetrator_non_originating,
            uniquely_originating,
            is_small,
            first_events,
        }
    }

    /// The same role. It keeps the index of the first event in which each of its variables occurs.
    pub fn indexed(alloc: Global, mut role: Role) -> Result<Role, AllocError>
        ensures { IfOk result (λ r. r ≡ role) }
    {
        role.first_events = first_events(alloc, &role.variables, &role.trace)?;
        Ok(role)
    }

    /// Every role declares the variables of its events.
    pub fn is_sound(&self)
        ensures { DeclaresItsVariables self.now }
    {
        let _ = &self.variables;
    }

    /// Whether its messages together have few parts and its assumptions are few, so that strands may keep what these
    /// become.
    pub(crate) fn is_small(&self) -> bool {
        self.is_small
    }

    /// Whether the variable of this sort occurs in the first `height` events.
    pub fn occurs_before(&self, id: VarId, sort: Sort, height: usize) -> bool
        ensures { result ≡ has_variable (variables_of_prefix self.now height) (record { sort = sort; number = id }) }
    {
        let number = id.number();
        match (
            item_at(&self.variables, number),
            item_at(&self.first_events, number),
        ) {
            (Some(declaration), Some(first)) if declaration.sort == sort => is_reached(
                *first, height,
            ),
            _ => occurs(prefix_of(self, height), id, sort),
        }
    }

    /// For each of its variables for which it is kept, the index of the first event in which the variable occurs.
    pub fn first_events(&self) -> &[Option<usize>]
        ensures { AreFirstEvents self.now result.now }
    {
        &self.first_events
    }

    /// Its name.
    pub fn name(&self) -> &Text
        ensures { result.now ≡ self.now.name }
    {
        &self.name
    }

    /// Its variables.
    pub fn variables(&self) -> &[Declaration]
        ensures { result.now ≡ self.now.variables }
    {
        &self.variables
    }

    /// Its events.
    pub fn trace(&self) -> &[Event]
        ensures { result.now ≡ self.now.trace }
    {
        &self.trace
    }

    /// The values that originate nowhere (`non-orig`).
    pub fn non_originating(&self) -> &[Atom]
        ensures { result.now ≡ self.now.non_originating }
    {
        &self.non_originating
    }

    /// The values that the penetrator does not originate (`pen-non-orig`).
    pub fn penetrator_non_originating(&self) -> &[Atom]
        ensures { result.now ≡ self.now.penetrator_non_originating }
    {
        &self.penetrator_non_originating
    }

    /// The values that originate uniquely (`uniq-orig`).
    pub fn uniquely_originating(&self) -> &[Atom]
        ensures { result.now ≡ self.now.uniquely_originating }
    {
        &self.uniquely_originating
    }
}

/// A protocol: its name and its roles. The strands of skeletons share the roles, and each role declares the variables
/// of its events.
#[derive(Drop)]
pub struct Protocol {
    name: Text,
    roles: Vec<Rc<Role>>,
}

impl Model for Protocol {
    ghost use Rattle.cp_model.specs.Strand.{Protocol as Plain};
    ghost use Rattle.cp_strand.specs.Code.{coded_protocol};

    ghost Value = { Plain };

    ghost coded = { coded_protocol };

    ghost use Rattle.std.specs.Prelude.{map};

    ghost view = { λ p. record { name = p.name; roles = map (λ r. r.value) p.roles.items } };

    ghost use Rattle.cp_model.specs.Declares.{HasDeclaringRoles};

    ghost invariant = { λ p. HasDeclaringRoles (record { name = p.name; roles = map (λ r. r.value) p.roles.items }) };
}

impl Protocol {
    /// The protocol with this name and these roles. Each role must declare the variables of its events.
    pub fn new(name: Text, roles: Vec<Rc<Role>>) -> Protocol
        requires { HasDeclaringRoles (record { name = name; roles = map (λ r. r.value) roles.items }) }
        ensures { result ≡ record { name = name; roles = map (λ r. r.value) roles.items } }
    {
        Protocol { name, roles }
    }

    /// Every role of a protocol declares the variables of its events.
    pub fn is_sound(&self)
        ensures { HasDeclaringRoles self.now }
    {
        let _ = &self.roles;
    }

    /// Its name.
    pub fn name(&self) -> &Text
        ensures { result.now ≡ self.now.name }
    {
        &self.name
    }

    /// Its roles.
    pub fn roles(&self) -> &[Rc<Role>]
        ensures { map (λ r. r.value) result.now ≡ self.now.roles }
    {
        &self.roles
    }
}
