// Where terms originate among events, on instances and on strands.
ghost use Rattle.std.specs.Prelude.{◌↔◌, IsTrue, IfSome, IfNone, ℕ};
ghost use Rattle.cp_model.specs.Strand.{OriginatesInTerms};
ghost use Rattle.cp_model.specs.Skeleton.{skeleton_trace};
ghost use Rattle.cp_model.specs.Homomorphism.{substitution_by};
ghost use Rattle.cp_strand.specs.View.{instance_view};
ghost use Rattle.cp_strand.specs.Origins.{IsCarriedByOne, OriginatesUnder};

use crate::protocol::Event;
use crate::strand::{Instance, Strand, StrandShape};
use crate::terms_under::carries_under;
use cp_model::item_at;
use cp_term::{Term, carries};

/// The index among events at which a term originates, if it does.
pub fn origin(events: &[Event], value: &Term) -> Option<usize>
    ensures some { IfSome result (λ i. OriginatesInTerms events.now value.now i) }
    ensures none { IfNone result ((i : ℕ) → OriginatesInTerms events.now value.now i → ⊥) }
{
    for (index, event) in events.iter().enumerate() {
        if carries(event.payload(), value) {
            return match event {
                Event::Send(_) => Some(index),
                Event::Receive(_) => None,
            };
        }
    }
    None
}

/// Whether one of a role's events, under the terms, carries the term.
fn is_carried_by_one(values: &[Term], events: &[Event], t: &Term) -> bool
    ensures { IsTrue result ↔ IsCarriedByOne (substitution_by values.now) events.now t.now }
{
    for event in events {
        if carries_under(values, event.payload(), t) {
            return true;
        }
    }
    false
}

/// Whether the term originates at an index, from 0, of a role's events under the terms.
fn originates_under(values: &[Term], events: &[Event], index: usize, t: &Term) -> bool
    ensures { IsTrue result ↔ OriginatesUnder (substitution_by values.now) events.now t.now index }
{
    let Some(event) = item_at(events, index) else {
        return false;
    };
    match event {
        Event::Send(message) => {
            carries_under(values, message, t) && !is_carried_by_one(values, &events[..index], t)
        }
        Event::Receive(_) => false,
    }
}

impl Instance {
    /// Whether the term originates at an index of the instance, from 0.
    pub fn originates(&self, index: usize, t: &Term) -> bool
        ensures { IsTrue result ↔ OriginatesInTerms (skeleton_trace (instance_view self.now)) t.now index }
    {
        index < self.height() && originates_under(self.values(), self.role().trace(), index, t)
    }
}

impl Strand {
    /// Whether the term originates at an index of the strand, from 0. Nothing originates on a listener.
    pub fn originates(&self, index: usize, t: &Term) -> bool
        ensures { IsTrue result ↔ OriginatesInTerms (skeleton_trace self.now) t.now index }
    {
        match self.shape() {
            StrandShape::Instance(instance) => instance.originates(index, t),
            StrandShape::Listener(_) => false,
        }
    }
}
