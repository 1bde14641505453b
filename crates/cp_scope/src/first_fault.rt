// The first of the faults met so far.
ghost use Rattle.std.specs.Prelude.{◌≡◌, None, is_none};
ghost use Rattle.cp_language.specs.Faults.{fault, fault_unless};
ghost use Rattle.cp_language.specs.FirstFault.{refusal_before, rank_of};
ghost use Rattle.cp_scope.specs.FirstFault.{earlier_of, first_onto, merged, onto_none, stands_before};

use cp_base::{Code, Place, Refusal};
use std::marker::Model;

/// The first of the faults noted so far, if any.
#[derive(Drop)]
pub struct FirstFault {
    found: Option<Refusal>,
}

impl Model for FirstFault {
    ghost use Rattle.std.specs.Prelude.{Option};
    ghost use Rattle.cp_base.specs.declared.place.Refusal.{Refusal as Fault};

    ghost Value = { Option Fault };

    ghost view = { λ f. f.found };
}

/// The rank of a kind of fault among the kinds at one place: kinds are declared in this order.
fn rank(code: Code) -> u32
    ensures { result ≡ rank_of code }
{
    code as u32
}

/// Whether the first fault comes before the second: by line, then by column, then by kind.
fn comes_before(first: Refusal, second: Refusal) -> bool
    ensures { result ≡ refusal_before first second }
{
    if first.place.line != second.place.line {
        return first.place.line < second.place.line;
    }
    if first.place.col != second.place.col {
        return first.place.col < second.place.col;
    }
    rank(first.code) < rank(second.code)
}

impl FirstFault {
    /// No fault so far.
    pub fn new() -> FirstFault
        ensures { result ≡ None }
    {
        FirstFault { found: None }
    }

    /// The first fault, if there was one.
    pub fn found(self) -> Option<Refusal>
        ensures { result ≡ self }
    {
        self.found
    }

    /// The first of these faults and another one.
    pub fn first_with(self, fault: Refusal) -> Refusal
        ensures { result ≡ earlier_of self fault }
    {
        match self.found {
            Some(first) if !comes_before(fault, first) => first,
            _ => fault,
        }
    }

    /// Notes a fault.
    pub fn note(&mut self, place: Place, code: Code)
        ensures { self.new ≡ first_onto self.old (fault place code) }
    {
        let fault = Refusal { place, code };
        match self.found {
            Some(first) if !comes_before(fault, first) => {}
            _ => self.found = Some(fault),
        }
    }

    /// Whether there was no fault yet.
    pub fn is_none(&self) -> bool
        ensures { result ≡ is_none self.now }
    {
        self.found.is_none()
    }

    /// Whether a fault was already noted that such a fault at this place does not precede, so that noting it would
    /// change nothing.
    pub fn stands_before(&self, place: Place, code: Code) -> bool
        ensures { result ≡ stands_before self.now (record { place = place; code = code }) }
    {
        match self.found {
            Some(first) => !comes_before(Refusal { place, code }, first),
            None => false,
        }
    }

    /// Notes a fault if the test fails and there was no fault yet.
    pub fn note_unless_faulty(&mut self, holds: bool, place: Place, code: Code)
        ensures { self.new ≡ onto_none self.old (fault_unless holds place code) }
    {
        if self.is_none() {
            self.note_unless(holds, place, code);
        }
    }

    /// Notes the first fault of others.
    pub fn merge(&mut self, others: FirstFault)
        ensures { self.new ≡ merged self.old others }
    {
        if let Some(fault) = others.found {
            self.note(fault.place, fault.code);
        }
    }

    /// Notes a fault if the test fails.
    pub fn note_unless(&mut self, holds: bool, place: Place, code: Code)
        ensures { self.new ≡ first_onto self.old (fault_unless holds place code) }
    {
        if !holds {
            self.note(place, code);
        }
    }
}
