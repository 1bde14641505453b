// The first of the misfits met so far.
ghost use Rattle.std.specs.Prelude.{◌≡◌, None, is_none};
ghost use Rattle.cp_report.specs.Misfits.{misfit, misfit_unless};
ghost use Rattle.cp_spelled.specs.FirstMisfit.{first_onto, merged, onto_none};

use cp_base::{Code, Place};
use cp_scope::FirstFault;
use std::marker::Model;

/// The first of the misfits noted so far, if any: the place of the first of as many faults of one kind.
#[derive(Drop)]
pub struct FirstMisfit {
    first: FirstFault,
}

impl Model for FirstMisfit {
    ghost use Rattle.std.specs.Prelude.{Option, option_map};
    ghost use Rattle.cp_base.specs.declared.place.Place.{Place as Where};

    ghost Value = { Option Where };

    ghost view = { λ f. option_map (λ r. r.place) f.first };
}

impl FirstMisfit {
    /// No misfit so far.
    pub fn new() -> FirstMisfit
        ensures { result ≡ None }
    {
        let first = FirstFault::new();
        FirstMisfit { first }
    }

    /// The place of the first misfit, if there was one.
    pub fn found(self) -> Option<Place>
        ensures { result ≡ self }
    {
        self.first.found().map(|fault| fault.place)
    }

    /// Whether there was no misfit yet.
    #[tactic(auto, using(crate::proofs::PlacesOfFaults::none_noted))]
    pub fn is_none(&self) -> bool
        ensures { result ≡ is_none self.now }
    {
        self.first.is_none()
    }

    /// Notes a misfit.
    #[tactic(auto, using(crate::proofs::PlacesOfFaults::noted))]
    pub fn note(&mut self, place: Place)
        ensures { self.new ≡ first_onto self.old (misfit place) }
    {
        self.first.note(place, Code::BadShape);
    }

    /// Notes a misfit if the test fails.
    #[tactic(auto, using(crate::proofs::PlacesOfFaults::noted_unless))]
    pub fn note_unless(&mut self, holds: bool, place: Place)
        ensures { self.new ≡ first_onto self.old (misfit_unless holds place) }
    {
        self.first.note_unless(holds, place, Code::BadShape);
    }

    /// Notes a misfit if the test fails and there was no misfit yet.
    #[tactic(auto, using(crate::proofs::PlacesOfFaults::noted_where_none))]
    pub fn note_unless_misfit(&mut self, holds: bool, place: Place)
        ensures { self.new ≡ onto_none self.old (misfit_unless holds place) }
    {
        self.first.note_unless_faulty(holds, place, Code::BadShape);
    }

    /// Notes the first misfit of others.
    #[tactic(auto, using(crate::proofs::PlacesOfFaults::noted_of_others))]
    pub fn merge(&mut self, others: FirstMisfit)
        ensures { self.new ≡ merged self.old others }
    {
        self.first.merge(others.first);
    }
}
