// What is known at one node after another.
ghost use Rattle.std.specs.Prelude.{◌≡◌, ◌↔◌, IsTrue, IfOk};
ghost use Rattle.cp_model.specs.Derivable.{DerivableAt};
ghost use Rattle.cp_model.specs.Skeleton.{IsNodeOf};
ghost use Rattle.cp_model.specs.Term.{Term as Plain};
ghost use Rattle.cp_derive.specs.Before.{given_by};
ghost use Rattle.cp_derive.specs.Given.{IsDerivable};
ghost use Rattle.cp_derive.specs.Places.{AreSamePlaces};

use crate::assumed::assumed_values;
use crate::before::messages_at;
use crate::flags::places_behind;
use crate::knowledge::Known;
use crate::survey::Survey;
use cp_skel::Node;
use cp_term::Term;
use std::alloc::{AllocError, Global};
use std::marker::Model;

/// The places of the transmissions before the last node of a skeleton that was visited, and what is known from them.
pub(crate) struct KnownBefore<'a> {
    survey: &'a Survey<'a>,
    places: Vec<usize>,
    known: Known,
}

// A holder drops it by one call, which leaves less to prove of the holder.
impl<'a> Drop for KnownBefore<'a> {
    fn drop(self) {
        let KnownBefore {
            survey: _,
            places,
            known,
        } = self;
    }
}

impl<'a> Model for KnownBefore<'a> {
    ghost use Rattle.std.specs.Prelude.{◌≡◌};
    ghost use Rattle.cp_derive.specs.Before.{PlacesIn, coded_places_in, given_by};

    ghost Value = { PlacesIn };

    ghost coded = { coded_places_in };

    ghost view = { λ f. record { skeleton = f.survey.now; places = f.places.items } };

    ghost invariant = { λ f. f.known ≡ given_by f.survey.now f.places.items };
}

impl<'a> KnownBefore<'a> {
    /// What is known from no transmission.
    pub(crate) fn new(alloc: Global, survey: &'a Survey<'a>) -> Result<KnownBefore<'a>, AllocError>
        ensures { IfOk result (λ f. f.skeleton ≡ survey.now) }
    {
        let secrets = assumed_values(alloc, survey.skeleton().assumptions())?;
        let known = Known::new(alloc, Vec::new(alloc), secrets)?;
        Ok(KnownBefore {
            survey,
            places: Vec::new(alloc),
            known,
        })
    }

    /// The skeleton, and what was gathered of it.
    pub(crate) fn survey(&self) -> &'a Survey<'a>
        ensures { result.now ≡ self.now.skeleton }
    {
        self.survey
    }

    /// What is known.
    pub(crate) fn known(&self) -> &Known
        ensures { result.now ≡ given_by self.now.skeleton self.now.places }
    {
        &self.known
    }

    /// Whether a message is seen to be derivable at a node without gathering what is known there.
    pub(crate) fn derives_at_once(&self, message: &Term, node: Node) -> bool
        ensures { IsTrue result → DerivableAt self.now.skeleton node message.now }
    {
        if self.survey.is_sent_directly(message, node) {
            return true;
        }
        self.known.makes(message)
    }

    /// Moves on to these places; the result may list them in another order. If they contain all the last places, what was opened
    /// is kept. On one strand the last places are mostly a prefix of these, which is tested first.
    fn move_to_places(
        self,
        alloc: Global,
        places: Vec<usize>,
    ) -> Result<KnownBefore<'a>, AllocError>
        ensures skeleton { IfOk result (λ f. f.skeleton ≡ self.entry.skeleton) }
        ensures places { IfOk result (λ f. AreSamePlaces places.items f.places) }
    {
        let KnownBefore {
            survey,
            places: mut last,
            known,
        } = self;
        let transmissions = survey.transmissions();
        if let Some(more) = places.strip_prefix(&*last) {
            let messages = messages_at(alloc, more, transmissions)?;
            let known = known.extended(alloc, messages)?;
            return Ok(KnownBefore {
                survey,
                places,
                known,
            });
        }
        match places_behind(alloc, transmissions.len(), &last, &places)? {
            Some(mut more) => {
                let messages = messages_at(alloc, &more, transmissions)?;
                let known = known.extended(alloc, messages)?;
                last.append(&mut more)?;
                Ok(KnownBefore {
                    survey,
                    places: last,
                    known,
                })
            }
            None => {
                let sent = messages_at(alloc, &places, transmissions)?;
                let known = known.restarted(alloc, sent)?;
                Ok(KnownBefore {
                    survey,
                    places,
                    known,
                })
            }
        }
    }

    /// Moves on to a node. The node must exist.
    pub(crate) fn move_to(self, alloc: Global, node: Node) -> Result<KnownBefore<'a>, AllocError>
        requires there { IsNodeOf self.skeleton.strands node }
        ensures skeleton { IfOk result (λ f. f.skeleton ≡ self.entry.skeleton) }
        ensures at_node { IfOk result (λ f. (t : Plain) → DerivableAt self.entry.skeleton node t ↔ IsDerivable (given_by f.skeleton f.places) t) }
    {
        let survey = self.survey;
        survey.skeleton().is_sound();
        let places = survey.places_before(alloc, node)?;
        self.move_to_places(alloc, places)
    }
}
