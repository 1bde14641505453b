// Strands of skeletons, as handles that copies share.
ghost use Rattle.std.specs.Prelude.{◌≡◌, IfOk};
ghost use Rattle.cp_strand.specs.Bodies.{strand_of_body, HoldsItsOwn};
ghost use Rattle.cp_strand.specs.Givens.{IsGivenBy};
ghost use Rattle.cp_model.specs.Skeleton.{listener, skeleton_trace};
ghost use Rattle.cp_strand.specs.Shapes.{strand_of_shape};
ghost use Rattle.cp_strand.specs.View.{instance_view};

use crate::events::instance_events;
use crate::given::{Given, given_to};
use crate::protocol::{Event, Role};
use cp_term::Term;
use std::alloc::{AllocError, Global};
use std::marker::Model;
use std::rc::Rc;

/// An instance of a role at a height, with terms for the role's variables by their numbers. A variable whose term is
/// missing or of another sort stays itself. A term for a variable outside the prefix has no meaning.
#[derive(Drop)]
pub struct Instance {
    role: Rc<Role>,
    height: usize,
    values: Vec<Term>,
}

impl Model for Instance {
    ghost use Rattle.cp_strand.specs.View.{InstanceData};
    ghost use Rattle.cp_strand.specs.Code.{coded_instance};

    ghost Value = { InstanceData };

    ghost coded = { coded_instance };

    ghost view = { λ i. record { role = i.role.value; height = i.height; values = i.values.items } };
}

impl Instance {
    /// The instance of this role at this height, with these terms for the role's variables.
    pub fn new(role: Rc<Role>, height: usize, values: Vec<Term>) -> Instance
        ensures { result ≡ record { role = role.value; height = height; values = values.items } }
    {
        Instance {
            role,
            height,
            values,
        }
    }

    /// Its role.
    pub fn role(&self) -> &Rc<Role>
        ensures { result.now.value ≡ self.now.role }
    {
        &self.role
    }

    /// Its height: how many events of its role it has.
    pub fn height(&self) -> usize
        ensures { result ≡ self.now.height }
    {
        self.height
    }

    /// The terms of the role's variables.
    pub fn values(&self) -> &[Term]
        ensures { result.now ≡ self.now.values }
    {
        &self.values
    }
}

/// What a strand keeps of an instance, so that it need not be made each time: its events, and what its role gives it.
pub(crate) struct Held {
    pub(crate) events: Vec<Event>,
    pub(crate) given: Given,
}

// A value drops by one call of its own, wherever it is held.
impl Drop for Held {
    fn drop(self) {
        let Held { events, given } = self;
    }
}

/// What a strand is: an instance of a role, with what is kept of it, if anything is; or a listener, which receives a
/// message and sends it on.
#[derive(Drop)]
pub(crate) enum Body {
    Instance(Instance, Option<Held>),
    Listener(Term),
}

/// A strand of a skeleton. It never changes, and copies share it.
#[derive(Drop)]
pub struct Strand {
    body: Rc<Body>,
}

impl Model for Strand {
    ghost use Rattle.cp_model.specs.Skeleton.{SkeletonStrand};
    ghost use Rattle.cp_strand.specs.Code.{coded_strand};

    ghost Value = { SkeletonStrand };

    ghost coded = { coded_strand };

    ghost use Rattle.cp_strand.specs.Bodies.{strand_of_body};

    ghost view = { λ s. strand_of_body s.body.value };

    ghost use Rattle.cp_strand.specs.Bodies.{HoldsItsOwn};

    ghost invariant = { λ s. HoldsItsOwn s.body.value };
}

/// What a strand is: an instance of a role, or a listener, given by the term of its message.
#[derive(Clone, Copy)]
pub enum StrandShape<'a> {
    Instance(&'a Instance),
    Listener(&'a Term),
}

impl Strand {
    /// The strand that is this instance.
    pub fn instance(alloc: Global, instance: Instance) -> Result<Strand, AllocError>
        ensures { IfOk result (λ s. s ≡ instance_view instance) }
    {
        let body = Rc::new(alloc, Body::Instance(instance, None))?;
        Ok(Strand { body })
    }

    /// The strand that is this instance. If its role is small, the strand keeps its events and what its role gives it,
    /// so that they need not be made each time; those of many large strands could take much memory.
    pub fn with_events(alloc: Global, instance: Instance) -> Result<Strand, AllocError>
        ensures { IfOk result (λ s. s ≡ instance_view instance) }
    {
        if !instance.role().is_small() {
            return Strand::instance(alloc, instance);
        }
        let events = instance_events(alloc, &instance)?;
        let given = given_to(alloc, &instance)?;
        Strand::holding(alloc, instance, events, given)
    }

    /// The strand that is this instance and keeps these events, which must be its own, and what its role gives it.
    pub fn holding(
        alloc: Global,
        instance: Instance,
        events: Vec<Event>,
        given: Given,
    ) -> Result<Strand, AllocError>
        requires events { events.items ≡ skeleton_trace (instance_view instance) }
        requires given { IsGivenBy (instance_view instance) given }
        ensures { IfOk result (λ s. s ≡ instance_view instance) }
    {
        let held = Held { events, given };
        let body = Rc::new(alloc, Body::Instance(instance, Some(held)))?;
        Ok(Strand { body })
    }

    /// The listener to a message.
    pub fn listener(alloc: Global, message: Term) -> Result<Strand, AllocError>
        ensures { IfOk result (λ s. s ≡ listener message) }
    {
        let body = Rc::new(alloc, Body::Listener(message))?;
        Ok(Strand { body })
    }

    /// What the strand is.
    pub fn shape(&self) -> StrandShape<'_>
        ensures { strand_of_shape result ≡ self.now }
    {
        match &*self.body {
            Body::Instance(instance, _) => StrandShape::Instance(instance),
            Body::Listener(message) => StrandShape::Listener(message),
        }
    }

    /// What the strand is, with what it keeps.
    pub(crate) fn body(&self) -> &Body
        ensures view { strand_of_body result.now ≡ self.now }
        ensures held { HoldsItsOwn result.now }
    {
        &self.body
    }

    /// Another handle to the same strand.
    pub fn copy(&self) -> Result<Strand, AllocError>
        ensures { IfOk result (λ s. s ≡ self.now) }
    {
        let body = self.body.clone()?;
        Ok(Strand { body })
    }
}

impl Clone for Strand {
    ghost is_clone = { λ s t. t ≡ s };

    fn clone(&self) -> Result<Strand, AllocError> {
        self.copy()
    }
}
