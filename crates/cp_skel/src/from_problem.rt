// The map from a problem to a skeleton.
ghost use Rattle.std.specs.Prelude.{◌≡◌, IfOk};
ghost use Rattle.std.specs.Result.{IsOkAnd};
ghost use Rattle.cp_skel.specs.MapParts.{map_of_parts};

use crate::assumptions::Assumptions;
use crate::skeleton::OrderPair;
use cp_model::SharedList;
use cp_term::Term;
use std::alloc::{AllocError, Global};
use std::marker::Model;
use std::rc::Rc;

/// What a map from a problem consists of.
#[derive(Drop)]
struct Parts {
    strands: SharedList<usize>,
    values: SharedList<Term>,
    assumptions: Assumptions,
    pairs: SharedList<OrderPair>,
}

/// How the parts of a map are held: by a handle that copies share; or, if there was no memory for a handle, by
/// themselves.
#[derive(Drop)]
enum Held {
    Shared(Rc<Parts>),
    Own(Parts),
}

/// The map from a problem: a strand for each strand of the problem, and a term for each of its variables; and the
/// images of the assumptions and the pairs that the problem itself states. Copies share all of these.
pub struct FromProblem {
    held: Held,
}

// A value drops by one call of its own, wherever it is held.
impl Drop for FromProblem {
    fn drop(self) {
        let FromProblem { held } = self;
    }
}

impl Model for FromProblem {
    ghost use Rattle.cp_model.specs.Skeleton.{FromProblem as Plain};
    ghost use Rattle.cp_skel.specs.Code.{coded_from_problem};

    ghost Value = { Plain };

    ghost coded = { coded_from_problem };

    ghost use Rattle.cp_skel.specs.MapParts.{held_map};

    ghost view = { λ p. held_map p.held };
}

impl FromProblem {
    /// The map that sends the problem's strands to these and its variables to these values, and what the problem states
    /// itself to these assumptions and pairs.
    pub fn new(
        strands: Vec<usize>,
        values: Vec<Term>,
        assumptions: Assumptions,
        pairs: Vec<OrderPair>,
    ) -> FromProblem
        ensures { result ≡ record { strands = strands.items; values = values.items; assumptions = assumptions; pairs = pairs.items } }
    {
        let alloc = *strands.allocator();
        FromProblem::of(
            alloc,
            Parts {
                strands: SharedList::of(strands),
                values: SharedList::of(values),
                assumptions,
                pairs: SharedList::of(pairs),
            },
        )
    }

    /// The map of these parts.
    fn of(alloc: Global, parts: Parts) -> FromProblem
        ensures { result ≡ map_of_parts parts }
    {
        let held = match Rc::new(alloc, parts) {
            Ok(parts) => Held::Shared(parts),
            Err(refused) => Held::Own(refused.value),
        };
        FromProblem { held }
    }

    /// The map of these parts, if each could be made.
    fn of_shared(
        alloc: Global,
        strands: Result<SharedList<usize>, AllocError>,
        values: Result<SharedList<Term>, AllocError>,
        assumptions: Result<Assumptions, AllocError>,
        pairs: Result<SharedList<OrderPair>, AllocError>,
    ) -> Result<FromProblem, AllocError>
        ensures strands { IfOk result (λ f. IsOkAnd strands (λ l. f.strands ≡ l)) }
        ensures values { IfOk result (λ f. IsOkAnd values (λ l. f.values ≡ l)) }
        ensures assumptions { IfOk result (λ f. IsOkAnd assumptions (λ a. f.assumptions ≡ a)) }
        ensures pairs { IfOk result (λ f. IsOkAnd pairs (λ l. f.pairs ≡ l)) }
    {
        let parts = Parts {
            strands: strands?,
            values: values?,
            assumptions: assumptions?,
            pairs: pairs?,
        };
        Ok(FromProblem::of(alloc, parts))
    }

    /// What it consists of.
    fn parts(&self) -> &Parts
        ensures { map_of_parts result.now ≡ self.now }
    {
        match &self.held {
            Held::Shared(parts) => parts,
            Held::Own(parts) => parts,
        }
    }

    /// A strand for each strand of the problem.
    pub fn strands(&self) -> &[usize]
        ensures { result.now ≡ self.now.strands }
    {
        self.parts().strands.as_slice()
    }

    /// A term for each variable of the problem.
    pub fn values(&self) -> &[Term]
        ensures { result.now ≡ self.now.values }
    {
        self.parts().values.as_slice()
    }

    /// The images of the assumptions that the problem itself states.
    pub fn assumptions(&self) -> &Assumptions
        ensures { result.now ≡ self.now.assumptions }
    {
        &self.parts().assumptions
    }

    /// The images of the pairs that the problem itself states.
    pub fn pairs(&self) -> &[OrderPair]
        ensures { result.now ≡ self.now.pairs }
    {
        self.parts().pairs.as_slice()
    }

    /// The same map from a problem.
    pub fn copy(&self, alloc: Global) -> Result<FromProblem, AllocError>
        ensures { IfOk result (λ p. p ≡ self.now) }
    {
        match &self.held {
            Held::Shared(parts) => parts.clone().map(|parts| FromProblem {
                held: Held::Shared(parts),
            }),
            Held::Own(parts) => FromProblem::of_shared(
                alloc,
                parts.strands.copy(alloc),
                parts.values.copy(alloc),
                parts.assumptions.copy(alloc),
                parts.pairs.copy(alloc),
            ),
        }
    }

    /// The map with these values and these images of the assumptions in place of its own. It shares the strands and the
    /// pairs.
    pub fn with_values(
        &self,
        alloc: Global,
        values: Vec<Term>,
        assumptions: Assumptions,
    ) -> Result<FromProblem, AllocError>
        ensures { IfOk result (λ p. p ≡ record self.now { values = values.items; assumptions = assumptions }) }
    {
        let own = self.parts();
        FromProblem::of_shared(
            alloc,
            own.strands.copy(alloc),
            Ok(SharedList::of(values)),
            Ok(assumptions),
            own.pairs.copy(alloc),
        )
    }

    /// The map with these strands, images of the assumptions and images of the pairs in place of its own. It shares the
    /// values.
    pub(crate) fn with_strands(
        &self,
        alloc: Global,
        strands: Vec<usize>,
        assumptions: Assumptions,
        pairs: Vec<OrderPair>,
    ) -> Result<FromProblem, AllocError>
        ensures { IfOk result (λ p. p ≡ record { strands = strands.items; values = self.now.values; assumptions = assumptions; pairs = pairs.items }) }
    {
        FromProblem::of_shared(
            alloc,
            Ok(SharedList::of(strands)),
            self.parts().values.copy(alloc),
            Ok(assumptions),
            Ok(SharedList::of(pairs)),
        )
    }
}
