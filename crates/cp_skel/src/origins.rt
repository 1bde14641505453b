// Where terms originate in skeletons.
ghost use Rattle.std.specs.Prelude.{◌↔◌, IsTrue};
ghost use Rattle.cp_lists.specs.Lists.{item_at};
ghost use Rattle.cp_model.specs.Strand.{OriginatesInTerms};
ghost use Rattle.cp_model.specs.Skeleton.{skeleton_trace_or_none};

use crate::skeleton::{Node, Skeleton};
use cp_term::Term;

impl Skeleton {
    /// Whether the term originates at the node: the event there is a transmission that carries it, and no earlier event
    /// of the strand carries it (CPSA Primer, "Strand Spaces"; TACAS 2007, section 2).
    pub fn originates(&self, n: Node, t: &Term) -> bool
        ensures exact { IsTrue result
            ↔ OriginatesInTerms (skeleton_trace_or_none (item_at self.now.strands n.strand)) t.now n.index }
    {
        match self.strands().get(n.strand) {
            Some(strand) => strand.originates(n.index, t),
            None => false,
        }
    }
}
