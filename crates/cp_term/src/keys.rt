// Terms as keys of tables. They are hashed by their numbers, so that no term is walked through.
ghost use Rattle.cp_model.specs.Same.{same_term};
ghost use Rattle.cp_term.specs.Hashed.{hashed_term, same_terms_are_equivalent, same_terms_are_hashed_alike};
ghost use Rattle.std.specs.Cmp.{partial_equiv_from_equiv};

use crate::term::Term;
use std::hash::{Hash, Hasher};

impl PartialEq for Term {
    ghost eq = { same_term };

    ghost laws = { partial_equiv_from_equiv same_terms_are_equivalent };

    fn eq(&self, other: &Term) -> bool {
        self.same(other)
    }
}

impl Eq for Term {
    ghost laws = { same_terms_are_equivalent };
}

impl Hash for Term {
    ghost hash_input = { hashed_term };

    ghost respects_eq = { same_terms_are_hashed_alike };

    fn hash<H: Hasher>(&self, state: &mut H) {
        state.write_usize(self.number());
    }
}
