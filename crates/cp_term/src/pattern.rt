// Patterns.
ghost use Rattle.std.specs.Prelude.{◌≡◌, IfOk};
ghost use Rattle.cp_lists.specs.Lists.{IsIn};
ghost use Rattle.cp_model.specs.Pattern.{IsPattern};
ghost use Rattle.cp_model.specs.Term.{variables_of};
ghost use Rattle.cp_model.specs.declared.variable.Variable.{Variable};

use crate::term::Term;
use cp_model::{Sequence, Variable};
use std::alloc::AllocError;
use std::marker::Model;

/// The local variables of a pattern, in order.
pub type Locals = Sequence<Variable>;

/// Patterns, in order.
pub type Patterns = Sequence<Pattern>;

/// An encryption whose local variables stand for any atom of their sort. Contracts see the term and its locals.
#[derive(Drop)]
pub struct Pattern {
    term: Term,
    locals: Locals,
}

impl Model for Pattern {
    ghost use Rattle.cp_model.specs.Tree.{Pattern as Plain};

    ghost Value = { Plain };

    ghost use Rattle.cp_model.specs.Pattern.{IsPattern};
    ghost use Rattle.cp_term.specs.Code.{coded_pattern};

    ghost coded = { coded_pattern };

    ghost view = { λ p. record { term = p.term; locals = p.locals } };

    ghost invariant = { λ p. IsPattern (record { term = p.term; locals = p.locals }) };
}

impl Pattern {
    /// The pattern of this term with these local variables. The term must be an encryption, and each local must be one of
    /// its variables.
    pub fn new(term: Term, locals: Locals) -> Pattern
        requires { IsPattern (record { term = term; locals = locals }) }
        ensures { result ≡ record { term = term; locals = locals } }
    {
        Pattern { term, locals }
    }

    /// The term.
    pub fn term(&self) -> &Term
        ensures term { result.now ≡ self.now.term }
        ensures pattern { IsPattern self.now }
    {
        &self.term
    }

    /// The local variables. Each is a variable of the term.
    pub fn locals(&self) -> &[Variable]
        ensures variables { result.now ≡ self.now.locals }
        ensures occur { (x : Variable) → IsIn x self.now.locals → IsIn x (variables_of self.now.term) }
    {
        self.locals.as_slice()
    }

    /// The same pattern.
    pub fn copy(&self) -> Result<Pattern, AllocError>
        ensures { IfOk result (λ p. p ≡ self.now) }
    {
        let term = self.term.copy()?;
        let locals = self.locals.copy()?;
        Ok(Pattern { term, locals })
    }
}
