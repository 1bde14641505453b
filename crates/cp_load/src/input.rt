// Loaded input.
ghost use Rattle.std.specs.Prelude.{◌≡◌, option_map};
ghost use Rattle.cp_sexpr.specs.View.{view};
ghost use Rattle.cp_language.specs.Input.{form_of, stated};
ghost use Rattle.cp_load.specs.Inputs.{problem_view, entry_view};

use cp_sexpr::Form;
use cp_skel::{Protocol, Skeleton};
use std::rc::Rc;

/// Well-formed input: its forms in order, each with what it states.
#[derive(Drop)]
pub struct Input<'a> {
    pub entries: Vec<Entry<'a>>,
}

/// A form of well-formed input, with what it states: nothing, a protocol, or a problem.
#[derive(Drop)]
pub enum Entry<'a> {
    Plain(&'a Form),
    Protocol(&'a Form, Rc<Protocol>),
    Problem(&'a Form, Problem),
}

impl<'a> Entry<'a> {
    /// The form.
    pub fn form(&self) -> &'a Form
        ensures { view result.now ≡ form_of (entry_view self.now) }
    {
        match self {
            Entry::Plain(form) | Entry::Protocol(form, _) | Entry::Problem(form, _) => form,
        }
    }

    /// The problem that the form states, if it states one.
    pub fn problem(&self) -> Option<&Problem>
        ensures { option_map (λ p. problem_view p.now) result ≡ stated (entry_view self.now) }
    {
        match self {
            Entry::Plain(_) | Entry::Protocol(..) => None,
            Entry::Problem(_, problem) => Some(problem),
        }
    }
}

/// A problem: its protocol, how many of its skeleton's variables it declares, and its skeleton, which maps to itself.
/// The variables after the declared ones were made for its strands.
#[derive(Drop)]
pub struct Problem {
    pub protocol: Rc<Protocol>,
    pub declared: usize,
    pub skeleton: Skeleton,
}
