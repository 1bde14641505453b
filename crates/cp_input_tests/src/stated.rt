// What texts state, for the tests: forms and skeletons; and what stands at nodes of skeletons.
ghost use Rattle.std.specs.Prelude.{◌≡◌, IfOk, IsTrue};
ghost use Rattle.cp_model.specs.Skeleton.{IsNodeOf, term_event_at};
ghost use Rattle.cp_model.specs.Term.{atom_term, text_variable};

use cp_load::{Entry, Problem, load};
use cp_model::Node;
use cp_sexpr::{Form, MAX_LENGTH, read};
use cp_skel::{Event, Skeleton};
use cp_term::{Sort, Term, VarId, var};
use std::alloc::{AllocError, Global};
use std::test::Fail;

pub(crate) const NEEDHAM_SCHROEDER: &str = "(defprotocol ns basic\n  \
    (defrole init (vars (a b name) (n1 n2 text)) (trace (send (enc n1 a (pubk b))) (recv (enc n1 n2 (pubk a))) (send (enc n2 (pubk b)))))\n  \
    (defrole resp (vars (a b name) (n1 n2 text)) (trace (recv (enc n1 a (pubk b))) (send (enc n1 n2 (pubk a))) (recv (enc n2 (pubk b))))))\n";

/// The text of these pieces.
pub(crate) fn joined(alloc: Global, pieces: &[&str]) -> Result<Vec<u8>, AllocError> {
    let mut text = Vec::new(alloc);
    for piece in pieces {
        text.extend_from_slice(piece.as_bytes())?;
    }
    Ok(text)
}

/// The forms of the text.
pub(crate) fn forms_of(alloc: Global, text: &[u8]) -> Result<Vec<Form>, Fail> {
    if text.len() > MAX_LENGTH {
        return Err(Fail::new("the text is too long"));
    }
    match read(alloc, text) {
        Ok(forms) => Ok(forms),
        Err(_) => Err(Fail::new("the text is not read")),
    }
}

/// The problem that the last of the forms states.
pub(crate) fn last_problem(alloc: Global, forms: &[Form]) -> Result<Problem, Fail> {
    let Ok(input) = load(alloc, forms) else {
        return Err(Fail::new("the forms have a fault"));
    };
    let mut entries = input.entries;
    match entries.pop() {
        Some(Entry::Problem(_, problem)) => Ok(problem),
        _ => Err(Fail::new("the last form states no problem")),
    }
}

/// The problem that the text states last.
fn last_in(alloc: Global, text: &[u8]) -> Result<Problem, Fail> {
    let forms = forms_of(alloc, text)?;
    last_problem(alloc, &forms)
}

/// The problem, which stands after its protocol.
pub(crate) fn problem_of(alloc: Global, protocol: &str, problem: &str) -> Result<Problem, Fail> {
    let text = joined(alloc, &[protocol, problem])?;
    last_in(alloc, &text)
}

/// The skeleton of the problem.
pub(crate) fn skeleton_of(alloc: Global, protocol: &str, problem: &str) -> Result<Skeleton, Fail> {
    Ok(problem_of(alloc, protocol, problem)?.skeleton)
}

/// The event at a node, if there is one.
pub(crate) fn event_at(alloc: Global, k: &Skeleton, node: Node) -> Result<Option<Event>, AllocError>
    ensures { IfOk result (λ e. e ≡ term_event_at k.now.strands node) }
{
    match k.strands().get(node.strand) {
        Some(strand) => strand.event(alloc, node.index),
        None => Ok(None),
    }
}

/// Whether there is an event at a node.
#[tactic(auto, using(crate::proofs::Nodes::there_where_some))]
pub(crate) fn is_there(alloc: Global, k: &Skeleton, node: Node) -> Result<bool, AllocError>
    ensures { IfOk result (λ there. IsTrue there → IsNodeOf k.now.strands node) }
{
    match event_at(alloc, k, node)? {
        Some(_) => Ok(true),
        None => Ok(false),
    }
}

/// The text with this number.
pub(crate) fn text(alloc: Global, number: usize) -> Result<Term, AllocError>
    ensures { IfOk result (λ t. t ≡ atom_term (text_variable number)) }
{
    var(alloc, VarId::numbered(number), Sort::Text)
}
