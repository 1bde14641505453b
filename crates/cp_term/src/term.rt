// Terms, as handles to shared nodes.
ghost use Rattle.std.specs.Prelude.{◌≡◌, IfOk, IsTrue};
ghost use Rattle.cp_lists.specs.Lists.{IsIn};
ghost use Rattle.cp_model.specs.Term.{variables_of};
ghost use Rattle.cp_model.specs.declared.variable.Variable.{Variable};
ghost use Rattle.cp_term.specs.Layer.{term_of_node, IsWellSorted};
ghost use Rattle.cp_term.specs.Numbers.{number_of_term, top_of_term};

use crate::number::{mixed, mixed_bytes, mixed_purpose};
use crate::variable::VarId;
use cp_base::Text;
use std::alloc::{AllocError, Global};
use std::marker::Model;
use std::rc::Rc;

/// A term: a handle to a node that other terms may share. Contracts see it as plain data.
#[cycle(term)]
pub struct Term {
    node: Rc<Shared>,
}

/// A node and two numbers that are made of its term: one by which most different terms are told apart at once, and the greatest
/// number of its variables.
#[cycle(term)]
#[derive(Drop)]
struct Shared {
    node: Node,
    number: usize,
    top: usize,
}

/// One node of a term. The flag of an asymmetric key says whether it is an inverse; the inverse of a name's key is its
/// private key.
#[cycle(term)]
#[derive(Drop)]
pub(crate) enum Node {
    Tag(Text),
    TextVariable(VarId),
    DatumVariable(VarId),
    NameVariable(VarId),
    SkeyVariable(VarId),
    AkeyVariable(bool, VarId),
    Ltk(VarId, VarId),
    Pubk(bool, Option<Text>, VarId),
    Pair(Term, Term),
    Encryption(Term, Term),
}

impl Model for Term {
    ghost use Rattle.cp_model.specs.Term.{Term as Plain};

    ghost Value = { Plain };

    ghost use Rattle.cp_term.specs.Code.{coded_term};

    ghost coded = { coded_term };

    ghost use Rattle.cp_term.specs.Layer.{term_of_node, IsWellSorted};

    ghost view = { λ t. term_of_node t.node.value.node };

    ghost use Rattle.std.specs.Prelude.{◌≡◌};
    ghost use Rattle.cp_term.specs.Numbers.{number_of_term, top_of_term};

    ghost invariant = { λ t. IsWellSorted t.node.value.node
        × (t.node.value.number ≡ number_of_term (term_of_node t.node.value.node))
        × (t.node.value.top ≡ top_of_term (term_of_node t.node.value.node)) };

    ghost use Rattle.cp_term.specs.Size.{term_size};

    ghost size = { term_size };

    ghost use Rattle.cp_term.specs.LayerFalls.{node_falls};

    ghost size_decreases = { λ t h. node_falls t.node.value.node h.0 };
}

// A loop along right parts and plaintexts, so that a long chain needs no deep stack.
impl Drop for Term {
    #[cycle(term)]
    fn drop(mut self) {
        loop {
            let Term { node } = self;
            match Rc::into_inner(node) {
                Some(
                    Shared {
                        node: Node::Pair(left, right),
                        number: _,
                        top: _,
                    },
                ) => {
                    drop(left);
                    self = right;
                }
                Some(
                    Shared {
                        node: Node::Encryption(body, key),
                        number: _,
                        top: _,
                    },
                ) => {
                    drop(key);
                    self = body;
                }
                _ => return,
            }
        }
    }
}

/// The number of a node's term, mixed from its kind, its text, the numbers of its variables and those of its parts.
fn number_of(node: &Node) -> usize
    requires { IsWellSorted node.now }
    ensures { result ≡ number_of_term (term_of_node node.now) }
{
    match node {
        Node::Tag(text) => mixed_bytes(1, text.as_bytes()),
        Node::TextVariable(id) => mixed(2, id.number()),
        Node::DatumVariable(id) => mixed(3, id.number()),
        Node::NameVariable(id) => mixed(4, id.number()),
        Node::SkeyVariable(id) => mixed(5, id.number()),
        Node::Ltk(a, b) => mixed(mixed(6, a.number()), b.number()),
        Node::AkeyVariable(false, id) => mixed(7, id.number()),
        Node::AkeyVariable(true, id) => mixed(8, id.number()),
        Node::Pubk(false, purpose, id) => mixed_purpose(mixed(9, id.number()), purpose),
        Node::Pubk(true, purpose, id) => mixed_purpose(mixed(10, id.number()), purpose),
        Node::Pair(left, right) => mixed(mixed(11, left.number()), right.number()),
        Node::Encryption(body, key) => mixed(mixed(12, body.number()), key.number()),
    }
}

/// The greatest number of a variable of a node's term.
fn top_of(node: &Node) -> usize
    requires { IsWellSorted node.now }
    ensures { result ≡ top_of_term (term_of_node node.now) }
{
    match node {
        Node::Tag(_) => 0,
        Node::TextVariable(id)
        | Node::DatumVariable(id)
        | Node::NameVariable(id)
        | Node::SkeyVariable(id)
        | Node::AkeyVariable(_, id)
        | Node::Pubk(_, _, id) => id.number(),
        Node::Ltk(a, b) => a.number().max(b.number()),
        Node::Pair(left, right) => left.top().max(right.top()),
        Node::Encryption(body, key) => body.top().max(key.top()),
    }
}

impl Term {
    /// A term of one new node.
    pub(crate) fn made(alloc: Global, node: Node) -> Result<Term, AllocError>
        requires { IsWellSorted node }
        ensures { IfOk result (λ t. t ≡ term_of_node node) }
    {
        let number = number_of(&node);
        let top = top_of(&node);
        let node = Rc::new(alloc, Shared { node, number, top })?;
        Ok(Term { node })
    }

    /// The node.
    pub(crate) fn node(&self) -> &Node
        ensures view { term_of_node result.now ≡ self.now }
        ensures sorted { IsWellSorted result.now }
    {
        &self.node.node
    }

    /// A number by which most different terms are told apart.
    pub(crate) fn number(&self) -> usize
        ensures { result ≡ number_of_term self.now }
    {
        self.node.number
    }

    /// The greatest number of a variable of the term; 0 if it has none.
    pub(crate) fn top(&self) -> usize
        ensures { result ≡ top_of_term self.now }
    {
        self.node.top
    }

    /// Fast test: false only if no variable with this number occurs in the term.
    #[tactic(auto, using(crate::proofs::Tops::in_term))]
    pub fn may_have(&self, variable: VarId) -> bool
        ensures { (x : Variable) → x.number ≡ variable → IsIn x (variables_of self.now) → IsTrue result }
    {
        variable.number() <= self.top()
    }

    /// Another handle to the same term.
    pub fn copy(&self) -> Result<Term, AllocError>
        ensures { IfOk result (λ t. t ≡ self.now) }
    {
        let node = self.node.clone()?;
        Ok(Term { node })
    }
}

impl Clone for Term {
    ghost is_clone = { λ s t. t ≡ s };

    fn clone(&self) -> Result<Term, AllocError> {
        self.copy()
    }
}
