// Messages, as handles to shared nodes.
ghost use Rattle.std.specs.Prelude.{◌≡◌, IfOk};
ghost use Rattle.cp_model.specs.Message as plain;
ghost use Rattle.cp_model.specs.MessageView.{message_of_form};

use crate::key::Key;
use cp_base::Text;
use std::alloc::{AllocError, Global};
use std::marker::Model;
use std::rc::Rc;

/// A message: a handle to a node that other messages may share. Contracts see it as plain data.
#[cycle(message)]
pub struct Msg {
    node: Rc<Form>,
}

/// The outermost form of a message.
#[cycle(message)]
#[derive(Drop)]
pub(crate) enum Form {
    Tag(Text),
    Text(usize),
    Datum(usize),
    Name(usize),
    Key(Key),
    Pair(Msg, Msg),
    Encryption(Msg, Key),
}

impl Model for Msg {
    ghost use Rattle.cp_model.specs.Message.{Message as Plain};

    ghost Value = { Plain };

    ghost use Rattle.cp_model.specs.MessageCode.{coded_message};

    ghost coded = { coded_message };

    ghost use Rattle.cp_model.specs.MessageView.{message_of_form};

    ghost view = { λ m. message_of_form m.node.value };

    ghost use Rattle.cp_model.specs.MessageSize.{message_size};

    ghost size = { message_size };

    ghost use Rattle.cp_model.specs.FormFalls.{form_falls};

    ghost size_decreases = { λ m h. form_falls m.node.value };
}

// A loop along right parts and plaintexts, so that long chains need no deep stack.
impl Drop for Msg {
    #[cycle(message)]
    fn drop(mut self) {
        loop {
            let Msg { node } = self;
            match Rc::into_inner(node) {
                Some(Form::Pair(left, right)) => {
                    drop(left);
                    self = right;
                }
                Some(Form::Encryption(body, key)) => {
                    drop(key);
                    self = body;
                }
                _ => return,
            }
        }
    }
}

impl Msg {
    /// A message with this form, in a new node.
    fn made(alloc: Global, form: Form) -> Result<Msg, AllocError>
        ensures { IfOk result (λ m. m ≡ message_of_form form) }
    {
        Rc::new(alloc, form)
            .map(|node| Msg { node })
            .map_err(AllocError::from)
    }

    /// The outermost form of the message.
    pub(crate) fn form(&self) -> &Form
        ensures { message_of_form result.now ≡ self.now }
    {
        &self.node
    }

    /// Another handle to the same message.
    pub fn copy(&self) -> Result<Msg, AllocError>
        ensures { IfOk result (λ m. m ≡ self.now) }
    {
        self.node.clone().map(|node| Msg { node })
    }

    /// The tag with this text.
    pub fn tag(alloc: Global, text: &str) -> Result<Msg, AllocError>
        ensures { IfOk result (λ m. m ≡ plain.tag text.now) }
    {
        let text = Text::new(alloc, text)?;
        Msg::made(alloc, Form::Tag(text))
    }

    /// The text with this number.
    pub fn text(alloc: Global, number: usize) -> Result<Msg, AllocError>
        ensures { IfOk result (λ m. m ≡ plain.atom (plain.text number)) }
    {
        Msg::made(alloc, Form::Text(number))
    }

    /// The datum with this number.
    pub fn datum(alloc: Global, number: usize) -> Result<Msg, AllocError>
        ensures { IfOk result (λ m. m ≡ plain.atom (plain.datum number)) }
    {
        Msg::made(alloc, Form::Datum(number))
    }

    /// The name with this number.
    pub fn name(alloc: Global, number: usize) -> Result<Msg, AllocError>
        ensures { IfOk result (λ m. m ≡ plain.atom (plain.name number)) }
    {
        Msg::made(alloc, Form::Name(number))
    }

    /// A key as a message.
    pub fn key(alloc: Global, key: Key) -> Result<Msg, AllocError>
        ensures { IfOk result (λ m. m ≡ plain.atom (plain.key key)) }
    {
        Msg::made(alloc, Form::Key(key))
    }

    /// The pair of two messages.
    pub fn pair(alloc: Global, left: Msg, right: Msg) -> Result<Msg, AllocError>
        ensures { IfOk result (λ m. m ≡ plain.pair left right) }
    {
        Msg::made(alloc, Form::Pair(left, right))
    }

    /// The encryption of a message under a key.
    pub fn enc(alloc: Global, body: Msg, key: Key) -> Result<Msg, AllocError>
        ensures { IfOk result (λ m. m ≡ plain.enc body key) }
    {
        Msg::made(alloc, Form::Encryption(body, key))
    }
}
