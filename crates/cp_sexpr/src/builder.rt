// Forms are built piece by piece.
ghost use Rattle.std.specs.Prelude.{◌≡◌, [], OnOk, IfOk, IfErr, IfSome, IfNone, IsTrue, ◌↔◌};
ghost use Rattle.cp_sexpr.specs.Pieces.{opening, closing, token};
ghost use Rattle.cp_sexpr.specs.Written.{BeginsWithDigit, IsNumber, value, IsAcceptedPiece};
ghost use Rattle.cp_sexpr.specs.CutPieces.{piece_of};
ghost use Rattle.cp_sexpr.specs.View.{view, views};
ghost use Rattle.cp_sexpr.specs.UnfinishedForms.{nothing_yet, with_item, with_list_open, with_list_closed, token_form, with_piece, building_of, opened_by, RefusesPiece, RefusesEnd};
ghost use Rattle.cp_sexpr.specs.declared.error.OrMemory.TheVariants.{Memory};

use crate::error::ReadError;
use crate::form::Form;
use crate::piece::Piece;
use cp_base::{Code, Place, Refusal, Text};
use std::alloc::Global;
use std::mem;

/// Lists nest no deeper than this.
const MAX_DEPTH: usize = 200;

/// A number has no more digits than this, and so fits.
const MAX_DIGITS: usize = 9;

/// A list that is not closed yet: its place, and the forms before it in the enclosing list.
#[derive(Drop)]
struct OpenList {
    place: Place,
    before: Vec<Form>,
}

/// The lists that are not closed yet, the innermost last, and the forms of the innermost.
#[derive(Drop)]
pub(crate) struct Builder {
    lists: Vec<OpenList>,
    items: Vec<Form>,
}

/// The number that a token writes, if it is one to nine digits.
fn number_of(digits: &[u8]) -> Option<usize>
    ensures number { IfSome result (λ n. IsNumber digits.now × (n ≡ value digits.now)) }
    ensures none { IfNone result (IsNumber digits.now → ⊥) }
{
    if digits.is_empty() || digits.len() > MAX_DIGITS {
        return None;
    }
    let mut number = 0;
    for byte in digits {
        if !byte.is_ascii_digit() {
            return None;
        }
        number = number * 10 + usize::from(*byte - b'0');
    }
    Some(number)
}

fn begins_with_digit(text: &[u8]) -> bool
    ensures { IsTrue result ↔ BeginsWithDigit text.now }
{
    matches!(text, [b'0'..=b'9', ..])
}

/// The form that a token stands for.
fn word(alloc: Global, place: Place, text: &str) -> Result<Form, ReadError>
    ensures form { IfOk result (λ f. view f ≡ token_form place text.now) }
    ensures accepted { IfOk result (λ _. IsAcceptedPiece [] (token text.now)) }
    ensures refused { IfErr result (RefusesPiece place [] (token text.now)) }
{
    if !begins_with_digit(text.as_bytes()) {
        return Ok(Form::Symbol(place, Text::new(alloc, text)?));
    }
    match number_of(text.as_bytes()) {
        Some(number) => Ok(Form::Number(place, number)),
        None => Err(ReadError::Refused(Refusal {
            place,
            code: Code::BadNumber,
        })),
    }
}

impl Builder {
    pub(crate) fn new(alloc: Global) -> Builder
        ensures { building_of result ≡ nothing_yet }
    {
        Builder {
            lists: Vec::new(alloc),
            items: Vec::new(alloc),
        }
    }

    fn add(&mut self, form: Form) -> Result<(), ReadError>
        ensures ok { OnOk result (building_of self.new ≡ with_item (building_of self.old) (view form)) }
        ensures err { IfErr result (λ e. e ≡ Memory) }
    {
        self.items.push(form)?;
        Ok(())
    }

    fn open_list(&mut self, alloc: Global, place: Place) -> Result<(), ReadError>
        ensures ok { OnOk result (building_of self.new ≡ with_list_open place (building_of self.old)) }
        ensures accepted { OnOk result (IsAcceptedPiece (opened_by self.old) opening) }
        ensures refused { IfErr result (RefusesPiece place (opened_by self.old) opening) }
    {
        if self.lists.len() >= MAX_DEPTH {
            return Err(ReadError::Refused(Refusal {
                place,
                code: Code::TooDeep,
            }));
        }
        let before = mem::replace(&mut self.items, Vec::new(alloc));
        self.lists.push(OpenList { place, before })?;
        Ok(())
    }

    fn close_list(&mut self, place: Place) -> Result<(), ReadError>
        ensures ok { OnOk result (building_of self.new
            ≡ with_list_closed (building_of self.old).lists (building_of self.old).items) }
        ensures accepted { OnOk result (IsAcceptedPiece (opened_by self.old) closing) }
        ensures refused { IfErr result (RefusesPiece place (opened_by self.old) closing) }
    {
        let Some(
            OpenList {
                place: opened,
                before,
            },
        ) = self.lists.pop()
        else {
            return Err(ReadError::Refused(Refusal {
                place,
                code: Code::Unbalanced,
            }));
        };
        let items = mem::replace(&mut self.items, before);
        self.add(Form::List(opened, items))
    }

    /// Takes the next piece, which begins at this place. After an error the builder must not be used again.
    pub(crate) fn take(
        &mut self,
        alloc: Global,
        place: Place,
        piece: Piece<'_>,
    ) -> Result<(), ReadError>
        ensures ok { OnOk result (building_of self.new
            ≡ with_piece place (building_of self.old) (piece_of piece.entry)) }
        ensures accepted { OnOk result (IsAcceptedPiece (opened_by self.old) (piece_of piece.entry)) }
        ensures refused { IfErr result (RefusesPiece place (opened_by self.old) (piece_of piece.entry)) }
    {
        match piece {
            Piece::Blank(_) | Piece::Comment(_) => Ok(()),
            Piece::Opening => self.open_list(alloc, place),
            Piece::Closing => self.close_list(place),
            Piece::Quoted(text) => self.add(Form::String(place, Text::new(alloc, text)?)),
            Piece::Token(text) => self.add(word(alloc, place, text)?),
        }
    }

    /// At the end of the text: its forms. A list that is still open is refused.
    pub(crate) fn finish(self) -> Result<Vec<Form>, ReadError>
        ensures forms { IfOk result (λ v. views v.items ≡ (building_of self).items) }
        ensures closed { IfOk result (λ _. (building_of self).lists ≡ []) }
        ensures unclosed { IfErr result (RefusesEnd (building_of self).lists) }
    {
        let Builder { mut lists, items } = self;
        match lists.pop() {
            None => Ok(items),
            Some(list) => Err(ReadError::Refused(Refusal {
                place: list.place,
                code: Code::Unclosed,
            })),
        }
    }
}
