// Operations: where they do not fit, and which they are.
ghost use Rattle.std.specs.Prelude.{◌≡◌, nat_le, ◌&&◌, [], map, IfOk};
ghost use Rattle.cp_lists.specs.Lists.{item_at};
ghost use Rattle.cp_sexpr.specs.View.{view};
ghost use Rattle.cp_language.specs.Problems.{number_of, name_in_front};
ghost use Rattle.cp_report.specs.Misfits.{entries_misfits, symbol_misfits};
ghost use Rattle.cp_report.specs.Labels.{operation_word, is_operation, makes_root, is_number, block_misfits, node_stated, operation_by};
ghost use Rattle.cp_spelled.specs.FirstMisfit.{first_onto};
ghost use Rattle.cp_items.specs.Parts.{blocks_of, kinds_behind, operation_item_misfits, is_fitting};

use crate::heads::name_in_front;
use crate::numbers::number_stated;
use cp_base::Place;
use cp_report::OperationWord;
use cp_scope::{by_word, item_at, later_items, place_of, symbol_or_empty};
use cp_sexpr::Form;
use cp_skel::{Node, Numbers, Operation};
use cp_spelled::{FirstMisfit, no_more, one_number_misfits};
use cp_stated::{number_of, numbers_of, two_numbers_misfits};
use std::alloc::{AllocError, Global};

/// What a word names.
pub(crate) fn operation_word(word: &[u8]) -> OperationWord
    ensures { result ≡ operation_word word.now }
{
    by_word!(word;
        b"problem" => OperationWord::Problem, b"collapsed" => OperationWord::Collapsed,
        b"contracted" => OperationWord::Contracted, b"displaced" => OperationWord::Displaced,
        b"added-strand" => OperationWord::AddedStrand, b"added-listener" => OperationWord::AddedListener,
        b"generalised" => OperationWord::Generalised,
        _ => OperationWord::Unknown)
}

/// What the first word among the entries names.
pub fn word_in_front(items: &[Form]) -> OperationWord
    ensures { result ≡ operation_word (name_in_front (map view items.now)) }
{
    operation_word(name_in_front(items))
}

/// Whether a word names an operation.
pub fn is_operation(word: OperationWord) -> bool
    ensures { result ≡ is_operation word }
{
    !matches!(word, OperationWord::Unknown)
}

/// Whether an operation makes roots.
pub fn makes_root(word: OperationWord) -> bool
    ensures { result ≡ makes_root word }
{
    matches!(word, OperationWord::Problem | OperationWord::Collapsed)
}

/// Whether a number is at most the place of its entry, and is a strand that stands for itself.
fn is_block(items: &[Form], place: usize, number: usize) -> bool
    ensures { result ≡ (nat_le number place && is_number number (item_at (map number_of (map view items.now)) number)) }
{
    if number > place {
        return false;
    }
    match item_at(items, number) {
        Some(item) => number_of(item) == number,
        None => false,
    }
}

/// The entry of a partition at this place must be at most its place, and a strand that stands for itself.
fn block_misfits(items: &[Form], place: usize, form: &Form, first: &mut FirstMisfit)
    ensures { first.new ≡ first_onto first.old (block_misfits (map number_of (map view items.now)) place (view form.now)) }
{
    match form {
        Form::Number(at, number) => first.note_unless(is_block(items, place, *number), *at),
        _ => first.note(place_of(form)),
    }
}

/// The items of the list at this place must be the entries of a partition of so many strands.
fn partition_misfits(strands: usize, place: Place, items: &[Form], first: &mut FirstMisfit)
    ensures { first.new ≡ first_onto first.old (entries_misfits (blocks_of (map number_of (map view items.now)) 0 strands) place (map view items.now)) }
{
    for number in 0..strands {
        let Some(item) = item_at(items, number) else {
            first.note(place);
            return;
        };
        block_misfits(items, number, item, first);
    }
    no_more(later_items(items, strands), first);
}

/// What belongs to the word must follow it, if the problem has so many strands.
fn behind_word_misfits(
    strands: usize,
    word: OperationWord,
    place: Place,
    items: &[Form],
    first: &mut FirstMisfit,
)
    ensures { first.new ≡ first_onto first.old (entries_misfits (kinds_behind strands word (map view items.now)) place (map view items.now)) }
{
    match word {
        OperationWord::Collapsed => partition_misfits(strands, place, items, first),
        OperationWord::Contracted | OperationWord::Displaced => {
            two_numbers_misfits(place, items, first);
        }
        OperationWord::AddedStrand | OperationWord::AddedListener => {
            one_number_misfits(place, items, first);
        }
        OperationWord::Problem | OperationWord::Generalised | OperationWord::Unknown => {
            no_more(items, first);
        }
    }
}

/// Whether a form is a word that names an operation.
fn names_operation(form: &Form) -> bool
    ensures { result ≡ is_fitting (symbol_misfits (λ t. is_operation (operation_word t)) (view form.now)) }
{
    match form {
        Form::Symbol(_, word) => is_operation(operation_word(word.as_bytes())),
        _ => false,
    }
}

/// The items of the list at this place must be a word that names an operation, followed by what belongs to it, if the
/// problem has so many strands.
pub fn operation_misfits(strands: usize, place: Place, items: &[Form], first: &mut FirstMisfit)
    ensures { first.new ≡ first_onto first.old (operation_item_misfits strands place (map view items.now)) }
{
    let Some((word, rest)) = items.split_first() else {
        first.note(place);
        return;
    };
    if names_operation(word) {
        let named = operation_word(symbol_or_empty(word));
        behind_word_misfits(strands, named, place, rest, first);
    } else {
        first.note(place_of(word));
    }
}

/// The node given by the first two numbers; the first node if there are not two forms.
fn node_stated(items: &[Form]) -> Node
    ensures { result ≡ node_stated (map view items.now) }
{
    match items {
        [strand, index, ..] => Node {
            strand: number_of(strand),
            index: number_of(index),
        },
        _ => Node {
            strand: 0,
            index: 0,
        },
    }
}

/// The operation named by a word and what follows it.
pub fn operation_by(
    alloc: Global,
    word: OperationWord,
    items: &[Form],
) -> Result<Operation, AllocError>
    ensures { IfOk result (λ o. o ≡ operation_by word (map view items.now)) }
{
    match word {
        OperationWord::Problem | OperationWord::Unknown => Ok(Operation::Problem),
        OperationWord::Collapsed => {
            numbers_of(alloc, items).map(|numbers| Operation::Collapsed(Numbers::of(numbers)))
        }
        OperationWord::Contracted => Ok(Operation::Contracted(node_stated(items))),
        OperationWord::Displaced => Ok(Operation::Displaced(node_stated(items))),
        OperationWord::AddedStrand => Ok(Operation::AddedStrand(number_stated(items))),
        OperationWord::AddedListener => Ok(Operation::AddedListener(number_stated(items))),
        OperationWord::Generalised => Ok(Operation::Generalised),
    }
}
