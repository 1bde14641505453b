// Strands and events that operations name.
ghost use Rattle.std.specs.Prelude.{◌≡◌, map};
ghost use Rattle.cp_sexpr.specs.View.{view};
ghost use Rattle.cp_report.specs.Labels.{index_misfits, operation_place_misfits};
ghost use Rattle.cp_spelled.specs.FirstMisfit.{first_onto};
ghost use Rattle.cp_items.specs.Parts.{node_place_misfits, strand_place_misfits};

use cp_report::OperationWord;
use cp_scope::place_of;
use cp_sexpr::Form;
use cp_skel::{Node, Strand};
use cp_spelled::FirstMisfit;
use cp_stated::{is_there, number_of, strand_number_misfits};

/// The form must be the index of an event on this strand.
fn index_misfits(strands: &[Strand], strand: usize, form: &Form, first: &mut FirstMisfit)
    ensures { first.new ≡ first_onto first.old (index_misfits strands.now strand (view form.now)) }
{
    let Form::Number(place, index) = form else {
        first.note(place_of(form));
        return;
    };
    let index = *index;
    first.note_unless(is_there(strands, Node { strand, index }), *place);
}

/// The strand and the event that come first must exist.
fn node_place_misfits(strands: &[Strand], items: &[Form], first: &mut FirstMisfit)
    ensures { first.new ≡ first_onto first.old (node_place_misfits strands.now (map view items.now)) }
{
    let Some((strand, rest)) = items.split_first() else {
        return;
    };
    let Some((index, _)) = rest.split_first() else {
        return;
    };
    strand_number_misfits(strands, strand, first);
    index_misfits(strands, number_of(strand), index, first);
}

/// The strand that comes first must exist.
fn strand_place_misfits(strands: &[Strand], items: &[Form], first: &mut FirstMisfit)
    ensures { first.new ≡ first_onto first.old (strand_place_misfits strands.now (map view items.now)) }
{
    let Some((strand, _)) = items.split_first() else {
        return;
    };
    strand_number_misfits(strands, strand, first);
}

/// The strand and the event that an operation names must exist.
pub fn operation_place_misfits(
    strands: &[Strand],
    word: OperationWord,
    items: &[Form],
    first: &mut FirstMisfit,
)
    ensures { first.new ≡ first_onto first.old (operation_place_misfits strands.now word (map view items.now)) }
{
    match word {
        OperationWord::Contracted | OperationWord::Displaced => {
            node_place_misfits(strands, items, first);
        }
        OperationWord::AddedStrand | OperationWord::AddedListener => {
            strand_place_misfits(strands, items, first);
        }
        OperationWord::Problem
        | OperationWord::Collapsed
        | OperationWord::Generalised
        | OperationWord::Unknown => {}
    }
}
