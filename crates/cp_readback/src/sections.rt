// The forms of the input in a report, and the forms after each.
ghost use Rattle.std.specs.Prelude.{◌≡◌, map, IfOk};
ghost use Rattle.cp_sexpr.specs.View.{view};
ghost use Rattle.cp_report.specs.ReadBack.{sections_of};
ghost use Rattle.cp_readback.specs.Sections.{sections_view};

use crate::count_in_front;
use cp_items::is_of_tree;
use cp_sexpr::Form;
use std::alloc::{AllocError, Global};

/// A form of the input with the label forms and status forms directly after it.
#[derive(Clone, Copy)]
pub(crate) struct Section<'a> {
    pub(crate) form: &'a Form,
    pub(crate) behind: &'a [Form],
}

/// The label forms and status forms before all forms of the input, and then these.
#[derive(Drop)]
pub(crate) struct Sections<'a> {
    pub(crate) front: &'a [Form],
    pub(crate) sections: Vec<Section<'a>>,
}

/// The label forms and status forms before all forms of the input.
fn tree_in_front(forms: &[Form]) -> &[Form]
    ensures { map view result.now ≡ (sections_of (map view forms.now)).front }
{
    let (front, _) = forms.split_at(count_in_front(forms, &["label", "status"]));
    front
}

/// The forms of a report, split by those of the input.
pub(crate) fn sections_of(alloc: Global, forms: &[Form]) -> Result<Sections<'_>, AllocError>
    ensures { IfOk result (λ s. sections_view s ≡ sections_of (map view forms.now)) }
{
    let front = tree_in_front(forms);
    let mut sections = Vec::new(alloc);
    for (place, form) in forms.iter().enumerate() {
        if is_of_tree(form) {
            continue;
        }
        let (_, following) = forms.split_at(place + 1);
        let behind = tree_in_front(following);
        sections.push(Section { form, behind })?;
    }
    Ok(Sections { front, sections })
}
