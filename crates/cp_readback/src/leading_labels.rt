// The forms with certain heads before other forms.
ghost use Rattle.std.specs.Prelude.{◌≡◌, map};
ghost use Rattle.cp_sexpr.specs.View.{view};
ghost use Rattle.cp_report.specs.Heads.{has_head};
ghost use Rattle.cp_report.specs.ReadBack.{labels_in_front, behind_labels};
ghost use Rattle.cp_readback.specs.InFront.{leading};

use cp_items::has_one_of;
use cp_sexpr::Form;

/// How many of the first forms are lists with one of these heads.
pub fn count_in_front(forms: &[Form], heads: &[&str]) -> usize
    ensures { result ≡ leading (has_head (map (λ w. w.now) heads.now)) (map view forms.now) }
{
    for (place, form) in forms.iter().enumerate() {
        if !has_one_of(form, heads) {
            return place;
        }
    }
    forms.len()
}

/// The label forms that come first, and the forms after them.
pub(crate) fn split_at_labels(forms: &[Form]) -> (&[Form], &[Form])
    ensures labels { map view result.0.now ≡ labels_in_front (map view forms.now) }
    ensures behind { map view result.1.now ≡ behind_labels (map view forms.now) }
{
    forms.split_at(count_in_front(forms, &["label"]))
}
