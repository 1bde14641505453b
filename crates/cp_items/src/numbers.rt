// Numbers in a list.
ghost use Rattle.std.specs.Prelude.{◌≡◌, map};
ghost use Rattle.cp_sexpr.specs.View.{view};
ghost use Rattle.cp_report.specs.Labels.{stated_number, number_in_front, number_stated};

use cp_sexpr::Form;
use cp_stated::number_of;

/// The number that a form is, if it is one.
pub fn stated_number(form: &Form) -> Option<usize>
    ensures { result ≡ stated_number (view form.now) }
{
    match form {
        Form::Number(_, number) => Some(*number),
        _ => None,
    }
}

/// The number that comes first, if one does.
pub fn number_in_front(items: &[Form]) -> Option<usize>
    ensures { result ≡ number_in_front (map view items.now) }
{
    match items {
        [] => None,
        [item, ..] => stated_number(item),
    }
}

/// The number that comes first; 0 if none does.
pub fn number_stated(items: &[Form]) -> usize
    ensures { result ≡ number_stated (map view items.now) }
{
    match items {
        [] => 0,
        [item, ..] => number_of(item),
    }
}
