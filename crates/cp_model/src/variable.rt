// Variables of terms, and how they are declared.
ghost use Rattle.std.specs.Prelude.{◌≡◌};
ghost use Rattle.cp_model.specs.Same.{has_variable};

use crate::sort::Sort;
use cp_base::Text;

/// A variable: its sort, and its number. Variables of different sorts may have one number.
#[derive(Clone, Copy, Debug, PartialEq, Eq)]
pub struct Variable {
    pub sort: Sort,
    pub number: usize,
}

/// Whether the variable is one of these.
pub fn has_variable(variables: &[Variable], variable: Variable) -> bool
    ensures { result ≡ has_variable variables.now variable }
{
    variables.contains(&variable)
}

/// A declared variable, of an atom sort. Its number is its place in the list of declarations, from 0.
#[derive(Drop)]
pub struct Declaration {
    pub identifier: Text,
    pub sort: Sort,
}
