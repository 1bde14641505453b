// Sorts of variables.

/// The sort of a variable: one of the five sorts of atoms.
#[derive(Clone, Copy, Debug, PartialEq, Eq)]
pub enum Sort {
    Text,
    Datum,
    Name,
    /// Symmetric keys.
    Skey,
    /// Asymmetric keys.
    Akey,
}
