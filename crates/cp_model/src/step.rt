// The steps of paths to the parts of a message or of a term.

/// One step of a path: to a part of a pair, or to the plaintext of an encryption.
#[derive(Clone, Copy, Debug, Default, PartialEq, Eq)]
pub enum Step {
    #[default]
    Left,
    Right,
    Plaintext,
}
