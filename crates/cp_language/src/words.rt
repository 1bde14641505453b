// What the words of the input language name.
use cp_model::Sort;

/// What a word in the place of a sort names.
#[derive(Clone, Copy)]
pub enum SortWord {
    /// An atom sort.
    Atoms(Sort),
    Messages,
    OutOfProfile,
    Unknown,
}

/// What the head of a list in a term names.
#[derive(Clone, Copy)]
pub enum TermHead {
    Cat,
    Enc,
    Ltk,
    Pubk,
    Privk,
    Invk,
    OutOfProfile,
    Unknown,
}

/// What the head of an event names.
#[derive(Clone, Copy)]
pub enum EventHead {
    Send,
    Recv,
    OutOfProfile,
    Unknown,
}

/// What the head of an item of a protocol, a role or a problem names.
#[derive(Clone, Copy)]
pub enum ItemHead {
    Role,
    Non,
    PenetratorNon,
    Unique,
    Strand,
    Listener,
    Precedes,
    Comment,
    OutOfProfile,
    Unknown,
}

/// What the head of a top form names.
#[derive(Clone, Copy)]
pub enum TopHead {
    Protocol,
    Problem,
    Free,
    OutOfProfile,
    Unknown,
}
