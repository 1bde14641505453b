// Places in a text, the codes of refusals, and refusals.
ghost use Rattle.std.specs.Prelude.{◌≡◌};
ghost use Rattle.cp_base.specs.Codes.{code_text};

/// A place in a text: a line and a column, both from 1, the column in bytes. Only a line feed ends a line.
#[derive(Clone, Copy, Debug, PartialEq, Eq)]
pub struct Place {
    pub line: u32,
    pub col: u32,
}

/// Why a text is refused.
#[derive(Clone, Copy, Debug, PartialEq, Eq)]
pub enum Code {
    /// A byte that is not allowed at its place.
    BadByte,
    /// A string without a closing quote.
    OpenString,
    /// A closing parenthesis while no list is open.
    Unbalanced,
    /// A list nested too deeply.
    TooDeep,
    /// A token that begins with a digit but is not a number.
    BadNumber,
    /// A list that is not closed.
    Unclosed,
    /// A list whose head names no form that is allowed there.
    UnknownForm,
    /// A part of the language that this program does not analyse.
    OutOfProfile,
    /// An item of the wrong shape, or a list that lacks an item.
    BadShape,
    /// The name of a protocol, given for the second time.
    DuplicateProtocol,
    /// The name of a role, given for the second time in one protocol.
    DuplicateRole,
    /// A name that no protocol has.
    UnknownProtocol,
    /// A name that no role has.
    UnknownRole,
    /// A symbol that names no sort.
    UnknownSort,
    /// A variable declared of the sort of all messages.
    MesgVar,
    /// An identifier declared for the second time, or mapped for the second time in one instance.
    DuplicateVar,
    /// A height of 0, or greater than the number of the role's events.
    BadHeight,
    /// An identifier that is not declared.
    UnknownVar,
    /// A mapped variable that does not occur in the instance's events.
    NotInPrefix,
    /// A term of the wrong sort.
    IllSorted,
    /// An encryption key whose sort is not that of a key.
    KeySort,
    /// An item of an assumption that is not an atom.
    NotAtom,
    /// An atom that a role assumes uniquely originating, but that originates nowhere in the role.
    RoleUniqNoOrigin,
    /// An atom that a problem assumes uniquely originating, but that originates on none of its strands.
    UniqNowhere,
    /// A node that does not exist, or that has the wrong direction for its side of a pair.
    BadNode,
    /// A pair that closes a cycle in the order.
    CyclicOrder,
}

impl Code {
    /// The name of the code as it is printed, e.g. `BadByte`.
    pub fn name(self) -> &'static str
        ensures { result.now ≡ code_text self }
    {
        match self {
            Code::BadByte => "BadByte",
            Code::OpenString => "OpenString",
            Code::Unbalanced => "Unbalanced",
            Code::TooDeep => "TooDeep",
            Code::BadNumber => "BadNumber",
            Code::Unclosed => "Unclosed",
            Code::UnknownForm => "UnknownForm",
            Code::OutOfProfile => "OutOfProfile",
            Code::BadShape => "BadShape",
            Code::DuplicateProtocol => "DuplicateProtocol",
            Code::DuplicateRole => "DuplicateRole",
            Code::UnknownProtocol => "UnknownProtocol",
            Code::UnknownRole => "UnknownRole",
            Code::UnknownSort => "UnknownSort",
            Code::MesgVar => "MesgVar",
            Code::DuplicateVar => "DuplicateVar",
            Code::BadHeight => "BadHeight",
            Code::UnknownVar => "UnknownVar",
            Code::NotInPrefix => "NotInPrefix",
            Code::IllSorted => "IllSorted",
            Code::KeySort => "KeySort",
            Code::NotAtom => "NotAtom",
            Code::RoleUniqNoOrigin => "RoleUniqNoOrigin",
            Code::UniqNowhere => "UniqNowhere",
            Code::BadNode => "BadNode",
            Code::CyclicOrder => "CyclicOrder",
        }
    }
}

/// The refusal of a text: its place and its code.
#[derive(Clone, Copy, Debug, PartialEq, Eq)]
pub struct Refusal {
    pub place: Place,
    pub code: Code,
}
