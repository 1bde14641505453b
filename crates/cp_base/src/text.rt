// Texts: the contents of symbols, strings, tags, names and variables' roots.
ghost use Rattle.std.specs.Prelude.{◌≡◌, ◌↔◌, ℕ, List, IfOk, IsTrue};
ghost use Rattle.std.specs.String.{string_bytes};

use arrayvec::ArrayString;
use std::alloc::{AllocError, Global};
use std::marker::Model;

/// The storage of a text: at most 16 bytes in place, a longer one in memory of its own.
#[derive(Drop)]
enum Held {
    Short(ArrayString<16>),
    Long(String),
}

/// A text. Contracts see its bytes. A text of at most 16 bytes takes no memory of its own.
#[derive(Drop)]
pub struct Text {
    held: Held,
}

impl Model for Text {
    ghost use Rattle.std.specs.Prelude.{ℕ, List};
    ghost use Rattle.cp_base.specs.Held.{bytes_of};

    ghost Value = { List ℕ };

    ghost view = { λ t. bytes_of t.held };
}

impl Text {
    /// A text with these characters.
    pub fn new(alloc: Global, text: &str) -> Result<Text, AllocError>
        ensures { IfOk result (λ t. t ≡ text.now) }
    {
        let held = match ArrayString::from(text) {
            Ok(short) => Held::Short(short),
            Err(_) => Held::Long(String::from_str(alloc, text)?),
        };
        Ok(Text { held })
    }

    /// A copy of this text.
    pub fn copy(&self) -> Result<Text, AllocError>
        ensures { IfOk result (λ t. t ≡ self.now) }
    {
        let held = match &self.held {
            Held::Short(short) => Held::Short(*short),
            Held::Long(long) => Held::Long(long.clone()?),
        };
        Ok(Text { held })
    }

    /// The text as a string slice.
    pub fn as_str(&self) -> &str
        ensures { result.now ≡ self.now }
    {
        match &self.held {
            Held::Short(short) => short.as_str(),
            Held::Long(long) => long.as_str(),
        }
    }

    /// The bytes of the text.
    pub fn as_bytes(&self) -> &[u8]
        ensures { result.now ≡ self.now }
    {
        self.as_str().as_bytes()
    }

    /// Whether the two texts are equal.
    pub fn same(&self, other: &Text) -> bool
        ensures { IsTrue result ↔ (self.now ≡ other.now) }
    {
        self.as_str() == other.as_str()
    }
}

/// Whether both texts are absent, or both are present and equal.
pub fn same_if_any(one: &Option<Text>, other: &Option<Text>) -> bool
    ensures { IsTrue result ↔ (one.now ≡ other.now) }
{
    match (one, other) {
        (None, None) => true,
        (Some(a), Some(b)) => a.same(b),
        _ => false,
    }
}

/// A copy of the text, if there is one.
pub fn copy_if_any(text: &Option<Text>) -> Result<Option<Text>, AllocError>
    ensures { IfOk result (λ t. t ≡ text.now) }
{
    match text {
        None => Ok(None),
        Some(text) => {
            let text = text.copy()?;
            Ok(Some(text))
        }
    }
}
