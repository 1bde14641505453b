// Keys of messages.
ghost use Rattle.std.specs.Prelude.{◌≡◌, false, IfOk};
ghost use Rattle.std.specs.Option.{option_map};
ghost use Rattle.cp_model.specs.Message.{skey, ltk, akey, pubk, symmetric, asymmetric, inverse};

use cp_base::{Text, copy_if_any};
use std::alloc::{AllocError, Global};
use std::marker::Model;

/// A key: a symmetric one, which is its own inverse, or one of a pair of keys that are each other's inverses. Contracts see it as
/// plain data.
#[derive(Drop)]
pub struct Key {
    pub(crate) kind: KeyKind,
}

/// How a key is made. The flag tells whether it is the inverse; the inverse of a name's public key is the private one.
#[derive(Drop)]
pub(crate) enum KeyKind {
    Skey(usize),
    Ltk(usize, usize),
    Akey(bool, usize),
    Pubk(bool, Option<Text>, usize),
}

impl Model for Key {
    ghost use Rattle.cp_model.specs.Message.{Key as Plain};

    ghost Value = { Plain };

    ghost use Rattle.cp_model.specs.MessageCode.{coded_key};

    ghost coded = { coded_key };

    ghost use Rattle.cp_model.specs.KeyView.{key_of_kind};

    ghost view = { λ k. key_of_kind k.kind };
}

impl Key {
    /// The symmetric key with this number.
    pub fn skey(number: usize) -> Key
        ensures { result ≡ symmetric (skey number) }
    {
        Key {
            kind: KeyKind::Skey(number),
        }
    }

    /// The long-term key of the two names with these numbers.
    pub fn ltk(first: usize, second: usize) -> Key
        ensures { result ≡ symmetric (ltk first second) }
    {
        Key {
            kind: KeyKind::Ltk(first, second),
        }
    }

    /// The asymmetric key with this number.
    pub fn akey(number: usize) -> Key
        ensures { result ≡ asymmetric false (akey number) }
    {
        Key {
            kind: KeyKind::Akey(false, number),
        }
    }

    /// The public key of the name with this number, for a purpose or for none.
    pub fn pubk(alloc: Global, purpose: Option<&str>, name: usize) -> Result<Key, AllocError>
        ensures { IfOk result (λ k. k ≡ asymmetric false (pubk (option_map (λ s. s.now) purpose.entry) name)) }
    {
        match purpose {
            None => Ok(Key {
                kind: KeyKind::Pubk(false, None, name),
            }),
            Some(text) => Text::new(alloc, text).map(|text| Key {
                kind: KeyKind::Pubk(false, Some(text), name),
            }),
        }
    }

    /// The inverse: the other key of an asymmetric pair; a symmetric key is its own inverse.
    pub fn inverse(&self) -> Result<Key, AllocError>
        ensures { IfOk result (λ k. k ≡ inverse self.now) }
    {
        let kind = match &self.kind {
            KeyKind::Skey(number) => KeyKind::Skey(*number),
            KeyKind::Ltk(first, second) => KeyKind::Ltk(*first, *second),
            KeyKind::Akey(flag, number) => KeyKind::Akey(!*flag, *number),
            KeyKind::Pubk(flag, purpose, name) => {
                KeyKind::Pubk(!*flag, copy_if_any(purpose)?, *name)
            }
        };
        Ok(Key { kind })
    }

    /// A copy of the key.
    pub fn copy(&self) -> Result<Key, AllocError>
        ensures { IfOk result (λ k. k ≡ self.now) }
    {
        let kind = match &self.kind {
            KeyKind::Skey(number) => KeyKind::Skey(*number),
            KeyKind::Ltk(first, second) => KeyKind::Ltk(*first, *second),
            KeyKind::Akey(flag, number) => KeyKind::Akey(*flag, *number),
            KeyKind::Pubk(flag, purpose, name) => KeyKind::Pubk(
                *flag,
                copy_if_any(purpose)?,
                *name,
            ),
        };
        Ok(Key { kind })
    }
}
