// From a text to its forms.
ghost use Rattle.std.specs.Prelude.{◌≤◌, length, Ok, IfOk, IfErr};
ghost use Rattle.cp_sexpr.specs.Reading.{IsReading, IsErrorOf};
ghost use Rattle.cp_sexpr.specs.View.{views};

use crate::builder::Builder;
use crate::error::ReadError;
use crate::form::Form;
use crate::piece::{next_piece, place_after};
use cp_base::Place;
use std::alloc::Global;

/// The greatest length of a text that is read, in bytes.
pub const MAX_LENGTH: usize = 1_048_576;

/// Reads the forms of a text. Their places count lines, and bytes within a line, from 1.
///
/// A text with a fault is refused for its first fault from the left: a byte that may not stand there (`BadByte`), a
/// string that its line leaves open (`OpenString`), a closing parenthesis too many (`Unbalanced`) or too few
/// (`Unclosed`), a list inside 200 others (`TooDeep`), or a token that begins with a digit and is not one to nine
/// digits (`BadNumber`). The other error is `Memory`.
pub fn read(alloc: Global, bytes: &[u8]) -> Result<Vec<Form>, ReadError>
    requires { length bytes.now ≤ MAX_LENGTH }
    ensures forms { IfOk result (λ v. IsReading bytes.now (Ok (views v.items))) }
    ensures refused { IfErr result (IsErrorOf bytes.now) }
{
    let mut builder = Builder::new(alloc);
    let mut place = Place { line: 1, col: 1 };
    let mut rest = bytes;
    while let Some((piece, after)) = next_piece(place, rest)? {
        builder.take(alloc, place, piece)?;
        let (spelled, _) = rest.split_at(rest.len() - after.len());
        place = place_after(place, spelled);
        rest = after;
    }
    builder.finish()
}
