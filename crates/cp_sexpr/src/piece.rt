// The pieces of a text.
ghost use Rattle.std.specs.Prelude.{◌≡◌, ◌+◌, ◌<◌, ◌≤◌, ◌^◌, ℕ, [], ◌∷◌, List, length, IsTrue, ◌↔◌, IfOk, IfErr, MatchOption, IsAscii};
ghost use Rattle.cp_base.specs.declared.place.Place.{Place as PlaceData};
ghost use Rattle.cp_sexpr.specs.Pieces.{BeginsWith, place_after, quote};
ghost use Rattle.cp_sexpr.specs.Reading.{IsRefused};
ghost use Rattle.cp_sexpr.specs.CutPieces.{IsOfKind, IsLongestPrefix, piece_of};

use cp_base::{Code, Place, Refusal};
use std::str;

/// A piece of a text, with what it holds.
#[derive(Clone, Copy)]
pub(crate) enum Piece<'a> {
    Blank(u8),
    Comment(&'a [u8]),
    Opening,
    Closing,
    Quoted(&'a str),
    Token(&'a str),
}

/// The kinds of bytes that make a token, a string and a comment.
#[derive(Clone, Copy)]
enum Kind {
    Token,
    String,
    Comment,
}

fn is_of_kind(kind: Kind, b: u8) -> bool
    ensures { IsTrue result ↔ IsOfKind kind b }
{
    match kind {
        Kind::Token => matches!(b, 33..=126) && !matches!(b, b'(' | b')' | b'"' | b';'),
        Kind::String => matches!(b, 32..=126) && b != b'"' && b != b'\\',
        Kind::Comment => b != b'\n',
    }
}

/// How many bytes of this kind the bytes begin with.
fn run_length(kind: Kind, bytes: &[u8]) -> usize
    ensures { IsLongestPrefix (IsOfKind kind) bytes.now result }
{
    bytes
        .iter()
        .position(|b| !is_of_kind(kind, *b))
        .unwrap_or(bytes.len())
}

/// The bytes of a token or of a string as a text.
fn text_of(bytes: &[u8]) -> &str
    requires { IsAscii bytes.now }
    ensures { result.now ≡ bytes.now }
{
    str::from_utf8(bytes).unwrap()
}

/// The place after the bytes, if they begin at this place.
pub(crate) fn place_after(place: Place, bytes: &[u8]) -> Place
    requires lines { place.line + length bytes.now < 2 ^ 32 }
    requires columns { place.col + length bytes.now < 2 ^ 32 }
    ensures { result ≡ place_after place bytes.now }
{
    let mut at = place;
    for byte in bytes {
        at = if *byte == b'\n' {
            Place {
                line: at.line + 1,
                col: 1,
            }
        } else {
            Place {
                line: at.line,
                col: at.col + 1,
            }
        };
    }
    at
}

/// The string that the bytes begin with, from its opening quote on, and the bytes after it.
fn string_piece(place: Place, bytes: &[u8]) -> Result<(Piece<'_>, &[u8]), Refusal>
    requires lines { place.line + length bytes.now < 2 ^ 32 }
    requires columns { place.col + length bytes.now < 2 ^ 32 }
    requires begins { (inside : List ℕ) × (bytes.now ≡ quote ∷ inside) }
    ensures piece { IfOk result (λ x. BeginsWith bytes.now (piece_of x.0) x.1.now) }
    ensures refused { IfErr result (λ r. (opened : List PlaceData) → IsRefused place opened bytes.now r) }
{
    let (_, inside) = bytes.split_at(1);
    let length = run_length(Kind::String, inside);
    let (text, rest) = inside.split_at(length);
    let Some((byte, rest)) = rest.split_first() else {
        return Err(Refusal {
            place,
            code: Code::OpenString,
        });
    };
    match *byte {
        b'"' => Ok((Piece::Quoted(text_of(text)), rest)),
        b'\n' => Err(Refusal {
            place,
            code: Code::OpenString,
        }),
        _ => {
            let (before, _) = bytes.split_at(1 + length);
            Err(Refusal {
                place: place_after(place, before),
                code: Code::BadByte,
            })
        }
    }
}

/// The piece that the bytes begin with, and the bytes after it; `None` at the end of the text.
pub(crate) fn next_piece(place: Place, bytes: &[u8]) -> Result<Option<(Piece<'_>, &[u8])>, Refusal>
    requires lines { place.line + length bytes.now < 2 ^ 32 }
    requires columns { place.col + length bytes.now < 2 ^ 32 }
    ensures piece { IfOk result (λ found. MatchOption found (bytes.now ≡ [])
        (λ x. BeginsWith bytes.now (piece_of x.0) x.1.now)) }
    ensures refused { IfErr result (λ r. (opened : List PlaceData) → IsRefused place opened bytes.now r) }
{
    let Some((first, rest)) = bytes.split_first() else {
        return Ok(None);
    };
    match *first {
        b' ' | b'\t' | b'\n' | b'\r' => Ok(Some((Piece::Blank(*first), rest))),
        b';' => {
            let (text, rest) = rest.split_at(run_length(Kind::Comment, rest));
            Ok(Some((Piece::Comment(text), rest)))
        }
        b'(' => Ok(Some((Piece::Opening, rest))),
        b')' => Ok(Some((Piece::Closing, rest))),
        b'"' => Ok(Some(string_piece(place, bytes)?)),
        byte if is_of_kind(Kind::Token, byte) => {
            let (text, rest) = bytes.split_at(run_length(Kind::Token, bytes));
            Ok(Some((Piece::Token(text_of(text)), rest)))
        }
        _ => Err(Refusal {
            place,
            code: Code::BadByte,
        }),
    }
}
