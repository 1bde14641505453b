// The protocol and its problems, one top form after another.
ghost use Rattle.std.specs.Prelude.{◌≡◌, ◌++◌, ◌∷◌, [], length, IfOk, OnOk};
ghost use Rattle.cp_generate.specs.Generated.{problem_text, generated_parts, generated_text, part_ends};

use std::alloc::{AllocError, Global};

/// The protocol.
const PROTOCOL: &[u8] = b"(defprotocol ns basic\
    \n  (defrole init (vars (a b name) (n1 n2 text)) (trace (send (enc n1 a (pubk b))) (recv (enc n1 n2 (pubk a))) (send (enc n2 (pubk b)))))\
    \n  (defrole resp (vars (a b name) (n1 n2 text)) (trace (recv (enc n1 a (pubk b))) (send (enc n1 n2 (pubk a))) (recv (enc n2 (pubk b))))))\
    \n";

/// The problem of an initiator that runs to its end.
const INITIATOR: &[u8] = b"(defskeleton ns\
    \n  (vars (a b name) (n1 n2 text))\
    \n  (defstrand init 3 (a a) (b b) (n1 n1) (n2 n2))\
    \n  (non-orig (privk a) (privk b))\
    \n  (uniq-orig n1))\
    \n";

/// The problem of a responder that runs to its end.
const RESPONDER: &[u8] = b"(defskeleton ns\
    \n  (vars (a b name) (n1 n2 text))\
    \n  (defstrand resp 3 (a a) (b b) (n1 n1) (n2 n2))\
    \n  (non-orig (privk a))\
    \n  (uniq-orig n2))\
    \n";

/// The problem with this number: the initiator's if it is even, otherwise the responder's.
fn problem(number: u32) -> &'static [u8]
    ensures { result.now ≡ problem_text number }
{
    if number % 2 == 0 {
        INITIATOR
    } else {
        RESPONDER
    }
}

/// Appends a top form, and where it ends.
fn put(form: &[u8], text: &mut Vec<u8>, ends: &mut Vec<usize>) -> Result<(), AllocError>
    ensures text { OnOk result (text.new.items ≡ text.old.items ++ form.now) }
    ensures ends { OnOk result (ends.new.items ≡ ends.old.items ++ length text.new.items ∷ []) }
{
    text.extend_from_slice(form)?;
    ends.push(text.len()).map_err(AllocError::from)
}

/// The text of the protocol and `n` problems in normal spelling. Of the problems, numbered from 0, those with even numbers are
/// about an initiator, the others about a responder.
pub fn generate(alloc: Global, n: u32) -> Result<Vec<u8>, AllocError>
    ensures { IfOk result (λ text. text.items ≡ generated_text n) }
{
    let mut text = Vec::new(alloc);
    let mut ends = Vec::new(alloc);
    generate_pieces(alloc, n, &mut text, &mut ends).map(|()| text)
}

/// Appends the same text, and appends to `ends`, for each of its top forms, the place in `text`, in bytes, at which it ends.
pub fn generate_pieces(
    alloc: Global,
    n: u32,
    text: &mut Vec<u8>,
    ends: &mut Vec<usize>,
) -> Result<(), AllocError>
    ensures text { OnOk result (text.new.items ≡ text.old.items ++ generated_text n) }
    ensures ends { OnOk result (ends.new.items ≡ ends.old.items ++ part_ends (length text.old.items) (generated_parts n)) }
{
    put(PROTOCOL, text, ends)?;
    for number in 0..n {
        put(problem(number), text, ends)?;
    }
    Ok(())
}
