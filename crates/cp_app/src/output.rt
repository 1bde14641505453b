// Puts whole texts on a sink that may take less than it is given.
ghost use Rattle.std.specs.Prelude.{◌≡◌, ◌≤◌, ℕ, List, map, Some, OnErr};
ghost use Rattle.std.specs.List.{concat};
ghost use Rattle.cp_base.specs.declared.status.Status.TheVariants.{Refused};
ghost use Rattle.cp_base.specs.Outside.{Rose};
ghost use Rattle.cp_app.specs.Answered.{SaysWhole};
ghost use Rattle.cp_app.specs.Endings.{HasLine, status_line};
ghost use Rattle.cp_app.specs.Steps.{HasPut};

use cp_base::{Failed, Refusal, Sink, Status};
use itoa::Buffer;

// Puts the whole piece. If the sink takes only a prefix, this goes on with the rest.
pub(crate) fn put_all<O: Sink>(out: &mut O, piece: &[u8]) -> Result<(), Failed>
    ensures put { (before : List ℕ) → O.held out.old ≡ Some before
        → HasPut before piece.now (O.held out.new) result }
    ensures failed { OnErr result (Rose (O.faults out.old) (O.faults out.new)) }
    ensures never_falls { O.faults out.old ≤ O.faults out.new }
    ensures needed { O.needless out.new ≡ O.needless out.old }
{
    let mut rest = piece;
    while !rest.is_empty() {
        let count = out.put(rest)?;
        let (_, after) = rest.split_at(count);
        rest = after;
    }
    Ok(())
}

// Puts the whole text, cut into pieces that end at these byte offsets.
pub(crate) fn put_pieces<O: Sink>(out: &mut O, text: &[u8], ends: &[usize]) -> Result<(), Failed>
    ensures put { (before : List ℕ) → O.held out.old ≡ Some before
        → HasPut before text.now (O.held out.new) result }
    ensures failed { OnErr result (Rose (O.faults out.old) (O.faults out.new)) }
    ensures never_falls { O.faults out.old ≤ O.faults out.new }
    ensures needed { O.needless out.new ≡ O.needless out.old }
{
    let mut rest = text;
    for end in ends {
        let at = text.len() - rest.len();
        let (piece, after) = rest.split_at(end.saturating_sub(at).min(rest.len()));
        put_all(out, piece)?;
        rest = after;
    }
    put_all(out, rest)
}

// Puts these pieces in order.
fn put_each<O: Sink>(out: &mut O, pieces: &[&[u8]]) -> Result<(), Failed>
    ensures put { (before : List ℕ) → O.held out.old ≡ Some before
        → HasPut before (concat (map (λ piece. piece.now) pieces.now)) (O.held out.new) result }
    ensures failed { OnErr result (Rose (O.faults out.old) (O.faults out.new)) }
    ensures needed { O.needless out.new ≡ O.needless out.old }
{
    for piece in pieces {
        put_all(out, piece)?;
    }
    Ok(())
}

// Puts the line for a refusal.
fn put_refusal<O: Sink>(out: &mut O, refusal: Refusal) -> Result<(), Failed>
    ensures put { (before : List ℕ) → O.held out.old ≡ Some before
        → HasPut before (status_line (Refused refusal)) (O.held out.new) result }
    ensures failed { OnErr result (Rose (O.faults out.old) (O.faults out.new)) }
    ensures needed { O.needless out.new ≡ O.needless out.old }
{
    let mut line_digits = Buffer::new();
    let mut col_digits = Buffer::new();
    let line = line_digits.format(refusal.place.line).as_bytes();
    let col = col_digits.format(refusal.place.col).as_bytes();
    let code = refusal.code.name().as_bytes();
    put_each(out, &[b"refused ", line, b":", col, b" ", code, b"\n"])
}

// Puts the line for a status; `Done` and `Limit` have none.
fn put_status<O: Sink>(out: &mut O, status: Status) -> Result<(), Failed>
    ensures put { (before : List ℕ) → O.held out.old ≡ Some before
        → HasPut before (status_line status) (O.held out.new) result }
    ensures failed { OnErr result (Rose (O.faults out.old) (O.faults out.new)) }
    ensures needed { O.needless out.new ≡ O.needless out.old }
    ensures none { SaysWhole status → out.new ≡ out.old }
{
    match status {
        Status::Done | Status::Limit => Ok(()),
        Status::Usage => put_all(out, b"usage: cpsa COMMAND [--limit N] [--bound N]\n"),
        Status::Refused(refusal) => put_refusal(out, refusal),
        Status::ReadFault => put_all(out, b"read fault\n"),
        Status::WriteFault => put_all(out, b"write fault\n"),
        Status::Memory => put_all(out, b"memory\n"),
        Status::TooLong => put_all(out, b"too long\n"),
    }
}

// Puts the line for a status, or a prefix of it if the sink fails.
pub(crate) fn put_line<E: Sink>(errs: &mut E, status: Status)
    ensures line { (before : List ℕ) → E.held errs.old ≡ Some before
        → HasLine (status_line status) before (E.held errs.new) (E.faults errs.old) (E.faults errs.new) }
    ensures none { SaysWhole status → errs.new ≡ errs.old }
    ensures needed { E.needless errs.new ≡ E.needless errs.old }
{
    // If the line cannot be put, the status stays the same.
    let _ = put_status(errs, status);
}
