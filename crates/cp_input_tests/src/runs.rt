// Runs over streams that fail at given calls: how they end, and what is put before.
use crate::stated::{NEEDHAM_SCHROEDER, joined};
use cp_app::run;
use cp_base::{Code, MemSink, MemSource, Place, Refusal, Source, Status};
use std::alloc::{AllocError, Global};
use std::test::Fail;

const PROBLEM: &str = "(defskeleton ns (vars (a b name) (n1 n2 text)) \
    (defstrand init 3 (a a) (b b) (n1 n1) (n2 n2)) (non-orig (privk a) (privk b)) (uniq-orig n1))";

// The forms of the report, each of which is one piece.
const FORMS: &[&str] = &[
    NEEDHAM_SCHROEDER,
    "(defskeleton ns\n  \
    (vars (a b name) (n1 n2 text))\n  \
    (defstrand init 3 (a a) (b b) (n1 n1) (n2 n2))\n  \
    (non-orig (privk a) (privk b))\n  \
    (uniq-orig n1))\n",
    "(label 0\n  \
    (by problem)\n  \
    (vars (a name) (b name) (n1 text) (n2 text))\n  \
    (defstrand init 3 (a a) (b b) (n1 n1) (n2 n2))\n  \
    (non-orig (privk a) (privk b))\n  \
    (uniq-orig (n1 (0 0)))\n  \
    (map (0) (a a) (b b) (n1 n1) (n2 n2))\n  \
    (unrealised (0 1))\n  \
    (test (0 1) (enc n1 n2 (pubk a)))\n  \
    (children 1 2))\n",
    "(label 1\n  \
    (parent 0)\n  \
    (by added-strand 1)\n  \
    (vars (a name) (b name) (n1 text) (n2 text) (b-0 name))\n  \
    (defstrand init 3 (a a) (b b) (n1 n1) (n2 n2))\n  \
    (defstrand resp 2 (a a) (b b-0) (n1 n1) (n2 n2))\n  \
    (precedes ((0 0) (1 0)) ((1 1) (0 1)))\n  \
    (non-orig (privk a) (privk b))\n  \
    (uniq-orig (n1 (0 0)))\n  \
    (map (0) (a a) (b b) (n1 n1) (n2 n2))\n  \
    (unrealised (1 0))\n  \
    (test (1 0) (enc n1 a (pubk b-0)))\n  \
    (children 3 4))\n",
    "(label 2\n  \
    (parent 0)\n  \
    (by added-listener 1)\n  \
    (vars (a name) (b name) (n1 text) (n2 text))\n  \
    (defstrand init 3 (a a) (b b) (n1 n1) (n2 n2))\n  \
    (deflistener (cat n1 n2))\n  \
    (precedes ((0 0) (1 0)) ((1 1) (0 1)))\n  \
    (non-orig (privk a) (privk b))\n  \
    (uniq-orig (n1 (0 0)))\n  \
    (map (0) (a a) (b b) (n1 n1) (n2 n2))\n  \
    (unrealised (0 1) (1 0))\n  \
    (test (1 0) n1)\n  \
    (escape (enc n1 a (pubk b)) (enc n1 (any text 0) (pubk a)))\n  \
    (dead))\n",
    "(label 3\n  \
    (parent 1)\n  \
    (by contracted 0 0)\n  \
    (vars (a name) (b name) (n1 text) (n2 text))\n  \
    (defstrand init 3 (a a) (b b) (n1 n1) (n2 n2))\n  \
    (defstrand resp 2 (a a) (b b) (n1 n1) (n2 n2))\n  \
    (precedes ((0 0) (1 0)) ((1 1) (0 1)))\n  \
    (non-orig (privk a) (privk b))\n  \
    (uniq-orig (n1 (0 0)))\n  \
    (map (0) (a a) (b b) (n1 n1) (n2 n2))\n  \
    (shape))\n",
    "(label 4\n  \
    (parent 1)\n  \
    (by added-listener 2)\n  \
    (vars (a name) (b name) (n1 text) (n2 text) (b-0 name))\n  \
    (defstrand init 3 (a a) (b b) (n1 n1) (n2 n2))\n  \
    (defstrand resp 2 (a a) (b b-0) (n1 n1) (n2 n2))\n  \
    (deflistener (cat n1 a))\n  \
    (precedes ((0 0) (2 0)) ((1 1) (0 1)) ((2 1) (1 0)))\n  \
    (non-orig (privk a) (privk b))\n  \
    (uniq-orig (n1 (0 0)))\n  \
    (map (0) (a a) (b b) (n1 n1) (n2 n2))\n  \
    (unrealised (1 0) (2 0))\n  \
    (test (2 0) n1)\n  \
    (escape (enc n1 a (pubk b)) (enc n1 (any text 0) (pubk a)))\n  \
    (dead))\n",
    "(status complete labels 5 expanded 4 shapes 1)\n",
];

const ANALYSE: &[&str] = &["cpsa", "analyse"];

const SHAPES: &[&str] = &["cpsa", "shapes"];

const GEN_ONE: &[&str] = &["cpsa", "gen", "1"];

const GEN_THREE: &[&str] = &["cpsa", "gen", "3"];

const UNREADABLE: &[&str] = &["cpsa", "analyse", "--limit", "x"];

// Words, the calls at which the source fails, the room of the sink and the calls at which it fails, those at which the sink for
// errors fails, the status, and how many forms are put. A command that reads takes all in call 0, and comes to the end in call 1.
type Row = (
    &'static [&'static str],
    &'static [u64],
    usize,
    &'static [u64],
    &'static [u64],
    Status,
    usize,
);

const ROWS: &[Row] = &[
    (ANALYSE, &[0], 10_000, &[], &[], Status::ReadFault, 0),
    (ANALYSE, &[1], 10_000, &[], &[], Status::ReadFault, 0),
    (ANALYSE, &[2], 10_000, &[], &[], Status::Done, 8),
    (ANALYSE, &[], 0, &[], &[], Status::WriteFault, 0),
    (ANALYSE, &[], 10_000, &[0], &[], Status::WriteFault, 0),
    (ANALYSE, &[], 10_000, &[1], &[], Status::WriteFault, 1),
    (ANALYSE, &[], 10_000, &[2], &[], Status::WriteFault, 2),
    (ANALYSE, &[], 10_000, &[3], &[], Status::WriteFault, 3),
    (ANALYSE, &[], 10_000, &[4], &[], Status::WriteFault, 4),
    (ANALYSE, &[], 10_000, &[5], &[], Status::WriteFault, 5),
    (ANALYSE, &[], 10_000, &[6], &[], Status::WriteFault, 6),
    (ANALYSE, &[], 10_000, &[7], &[], Status::WriteFault, 7),
    (ANALYSE, &[], 10_000, &[8], &[], Status::Done, 8),
    (SHAPES, &[], 10_000, &[1], &[], Status::WriteFault, 1),
    (GEN_ONE, &[0, 1, 2], 10_000, &[], &[], Status::Done, 2),
    (GEN_THREE, &[], 10_000, &[1], &[], Status::WriteFault, 1),
    (GEN_THREE, &[], 10_000, &[2], &[], Status::WriteFault, 2),
    (UNREADABLE, &[0], 10_000, &[0], &[], Status::Usage, 0),
    (&[], &[0], 10_000, &[0], &[], Status::Usage, 0),
];

const INITIATOR: &[&str] = &[NEEDHAM_SCHROEDER, PROBLEM];

const ONE_MESSAGE: &str =
    "(defskeleton ns (vars (n1 text)) (defstrand init 1 (n1 n1)) (uniq-orig n1))";

const FORMS_OF_ONE_MESSAGE: &[&str] = &[
    NEEDHAM_SCHROEDER,
    "(defskeleton ns\n  (vars (n1 text))\n  (defstrand init 1 (n1 n1))\n  (uniq-orig n1))\n",
    "(label 0\n  (by problem)\n  (vars (n1 text) (a name) (b name))\n  \
    (defstrand init 1 (a a) (b b) (n1 n1))\n  (uniq-orig (n1 (0 0)))\n  \
    (map (0) (n1 n1) (a a) (b b))\n  (shape))\n",
    "(status complete labels 1 expanded 0 shapes 1)\n",
];

const SHORT_INITIATOR: &[&str] = &[NEEDHAM_SCHROEDER, ONE_MESSAGE];

const NAME_FOR_A_KEY: &[&str] = &[
    "(defprotocol p basic (defrole r (vars (a n name)) (trace (send (enc n a)))))",
];

const REFUSED: Status = Status::Refused(Refusal {
    place: Place { line: 1, col: 71 },
    code: Code::KeySort,
});

// An input, how many bytes a call gives or takes, a row, and the forms whose text is put.
type Case = (
    &'static [&'static str],
    &'static [usize],
    Row,
    &'static [&'static str],
);

const WHOLE: Row = (ANALYSE, &[], 10_000, &[], &[], Status::Done, 8);

const SECOND_TAKE_FAILS: Row = (ANALYSE, &[1], 10_000, &[], &[], Status::ReadFault, 0);

const SIXTH_TAKE_FAILS: Row = (ANALYSE, &[5], 10_000, &[], &[], Status::ReadFault, 0);

const FOURTH_PUT_FAILS: Row = (ANALYSE, &[], 10_000, &[3], &[], Status::WriteFault, 1);

const LINE_FAILS: Row = (ANALYSE, &[], 10_000, &[], &[0], REFUSED, 0);

const TOO_LONG: Row = (ANALYSE, &[], 100, &[], &[], Status::TooLong, 0);

const SIZES: &[usize] = &[1, 2, 7, 4_095, 4_096, 4_097];

const CASES: &[Case] = &[
    (INITIATOR, SIZES, WHOLE, FORMS),
    (INITIATOR, &[1], SIXTH_TAKE_FAILS, FORMS),
    (INITIATOR, &[1], FOURTH_PUT_FAILS, &["(de"]),
    (SHORT_INITIATOR, &[1], WHOLE, FORMS_OF_ONE_MESSAGE),
    (&[")"], &[4_096], SECOND_TAKE_FAILS, FORMS),
    (NAME_FOR_A_KEY, &[4_096], LINE_FAILS, FORMS),
];

/// These words as those of a command line.
fn words(alloc: Global, words: &[&str]) -> Result<Vec<String>, AllocError> {
    let mut all = Vec::new(alloc);
    for word in words {
        all.push(String::from_str(alloc, word)?)?;
    }
    Ok(all)
}

/// How a run ended, and what it put on its two sinks.
#[derive(Drop)]
struct Ended {
    status: Status,
    out: MemSink,
    errs: MemSink,
}

/// Runs these words over the source and two sinks.
fn run_into(
    alloc: Global,
    words: &[String],
    source: &mut MemSource,
    mut out: MemSink,
    mut errs: MemSink,
) -> Ended {
    let status = run(alloc, words, source, &mut out, &mut errs);
    Ended { status, out, errs }
}

/// The line on the error stream.
fn line_of(status: Status) -> &'static str {
    match status {
        Status::Usage => "usage: cpsa COMMAND [--limit N] [--bound N]\n",
        Status::ReadFault => "read fault\n",
        Status::WriteFault => "write fault\n",
        _ => "",
    }
}

/// Whether the run ended so, put this, and put the line of its status on the error stream.
fn has_ended(ended: &Ended, status: Status, wanted: &[u8]) -> bool {
    ended.status == status
        && ended.out.bytes() == wanted
        && ended.errs.bytes() == line_of(status).as_bytes()
}

/// The text of so many of the forms.
fn front(alloc: Global, forms: &[&str], count: usize) -> Result<Vec<u8>, AllocError> {
    let mut text = Vec::new(alloc);
    for form in forms.iter().take(count) {
        text.extend_from_slice(form.as_bytes())?;
    }
    Ok(text)
}

/// The run of a row over this source, with so many bytes a call to its sinks.
fn run_over(
    alloc: Global,
    source: &mut MemSource,
    size: usize,
    row: &Row,
) -> Result<Ended, AllocError> {
    let &(line, _, room, puts, lines, _, _) = row;
    let size = size.max(1);
    let out = MemSink::chunked(alloc, room, size, puts.to_vec(alloc)?)?;
    let errs = MemSink::chunked(alloc, 100, size, lines.to_vec(alloc)?)?;
    Ok(run_into(alloc, &words(alloc, line)?, source, out, errs))
}

/// The run of a row over this input, with so many bytes a call.
fn run_of(alloc: Global, input: &[&str], size: usize, row: &Row) -> Result<Ended, AllocError> {
    let bytes = joined(alloc, input)?;
    let mut source = MemSource::chunked(bytes, size.max(1), row.1.to_vec(alloc)?);
    run_over(alloc, &mut source, size, row)
}

/// Whether the run of a row over this input ends as the row says, and puts as many of these forms.
fn is_right(
    alloc: Global,
    input: &[&str],
    size: usize,
    row: &Row,
    forms: &[&str],
) -> Result<bool, AllocError> {
    let ended = run_of(alloc, input, size, row)?;
    let wanted = front(alloc, forms, row.6)?;
    Ok(has_ended(&ended, row.5, wanted.as_slice()))
}

// What was put is the whole, or the pieces before the call that failed: each form is one.
#[test]
fn forms_before_a_fault(rt: HostRuntime) -> Result<(), Fail> {
    for row in ROWS {
        assert!(rt;
            is_right(rt.alloc(), INITIATOR, usize::MAX, row, FORMS)?,
            "{} forms",
            row.6
        );
    }
    Ok(())
}

// However few bytes a call gives or takes; a fault comes before a refusal, and the line of a refusal is lost where its sink fails.
#[test]
fn few_bytes_a_call(rt: HostRuntime) -> Result<(), Fail> {
    for case in CASES {
        for &size in case.1 {
            assert!(rt;
                is_right(rt.alloc(), case.0, size, &case.2, case.3)?,
                "{} bytes",
                size
            );
        }
    }
    Ok(())
}

/// Whether the source's input is too long.
fn is_too_long(alloc: Global, source: &mut MemSource) -> Result<bool, AllocError> {
    let ended = run_over(alloc, source, usize::MAX, &TOO_LONG)?;
    Ok(ended.status == TOO_LONG.5)
}

/// Whether so many bytes are left in the source.
fn has_left(alloc: Global, source: &mut MemSource, count: usize) -> Result<bool, AllocError> {
    let mut rest = vec![in alloc; 0; 60_000]?;
    Ok(source.take(&mut rest) == Ok(count))
}

/// Whether so many spaces are too many, and all but one more than may be taken are left.
fn leaves_rest(alloc: Global) -> Result<bool, AllocError> {
    let spaces = vec![in alloc; b' '; 1_100_000]?;
    let mut source = MemSource::new(spaces, Vec::new(alloc));
    Ok(is_too_long(alloc, &mut source)? && has_left(alloc, &mut source, 51_423)?)
}

// Of too long an input one byte too many is taken, and no more.
#[test]
fn what_is_left_of_too_long_an_input(rt: HostRuntime) -> Result<(), Fail> {
    assert!(rt; leaves_rest(rt.alloc())?);
    Ok(())
}
