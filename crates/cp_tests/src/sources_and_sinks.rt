// Answers of sources and sinks at given calls, and the numbers and names that a user sees.
use cp_base::{
    Code, Failed, MemSink, MemSource, Place, Refusal, Sink, Source, Status, StdSink, StdSource,
};
use std::alloc::{AllocError, Global};
use std::io;
use std::io::{Error, ErrorKind, Write};
use std::test::Fail;

#[test]
fn statuses_and_codes(rt: HostRuntime) {
    let place = Place { line: 2, col: 7 };
    let code = Code::Unclosed;
    let refused = Status::Refused(Refusal { place, code });
    for (status, number) in [
        (Status::Done, 0),
        (Status::Limit, 1),
        (Status::Usage, 2),
        (refused, 3),
        (Status::ReadFault, 4),
        (Status::WriteFault, 5),
        (Status::Memory, 6),
        (Status::TooLong, 7),
    ] {
        assert!(rt; status.number() == number);
    }
    assert!(rt; code.name() == "Unclosed");
}

/// Whether the source fails at the second and the fourth call, and gives its six bytes at the others.
fn gives_six(source: &mut MemSource) -> bool {
    let mut buf = [b'.'; 4];
    for (answer, front) in [
        (Ok(4), b"abcd"),
        (Err(Failed), b"abcd"),
        (Ok(2), b"efcd"),
        (Err(Failed), b"efcd"),
        (Ok(0), b"efcd"),
    ] {
        if !(source.take(&mut buf) == answer && buf == *front) {
            return false;
        }
    }
    true
}

/// Whether a source of six bytes that fails at these calls does so.
fn source_gives_six(alloc: Global) -> Result<bool, AllocError> {
    let bytes = b"abcdef".to_vec(alloc)?;
    let mut source = MemSource::new(bytes, [1, 3].to_vec(alloc)?);
    Ok(gives_six(&mut source))
}

#[test]
fn source_in_memory(rt: HostRuntime) -> Result<(), Fail> {
    assert!(rt; source_gives_six(rt.alloc())?);
    Ok(())
}

/// Whether the sink fails at the second call and where it is full, and holds what it is given at the others.
fn holds_five(sink: &mut MemSink) -> bool {
    for (piece, answer, held) in [
        ("abc", Ok(3), "abc"),
        ("d", Err(Failed), "abc"),
        ("defg", Ok(2), "abcde"),
        ("fg", Err(Failed), "abcde"),
        ("", Ok(0), "abcde"),
    ] {
        if !(sink.put(piece.as_bytes()) == answer && sink.bytes() == held.as_bytes()) {
            return false;
        }
    }
    true
}

/// Whether a sink with room for five bytes that fails at this call does so.
fn sink_holds_five(alloc: Global) -> Result<bool, AllocError> {
    let mut sink = MemSink::new(alloc, 5, [1].to_vec(alloc)?)?;
    Ok(holds_five(&mut sink))
}

#[test]
fn sink_in_memory(rt: HostRuntime) -> Result<(), Fail> {
    assert!(rt; sink_holds_five(rt.alloc())?);
    Ok(())
}

#[test]
fn source_over_readers(rt: HostRuntime) {
    let mut source = StdSource::new(rt.stdin());
    assert!(rt; source.take(&mut []) == Ok(0));
    let mut source = StdSource::new(b"abc".as_slice());
    let mut buf = [0; 4];
    assert!(rt; source.take(&mut buf) == Ok(3));
    assert!(rt; buf == *b"abc\0");
    assert!(rt; source.take(&mut buf) == Ok(0));
}

// A writer that takes at most so many bytes a call, and whose flush may fail.
#[derive(Drop)]
struct Narrow {
    width: usize,
    flushes: bool,
}

impl Write for Narrow {
    fn write(&mut self, buf: &[u8]) -> io::Result<usize> {
        Ok(buf.len().min(self.width))
    }

    fn flush(&mut self) -> io::Result<()> {
        if self.flushes {
            Ok(())
        } else {
            Err(Error::from(ErrorKind::Other))
        }
    }
}

#[test]
fn sink_over_writers(rt: HostRuntime) {
    let mut out = StdSink::new(rt.stdout());
    assert!(rt; out.put(b"") == Ok(0));
    let mut errs = StdSink::new(rt.stderr());
    assert!(rt; errs.put(b"") == Ok(0));
    for (width, flushes, answer) in [
        (2, true, Ok(2)),
        (0, true, Err(Failed)),
        (2, false, Err(Failed)),
    ] {
        let mut sink = StdSink::new(Narrow { width, flushes });
        assert!(rt; sink.put(b"abc") == answer);
    }
}
