// A source and a sink over real streams, such as standard input, output and error. They count the faults of a stream, and tell of
// its bytes what the stream tells; the standard streams tell nothing.
ghost use Rattle.std.specs.Prelude.{◌≡◌, ◌≤◌, ◌<◌, None, false, length, take, IfOk, OnOk, OnErr};
ghost use Rattle.std.specs.Io.KnownBytes.{ReadConsumes, Appends};
ghost use Rattle.cp_base.specs.InMemory.{one_more};
ghost use Rattle.cp_base.specs.Outside.{Rose, Takes, Puts};

use crate::sink::Sink;
use crate::source::Source;
use crate::status::Failed;
use std::io::{Read, Write};
use std::marker::Model;

/// A stream with a count of its faults: a source over a reader, or a sink over a writer.
#[derive(Drop)]
pub struct Counted<S> {
    stream: S,
    faults: u64,
}

impl<S> Model for Counted<S> {
    ghost use Rattle.cp_base.specs.Streams.{StreamState};

    ghost Value = { StreamState S };

    ghost view = { λ s. record { stream = s.stream; faults = s.faults } };
}

impl<S> Counted<S> {
    /// The source or sink over this stream, such as `rt.stdin()` or `rt.stdout()`. No fault is counted yet.
    pub fn new(stream: S) -> Counted<S>
        ensures { result ≡ record { stream = stream; faults = 0 } }
    {
        Counted { stream, faults: 0 }
    }
}

impl<R: Read> Source for Counted<R> {
    ghost left = { λ _. None };

    ghost faults = { λ source. source.faults };

    ghost has_ended = { λ _. false };

    ghost needless = { λ _. 0 };

    fn take(&mut self, buf: &mut [u8]) -> Result<usize, Failed>
        ensures count { IfOk result (λ n. n ≤ length buf.old) }
        ensures failed { OnErr result (Rose self.old.faults self.new.faults) }
        ensures never_falls { self.old.faults ≤ self.new.faults }
        ensures moved { Takes None None buf.old buf.new result }

        // The bytes taken are those that the reader gives, if the reader tells them.
        ensures bytes { ReadConsumes (R.remaining self.old.stream) (R.remaining self.new.stream)
            result buf.new }

        // Each fault is counted, and nothing else is.
        ensures no_fault { OnOk result (self.new.faults ≡ self.old.faults) }
        ensures fault { OnErr result (self.new.faults ≡ one_more self.old.faults) }
    {
        match self.stream.read(buf) {
            Ok(count) => Ok(count),
            Err(_) => {
                self.faults = self.faults.saturating_add(1);
                Err(Failed)
            }
        }
    }
}

// Writes some of the bytes and flushes. It fails if the writer takes nothing of a nonempty piece.
fn write_through<W: Write>(writer: &mut W, bytes: &[u8]) -> Result<usize, Failed>
    ensures count { IfOk result (λ n. n ≤ length bytes.now) }
    ensures progress { IfOk result (λ n. 0 < length bytes.now → 0 < n) }
    ensures bytes { IfOk result (λ n. Appends (W.contents writer.old) (W.contents writer.new)
        (take n bytes.now)) }
{
    let Ok(count) = writer.write(bytes) else {
        return Err(Failed);
    };
    if count == 0 && !bytes.is_empty() {
        return Err(Failed);
    }
    match writer.flush() {
        Ok(()) => Ok(count),
        Err(_) => Err(Failed),
    }
}

impl<W: Write> Sink for Counted<W> {
    ghost faults = { λ sink. sink.faults };

    ghost needless = { λ _. 0 };

    ghost held = { λ _. None };

    /// Writes some of the bytes and flushes. A failed flush is a fault, although the bytes may have gone out.
    fn put(&mut self, bytes: &[u8]) -> Result<usize, Failed>
        ensures count { IfOk result (λ n. n ≤ length bytes.now) }
        ensures progress { IfOk result (λ n. 0 < length bytes.now → 0 < n) }
        ensures failed { OnErr result (Rose self.old.faults self.new.faults) }
        ensures never_falls { self.old.faults ≤ self.new.faults }
        ensures moved { Puts None None bytes.now result }

        // The bytes put are those that the writer takes, if the writer tells them.
        ensures bytes { IfOk result (λ n. Appends (W.contents self.old.stream) (W.contents self.new.stream)
            (take n bytes.now)) }

        // Each fault is counted, and nothing else is.
        ensures no_fault { OnOk result (self.new.faults ≡ self.old.faults) }
        ensures fault { OnErr result (self.new.faults ≡ one_more self.old.faults) }
    {
        let result = write_through(&mut self.stream, bytes);
        if result.is_err() {
            self.faults = self.faults.saturating_add(1);
        }
        result
    }
}
