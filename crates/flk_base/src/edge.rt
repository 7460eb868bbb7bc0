// The trusted edge: std's reader and writer, with a count of their faults.
ghost use Rattle.std.specs.Prelude.{◌≡◌, ◌≢◌, false, [], Err, IsOk, OnOk, OnErr};
ghost use Rattle.std.specs.Io.{ReadsAtMost};
ghost use Rattle.std.specs.Io.KnownBytes.{ReadConsumes, Appends};
ghost use Rattle.flk_base.specs.Causes.{HasCause, PutHasCause, next_count};
ghost use Rattle.flk_base.specs.Known.{AppendsPrefix, KeepsWhereKnown};

use crate::streams::{Failed, PutFault, Sink, Source};
use std::io::{Read, Write};
use std::marker::Model;

/// A source over a reader of std. What is known of the reader is known of it, also after an error.
#[derive(Drop)]
pub struct StdSource<R> {
    inner: R,
    faults: u64,
}

impl<R> Model for StdSource<R> {
    ghost use Rattle.flk_base.specs.Known.{Edge};

    ghost Value = { Edge R };

    ghost view = { λ s. record { inner = s.inner; faults = s.faults } };
}

impl<R: Read> StdSource<R> {
    /// The reader, with no faults so far.
    pub fn new(inner: R) -> StdSource<R>
        ensures { result ≡ record { inner = inner; faults = 0 } }
    {
        StdSource { inner, faults: 0 }
    }
}

impl<R: Read> Source for StdSource<R> {
    ghost left = { λ s. R.remaining s.inner };

    ghost fault_count = { λ s. s.faults };

    fn read(&mut self, buf: &mut [u8]) -> Result<usize, Failed>
        ensures bound { ReadsAtMost result buf.new }
        ensures bytes { OnOk result
            (ReadConsumes (R.remaining self.old.inner) (R.remaining self.new.inner) result
            buf.new) }
        ensures kept { OnErr result
            (KeepsWhereKnown (R.remaining self.old.inner) (R.remaining self.new.inner)) }
        ensures cause { HasCause self.old.faults self.new.faults result }

        // Beside what the trait says: each error counts as one fault.
        ensures raised { OnErr result (self.new.faults ≡ next_count self.old.faults) }
        // What is known of the reader stays known at an error.
        ensures known { ReadConsumes (R.remaining self.old.inner)
            (R.remaining self.new.inner) result buf.new }
    {
        match self.inner.read(buf) {
            Ok(count) => Ok(count),
            Err(_) => {
                self.faults = self.faults.saturating_add(1);
                Err(Failed)
            }
        }
    }

    fn faults(&self) -> u64 {
        self.faults
    }
}

/// A sink over a writer of std. What is known of the writer is known of it, also after an error.
#[derive(Drop)]
pub struct StdSink<W> {
    inner: W,
    faults: u64,
}

impl<W> Model for StdSink<W> {
    ghost use Rattle.flk_base.specs.Known.{Edge};

    ghost Value = { Edge W };

    ghost view = { λ s. record { inner = s.inner; faults = s.faults } };
}

impl<W: Write> StdSink<W> {
    /// The writer, with no faults so far.
    pub fn new(inner: W) -> StdSink<W>
        ensures { result ≡ record { inner = inner; faults = 0 } }
    {
        StdSink { inner, faults: 0 }
    }
}

impl<W: Write> Sink for StdSink<W> {
    ghost contents = { λ s. W.contents s.inner };

    ghost fault_count = { λ s. s.faults };

    ghost may_allocate = { false };

    // A writer that takes nothing of a piece that has bytes counts a fault too.
    fn put(&mut self, piece: &[u8]) -> Result<(), PutFault>
        ensures ok { OnOk result
            (Appends (W.contents self.old.inner) (W.contents self.new.inner) piece.now) }
        ensures err { OnErr result
            (AppendsPrefix (W.contents self.old.inner) (W.contents self.new.inner) [] piece.now) }
        ensures cause { PutHasCause result false self.old.faults self.new.faults }

        // Beside what the trait says: each error counts as one fault.
        ensures raised { OnErr result (self.new.faults ≡ next_count self.old.faults) }
        ensures never_out_of_memory { result ≢ Err PutFault.NoMemory }
        // A piece without bytes is no fault.
        ensures empty { piece.now ≡ [] → IsOk result }
    {
        let mut rest = piece;
        // What is not in `rest` is written, and no fault has come so far.
        while !rest.is_empty() {
            match self.inner.write(rest) {
                Ok(count) if 0 < count => rest = &rest[count..],
                _ => {
                    self.faults = self.faults.saturating_add(1);
                    return Err(PutFault::Failed);
                }
            }
        }
        Ok(())
    }

    fn faults(&self) -> u64 {
        self.faults
    }
}
