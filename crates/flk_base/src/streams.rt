// Where bytes come from, and where they go.
ghost use Rattle.std.specs.Prelude.{◌≡◌, ◌<◌, ℕ, Bool, List, [], Option, length, OnOk, OnErr};
ghost use Rattle.std.specs.Io.{ReadsAtMost};
ghost use Rattle.std.specs.Io.KnownBytes.{ReadConsumes, Appends};
ghost use Rattle.flk_base.specs.Causes.{HasCause, PutHasCause};
ghost use Rattle.flk_base.specs.Known.{AppendsPrefix, KeepsWhereKnown};

/// A read failed, and took nothing.
#[derive(Clone, Copy, Debug, PartialEq, Eq)]
pub struct Failed;

/// Why a put was cut short.
#[derive(Clone, Copy, Debug, PartialEq, Eq)]
pub enum PutFault {
    /// The outside took no more.
    Failed,
    /// There was no memory for the piece.
    NoMemory,
}

/// Where bytes come from. Generic code can't raise the count of faults, so a read that failed shows
/// itself by the count alone.
pub trait Source {
    /// What is left, where it is known.
    ghost left: { Self → Option (List ℕ) };

    /// How many faults there have been, up to 2^64 - 1.
    ghost fault_count: { Self → ℕ };

    /// Moves the next bytes over the first ones of the buffer, and answers how many. 0 is the end,
    /// and comes where nothing is left.
    fn read(&mut self, buf: &mut [u8]) -> Result<usize, Failed>
        requires { 0 < length buf.old }
        ensures bound { ReadsAtMost result buf.new }
        ensures bytes { OnOk result (ReadConsumes (left self.old) (left self.new) result buf.new) }
        ensures kept { OnErr result (KeepsWhereKnown (left self.old) (left self.new)) }
        // A fault is counted, and nothing else is.
        ensures cause { HasCause (fault_count self.old) (fault_count self.new) result };

    /// How many faults there have been.
    fn faults(&self) -> u64
        ensures { result ≡ fault_count self.now };
}

/// Where bytes go.
pub trait Sink {
    /// What it holds, where it is known.
    ghost contents: { Self → Option (List ℕ) };

    /// How many faults there have been, up to 2^64 - 1.
    ghost fault_count: { Self → ℕ };

    /// Whether its puts may allocate.
    ghost may_allocate: { Bool };

    /// Appends the piece. A put that is cut short appends a prefix of it, and not all of a piece
    /// that has bytes.
    fn put(&mut self, piece: &[u8]) -> Result<(), PutFault>
        ensures ok { OnOk result (Appends (contents self.old) (contents self.new) piece.now) }
        ensures err { OnErr result
            (AppendsPrefix (contents self.old) (contents self.new) [] piece.now) }
        // A fault is counted, and nothing else is: running out of memory is none, and comes only
        // where a put may allocate.
        ensures cause { PutHasCause result may_allocate (fault_count self.old)
            (fault_count self.new) };

    /// How many faults there have been.
    fn faults(&self) -> u64
        ensures { result ≡ fault_count self.now };
}
