//! How a session ends.
ghost use Rattle.std.specs.Prelude.{◌≡◌};
ghost use Rattle.late_launch.specs.Ends.{end_byte, fault_number, refusal_number};

use i386_profile::FaultKind;

/// Why the session of a job ends without running the job.
#[derive(Clone, Copy)]
pub enum JobRefusal {
    /// The inputs are none of a job.
    Input,
    /// The blob does not open.
    NotOpen,
    /// No counter is left.
    NoCounterLeft,
    /// The counter has its last value.
    CounterEnd,
    /// The device has no seed.
    Unprovisioned,
    /// The device has sealed as often as it can.
    SerialEnd,
}

/// How a session ends.
#[derive(Clone, Copy)]
pub enum End {
    /// The code ended it, with so many bytes of outputs.
    Done(u16),
    /// An instruction was not carried out.
    Fault(FaultKind),
    /// The turns of its budget are over.
    Budget,
    /// It is the session of a job, which was refused.
    Refused(JobRefusal),
}

fn refusal_number(why: JobRefusal) -> u8
    ensures { result ≡ refusal_number why }
{
    match why {
        JobRefusal::Input => 5,
        JobRefusal::NotOpen => 6,
        JobRefusal::NoCounterLeft => 7,
        JobRefusal::CounterEnd => 8,
        JobRefusal::Unprovisioned => 9,
        JobRefusal::SerialEnd => 10,
    }
}

fn fault_number(kind: FaultKind) -> u8
    ensures { result ≡ fault_number kind }
{
    match kind {
        FaultKind::Instruction => 1,
        FaultKind::Segment => 2,
        FaultKind::Divide => 3,
    }
}

impl End {
    /// The byte that stands for the end where register 17 is extended by it.
    pub fn byte(&self) -> u8
        ensures { result ≡ end_byte self.now }
    {
        match *self {
            End::Done(_) => 0,
            End::Fault(kind) => fault_number(kind),
            End::Budget => 4,
            End::Refused(why) => refusal_number(why),
        }
    }
}
