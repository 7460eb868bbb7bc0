//! The inputs of a job's session.
ghost use Rattle.std.specs.Prelude.{◌≡◌, None, Some, IfSome, IfNone};
ghost use Rattle.slb_core.specs.JobInputs.{mode_of, may_have, asked_of};

use byteorder::{BigEndian, ByteOrder};

/// How many bytes stand before the blob: the mode, and how many bytes the blob has.
pub(crate) const HEAD_LEN: usize = 3;

/// What a session does with a job, with the number that asks for it.
#[derive(Clone, Copy, Debug, PartialEq, Eq)]
pub enum Mode {
    /// The job is born: it gets a counter, and its code runs with no state.
    New = 0,
    /// Its code runs with the state in a blob, and its new state is sealed for the counter's next value.
    Step = 1,
    /// The counter is incremented for which a blob bears the next value.
    Commit = 2,
    /// A blob is tried, and nothing shown of it.
    Probe = 3,
}

/// What inputs ask for.
#[derive(Clone, Copy)]
pub(crate) struct Asked<'i> {
    pub(crate) mode: Mode,
    pub(crate) blob: &'i [u8],
    pub(crate) own: &'i [u8],
}

/// The mode of a number, if it has one.
fn mode_of(number: u8) -> Option<Mode>
    ensures { result ≡ mode_of number }
{
    match number {
        0 => Some(Mode::New),
        1 => Some(Mode::Step),
        2 => Some(Mode::Commit),
        3 => Some(Mode::Probe),
        _ => None,
    }
}

/// Whether the mode may have a blob of so many bytes.
fn may_have(mode: Mode, count: usize) -> bool
    ensures { result ≡ may_have mode count }
{
    match mode {
        Mode::New => count == 0,
        Mode::Step | Mode::Commit | Mode::Probe => true,
    }
}

/// What inputs ask for, if they are a job's.
pub(crate) fn asked_of(inputs: &[u8]) -> Option<Asked<'_>>
    ensures none { IfNone result (asked_of inputs.now ≡ None) }
    ensures asked { IfSome result (λ asked. asked_of inputs.now
        ≡ Some (record { mode = asked.mode; blob = asked.blob.now; own = asked.own.now })) }
{
    if inputs.len() < HEAD_LEN {
        return None;
    }
    let Some(mode) = mode_of(inputs[0]) else {
        return None;
    };
    let count = BigEndian::read_u16(&inputs[1..]) as usize;
    let rest = &inputs[HEAD_LEN..];
    if !may_have(mode, count) || rest.len() < count {
        return None;
    }
    let (blob, own) = rest.split_at(count);
    Some(Asked { mode, blob, own })
}
