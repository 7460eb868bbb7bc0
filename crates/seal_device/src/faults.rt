// Why a call failed, with the number of each fault.

/// A seed was not taken: the device has one.
#[derive(Clone, Copy, Debug, PartialEq, Eq)]
pub struct Provisioned;

/// Why a register was neither extended nor read, with the number of the fault.
#[derive(Clone, Copy, Debug, PartialEq, Eq)]
pub enum RegisterFault {
    /// There is no register of this number.
    NoRegister = 1,
    /// The power was lost before the step.
    PowerLost = 5,
}

/// Why bytes were not sealed, with the number of the fault. After lost power the order of trial is
/// that of the list.
#[derive(Clone, Copy, Debug, PartialEq, Eq)]
pub enum SealFault {
    /// The device has no seed.
    Unprovisioned = 6,
    /// There are more than 2,048 bytes.
    TooLong = 1,
    /// The counter is not in use.
    NoCounter = 2,
    /// Bytes were to be sealed ahead, and the counter stands at 2^32 - 1.
    CounterEnd = 3,
    /// The next serial is 2^64 - 1, which no record gets.
    SerialEnd = 4,
    /// The power was lost before the step.
    PowerLost = 5,
}

/// Why a blob was not unsealed, or has not the next value of its counter, with the number of the
/// fault. After lost power the order of trial is that of the list.
#[derive(Clone, Copy, Debug, PartialEq, Eq)]
pub enum UnsealFault {
    /// The device has no seed.
    Unprovisioned = 6,
    /// The bytes have not the form and the tag of a blob of this device.
    NotBlob = 1,
    /// Register 17 has another value than at the sealing.
    WrongChain = 2,
    /// The blob bears a counter that is not in use or has another value; where the next value is
    /// asked for, also a blob that bears none.
    WrongCounter = 3,
    /// The power was lost before the step.
    PowerLost = 5,
}

/// Why a counter was not created, read or incremented, with the number of the fault. After lost
/// power the order of trial is Full, End for a creation, and NoCounter, NotOwner, End for an
/// increment.
#[derive(Clone, Copy, Debug, PartialEq, Eq)]
pub enum CounterFault {
    /// All counters are in use.
    Full = 1,
    /// The value stands at 2^32 - 1: that of the counter, or for a creation the largest so far.
    End = 2,
    /// The counter is not in use.
    NoCounter = 3,
    /// Register 17 has another value than when the counter was created.
    NotOwner = 4,
    /// The power was lost before the step.
    PowerLost = 5,
}

/// Why register 17 was not quoted, with the number of the fault. After lost power the order of trial
/// is that of the list.
#[derive(Clone, Copy, Debug, PartialEq, Eq)]
pub enum QuoteFault {
    /// The device has no seed.
    Unprovisioned = 6,
    /// The power was lost before the step.
    PowerLost = 5,
}

/// Why no random word was drawn, with the number of the fault. After lost power the order of trial
/// is that of the list.
#[derive(Clone, Copy, Debug, PartialEq, Eq)]
pub enum RandomFault {
    /// The device has no seed.
    Unprovisioned = 6,
    /// The next word's number is 2^64 - 1, which no word gets.
    RandomEnd = 4,
    /// The power was lost before the step.
    PowerLost = 5,
}
