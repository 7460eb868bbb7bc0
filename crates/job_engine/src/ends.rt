//! How a job call ends.

/// The most bytes that the inputs of a job's code may have.
pub const LONGEST_INPUTS: usize = 1024;

/// How a job call ended.
#[derive(Clone, Copy, Debug, PartialEq, Eq)]
pub enum JobEnd {
    /// It is done; the code gave out so many bytes.
    Done(u16),
    /// The slot of this number opens.
    Found(u8),
    /// There is no job of this name.
    Unknown,
    /// There is a job of this name.
    Exists,
    /// There is no counter left for a new job.
    NoCounterLeft,
    /// Neither slot opens.
    Lost,
    /// The disk failed.
    DiskFault,
    /// A session of the job ended so, by the byte of its end.
    Ended(u8),
    /// There is no place for a session.
    NoPlace,
    /// The inputs are too long.
    LongInput,
    /// The bytes are no image of a job.
    BadImage,
    /// There is a job for each pair of slots.
    TooMany,
    /// There was no memory for the list of jobs, or for a session.
    NoMemory,
}
