//! How a script ends.

use thiserror::Error;

/// How a script that was read ended.
#[derive(Clone, Copy, Debug, PartialEq, Eq)]
pub enum Outcome {
    /// Each line was answered or has no reply.
    Finished,
    /// The line with this number, counted from 1, isn't a command. Nothing after it was answered.
    FaultLine(u64),
}

/// Why a script did not end.
#[derive(Clone, Copy, Debug, PartialEq, Eq, Error)]
pub enum ScriptFault {
    /// An allocation was refused. The replies of the whole lines so far were written.
    #[error("out of memory")]
    OutOfMemory,
    /// A read failed. Nothing was written.
    #[error("cannot read")]
    Read,
    /// The text has more than [`MOST_BYTES`](crate::MOST_BYTES) bytes, and nothing was written; or a session has more
    /// lines or reads than 64 bits count.
    #[error("the script is too long")]
    TooLong,
    /// A write failed.
    #[error("cannot write")]
    Write,
}
