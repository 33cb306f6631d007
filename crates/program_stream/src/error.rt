//! Why a stream is not judged to its end.
ghost use Rattle.std.specs.Prelude.{◌≡◌};
ghost use Rattle.program_stream.specs.declared.error.StreamError.TheVariants.{Memory};
ghost use Rattle.program_stream.specs.Streams.{IsReadError};

use std::alloc::AllocError;
use std::error::Error;
use std::fmt::{self, Display, Formatter};
use std::io::{self, ErrorKind};

/// Why a stream is not judged to its end.
#[derive(Clone, Copy, Debug, PartialEq, Eq)]
pub enum StreamError {
    /// Reading failed.
    CannotRead,
    /// This line cannot be in a recording. Lines are counted from 1.
    BadLine { line: usize },
    /// The lines of the messages were not taken.
    CannotWrite,
    /// Out of memory.
    Memory,
}

impl Display for StreamError {
    fn fmt<W: fmt::Write>(&self, f: &mut Formatter<W>) -> fmt::Result {
        match self {
            StreamError::CannotRead => f.write_str("cannot read"),
            StreamError::BadLine { line } => write!(f, "line {line}: bad line"),
            StreamError::CannotWrite => f.write_str("cannot write"),
            StreamError::Memory => f.write_str("out of memory"),
        }
    }
}

impl Error for StreamError {}

impl From<AllocError> for StreamError {
    ghost from_gives = { λ _ e. e ≡ Memory };

    fn from(_error: AllocError) -> StreamError {
        StreamError::Memory
    }
}

/// Why reading failed.
pub(crate) fn read_error(error: &io::Error) -> StreamError
    ensures { IsReadError result }
{
    match error.kind() {
        ErrorKind::OutOfMemory => StreamError::Memory,
        _ => StreamError::CannotRead,
    }
}
