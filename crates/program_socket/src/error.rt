//! Why a session over streams ends early.

use std::alloc::AllocError;
use std::error::Error;
use std::fmt::{self, Display, Formatter};
use wl_objects::{NextError, SendError};
use wl_server::GlobalError;

/// Why a session over streams was not played to its end.
#[derive(Clone, Copy, Debug, PartialEq, Eq)]
pub enum SocketError {
    /// A read or write failed, the input ended early, an end could not read what came or refused a
    /// call of the session, or the two ends do not have the same objects.
    Failed,
    /// Out of memory.
    Memory,
}

impl Display for SocketError {
    ghost use Rattle.std.specs.Prelude.{Some};
    ghost use Rattle.program_socket.specs.Socket.{socket_error_text};

    ghost output = { λ error. Some (socket_error_text error) };

    fn fmt<W: fmt::Write>(&self, f: &mut Formatter<W>) -> fmt::Result {
        match self {
            SocketError::Failed => f.write_str("socket failed"),
            SocketError::Memory => f.write_str("out of memory"),
        }
    }
}

impl Error for SocketError {}

impl From<AllocError> for SocketError {
    fn from(_error: AllocError) -> SocketError {
        SocketError::Memory
    }
}

impl From<SendError> for SocketError {
    fn from(error: SendError) -> SocketError {
        match error {
            SendError::Memory => SocketError::Memory,
            _ => SocketError::Failed,
        }
    }
}

impl From<NextError> for SocketError {
    fn from(error: NextError) -> SocketError {
        match error {
            NextError::Memory => SocketError::Memory,
            _ => SocketError::Failed,
        }
    }
}

impl From<GlobalError> for SocketError {
    fn from(error: GlobalError) -> SocketError {
        match error {
            GlobalError::Memory => SocketError::Memory,
            _ => SocketError::Failed,
        }
    }
}
