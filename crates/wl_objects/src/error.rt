//! Why a call writes nothing, and why a message cannot be read.

ghost use Rattle.std.specs.Prelude.{◌≡◌};
ghost use Rattle.wl_objects.specs.Texts.{argument_fault_number};

use std::error::Error;
use std::fmt::{self, Display, Formatter};
use wl_wire::ArgFault;

/// Why a message was not written. The causes are tested in this order, and a refused call changes
/// nothing.
#[derive(Clone, Copy, Debug, PartialEq, Eq)]
pub enum SendError {
    /// S1: the end has failed and writes nothing more.
    Failed,
    /// S2: the target is not live with this birth.
    Stale,
    /// S3: the target's interface has no such message, or another call writes it.
    NoSuchMessage,
    /// S4: the message is newer than the target's version.
    TooOld,
    /// S5: the argument at this index has the wrong kind, is null and may not be, or is a string
    /// with a byte 0. If the numbers of arguments differ and all before suit, the index is the
    /// smaller number.
    WrongArgs(usize),
    /// S6: the object at this index is not live, or has another interface.
    BadObject(usize),
    /// S7: no remembered global has this name and this interface; or the version is 0, above the
    /// advertised one, or above the one in the tables.
    BadBind,
    /// S8: the message is longer than the end's limit.
    TooLong,
    /// S9: the outbox has too few free bytes or tokens.
    Full,
    /// S10: no more objects can be opened in the writer's range of ids.
    NoIds,
    /// S11: there is no memory for the new object.
    Memory,
    /// S12: the object's interface does not end by an event.
    NotDroppable,
}

/// What is wrong with a message that was read. Indices of arguments count from 0.
#[derive(Clone, Copy, Debug, PartialEq, Eq)]
pub enum Fault {
    /// F1: the size is below 8, not a multiple of 4, or above the limit.
    BadSize,
    /// F2: the message is for an object that the reader does not know.
    UnknownObject,
    /// F3: the interface has no such message at the object's version.
    UnknownMessage,
    /// F4: the bytes of the argument at this index do not spell its kind.
    BadArgument(usize, ArgFault),
    /// F5: the object at this index is unknown, or has another interface.
    BadObject(usize),
    /// F6: the new id at this index is not in the writer's range, is in use, or is neither freed
    /// nor the next. At a client an id is in use only if a request can end its object: a new object
    /// replaces any other object of the server.
    BadNewId(usize),
    /// F7: bytes are left after the last argument.
    TrailingBytes,
    /// F8: fewer tokens wait than the message has descriptors.
    MissingDescriptor,
    /// F9: no global of this name was ever advertised, or it has another interface, or the version
    /// is 0 or above the advertised one.
    BadBind,
    /// F10: the connection has no more room for a new object.
    TooManyObjects,
}

/// Why no message was read.
#[derive(Clone, Copy, Debug, PartialEq, Eq)]
pub enum NextError {
    /// The message that begins `offset` bytes after the start of the stream is at fault. The end
    /// has failed.
    Fault { fault: Fault, offset: u64 },
    /// The end had failed before.
    Failed,
    /// There is no memory for the report, or for the object that the message makes. The message
    /// stays and can be read again.
    Memory,
    /// The outbox has no room for the delete_id that must follow a request that destroys a client's
    /// object. The message stays and can be read again.
    OutFull,
}

impl Display for Fault {
    ghost use Rattle.std.specs.Prelude.{Some};
    ghost use Rattle.wl_objects.specs.Texts.{fault_text};

    ghost output = { λ fault. Some (fault_text fault) };

    fn fmt<W: fmt::Write>(&self, f: &mut Formatter<W>) -> fmt::Result {
        match self {
            Fault::BadSize => f.write_str("F1 bad message size"),
            Fault::UnknownObject => f.write_str("F2 unknown object"),
            Fault::UnknownMessage => f.write_str("F3 unknown message"),
            Fault::BadArgument(place, fault) => {
                let number = argument_fault_number(*fault);
                write!(f, "F4 malformed argument {place} (A{number})")
            }
            Fault::BadObject(place) => write!(f, "F5 bad object, argument {place}"),
            Fault::BadNewId(place) => write!(f, "F6 bad new id, argument {place}"),
            Fault::TrailingBytes => f.write_str("F7 trailing bytes"),
            Fault::MissingDescriptor => f.write_str("F8 missing descriptor"),
            Fault::BadBind => f.write_str("F9 bad bind"),
            Fault::TooManyObjects => f.write_str("F10 too many objects"),
        }
    }
}

/// The number in the names A1 to A4.
fn argument_fault_number(fault: ArgFault) -> u8
    ensures { result ≡ argument_fault_number fault }
{
    match fault {
        ArgFault::Short => 1,
        ArgFault::NullNotAllowed => 2,
        ArgFault::NoEndingNul => 3,
        ArgFault::InnerNul => 4,
    }
}

impl Error for Fault {}

impl Display for SendError {
    ghost use Rattle.std.specs.Prelude.{Some};
    ghost use Rattle.wl_objects.specs.Texts.{send_error_text};

    ghost output = { λ error. Some (send_error_text error) };

    fn fmt<W: fmt::Write>(&self, f: &mut Formatter<W>) -> fmt::Result {
        match self {
            SendError::Failed => f.write_str("this end has failed"),
            SendError::Stale => f.write_str("target is not live"),
            SendError::NoSuchMessage => f.write_str("no such message"),
            SendError::TooOld => f.write_str("message is newer than its target"),
            SendError::WrongArgs(place) => write!(f, "argument {place} does not fit the signature"),
            SendError::BadObject(place) => {
                write!(f, "argument {place} is no live object of its interface")
            }
            SendError::BadBind => f.write_str("no such global at this version"),
            SendError::TooLong => f.write_str("message is too long"),
            SendError::Full => f.write_str("outbox is full"),
            SendError::NoIds => f.write_str("no more objects can be opened"),
            SendError::Memory => f.write_str("out of memory"),
            SendError::NotDroppable => f.write_str("object does not end by an event"),
        }
    }
}

impl Error for SendError {}

impl Display for NextError {
    ghost use Rattle.std.specs.Prelude.{Some};
    ghost use Rattle.wl_objects.specs.Texts.{next_error_text};

    ghost output = { λ error. Some (next_error_text error) };

    fn fmt<W: fmt::Write>(&self, f: &mut Formatter<W>) -> fmt::Result {
        match self {
            NextError::Fault { fault, offset } => {
                write!(f, "{fault}, in the message at byte {offset}")
            }
            NextError::Failed => f.write_str("this end has failed"),
            NextError::Memory => f.write_str("out of memory"),
            NextError::OutFull => f.write_str("outbox has no room for delete_id"),
        }
    }
}

impl Error for NextError {}
