//! The status of a call: a number for each refusal and each fault.
//!
//! The refusals S1 to S12 have the numbers 1 to 12; G2, G3 and G5 have 22, 23 and 25; the faults F1
//! to F10 have 31 to 40.
ghost use Rattle.std.specs.Prelude.{◌≡◌};
ghost use Rattle.waywire_c.specs.Statuses.{send_status, global_status, fault_status, next_status};
ghost use Rattle.waywire_c.specs.Statuses.{refused_place, fault_place, fault_spelling};

use wl_objects::{Fault, NextError, SendError};
use wl_server::GlobalError;
use wl_wire::ArgFault;

pub const OK: u32 = 0;

/// S1, G1.
pub const FAILED: u32 = 1;

/// S9, or no room for what is read.
pub const FULL: u32 = 9;

/// S11, G4.
pub const NO_MEMORY: u32 = 11;

/// There is no room for the delete_id that a request requires.
pub const OUT_FULL: u32 = 51;

/// A value that the call does not take.
pub const BAD_VALUE: u32 = 62;

/// Sizes that no end has.
pub const BAD_SIZES: u32 = 63;

/// The tables have no such interface, or the object is not live.
pub const NOT_FOUND: u32 = 64;

/// A client's call of a server, or a server's of a client.
pub const OTHER_END: u32 = 66;

/// TB1: a line of a table text has none of the forms.
pub const BAD_LINE: u32 = 71;

/// TB2: a line of a table text breaks a rule.
pub const BAD_TABLE: u32 = 72;

/// TB4: a table text for a client has an event by which the server makes an object, and the
/// client's tables have none.
pub const FIRST_SERVER_OBJECT: u32 = 73;

/// The status of a refusal to send.
pub fn send_status(error: SendError) -> u32
    ensures { result ≡ send_status error }
{
    match error {
        SendError::Failed => FAILED,
        SendError::Stale => 2,
        SendError::NoSuchMessage => 3,
        SendError::TooOld => 4,
        SendError::WrongArgs(_) => 5,
        SendError::BadObject(_) => 6,
        SendError::BadBind => 7,
        SendError::TooLong => 8,
        SendError::Full => 9,
        SendError::NoIds => 10,
        SendError::Memory => NO_MEMORY,
        SendError::NotDroppable => 12,
    }
}

/// The index of the argument that a refusal names, if it names one.
pub fn send_place(error: SendError) -> Option<usize>
    ensures { result ≡ refused_place error }
{
    match error {
        SendError::WrongArgs(place) | SendError::BadObject(place) => Some(place),
        _ => None,
    }
}

/// The status of a refusal to add or to withdraw a global.
pub fn global_status(error: GlobalError) -> u32
    ensures { result ≡ global_status error }
{
    match error {
        GlobalError::Failed => FAILED,
        GlobalError::BadGlobal => 22,
        GlobalError::TooMany => 23,
        GlobalError::Memory => NO_MEMORY,
        GlobalError::NoSuchGlobal => 25,
    }
}

/// The status of a fault.
pub fn fault_status(fault: Fault) -> u32
    ensures { result ≡ fault_status fault }
{
    match fault {
        Fault::BadSize => 31,
        Fault::UnknownObject => 32,
        Fault::UnknownMessage => 33,
        Fault::BadArgument(..) => 34,
        Fault::BadObject(_) => 35,
        Fault::BadNewId(_) => 36,
        Fault::TrailingBytes => 37,
        Fault::MissingDescriptor => 38,
        Fault::BadBind => 39,
        Fault::TooManyObjects => 40,
    }
}

/// The status of a `next` that read no message.
pub fn next_status(error: NextError) -> u32
    ensures { result ≡ next_status error }
{
    match error {
        NextError::Fault { fault, .. } => fault_status(fault),
        NextError::Failed => FAILED,
        NextError::Memory => NO_MEMORY,
        NextError::OutFull => OUT_FULL,
    }
}

/// The index of the argument that a fault names; 0 if it names none.
pub fn fault_place(fault: Fault) -> usize
    ensures { result ≡ fault_place fault }
{
    match fault {
        Fault::BadArgument(place, _) | Fault::BadObject(place) | Fault::BadNewId(place) => place,
        _ => 0,
    }
}

/// The number in the names A1 to A4 of a misspelling; 0 for other faults.
pub fn fault_spelling(fault: Fault) -> u32
    ensures { result ≡ fault_spelling fault }
{
    match fault {
        Fault::BadArgument(_, ArgFault::Short) => 1,
        Fault::BadArgument(_, ArgFault::NullNotAllowed) => 2,
        Fault::BadArgument(_, ArgFault::NoEndingNul) => 3,
        Fault::BadArgument(_, ArgFault::InnerNul) => 4,
        _ => 0,
    }
}
