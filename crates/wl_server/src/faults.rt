//! What a server writes after a fault: wl_display.error, which ends the connection.
ghost use Rattle.std.specs.Prelude.{◌≡◌, ◌≤◌, IsTrue, false, length};
ghost use Rattle.wl_objects.specs.Writing.{has_no_nul};
ghost use Rattle.wl_connection.specs.Sending.{max_error_text};
ghost use Rattle.wl_server.specs.Requests.{fault_code, fault_message};
ghost use Rattle.wl_server.specs.Steps.{core_told};

use wl_connection::Core;
use wl_object_map::DISPLAY_ID;
use wl_objects::{Fault, NextError, Table};

/// Writes the error event of a fault, which ends the connection.
pub(crate) fn report_fault<T: Table>(core: &mut Core<'_, T>, why: NextError)
    requires { core.old.failed ≡ false }
    ensures { core.new ≡ core_told core.old why }
{
    if let NextError::Fault { fault, .. } = why {
        core.write_error(DISPLAY_ID, fault_code(fault), fault_message(fault));
    }
}

/// The code of the error: 0 invalid_object, 1 invalid_method, 2 no_memory.
fn fault_code(fault: Fault) -> u32
    ensures { result ≡ fault_code fault }
{
    match fault {
        Fault::UnknownObject | Fault::BadBind => 0,
        Fault::TooManyObjects => 2,
        _ => 1,
    }
}

/// The text of the error.
fn fault_message(fault: Fault) -> &'static [u8]
    ensures text { result.now ≡ fault_message fault }
    ensures plain { IsTrue (has_no_nul result.now) }
    ensures short { length result.now ≤ max_error_text }
{
    match fault {
        Fault::BadSize => b"bad message size",
        Fault::UnknownObject => b"unknown object",
        Fault::UnknownMessage => b"unknown request",
        Fault::BadArgument(_, _) | Fault::TrailingBytes => b"malformed request",
        Fault::BadObject(_) => b"bad object argument",
        Fault::BadNewId(_) => b"bad new id",
        Fault::MissingDescriptor => b"missing descriptor",
        Fault::BadBind => b"bad bind",
        Fault::TooManyObjects => b"too many objects",
    }
}
