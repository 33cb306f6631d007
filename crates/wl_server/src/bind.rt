//! Which binds of its client a server accepts.
ghost use Rattle.std.specs.Prelude.{◌≡◌, ◌&&◌, not};
ghost use Rattle.wl_sigs.specs.Side.TheVariants.{Request as request_side};
ghost use Rattle.wl_objects.specs.Messages.{is_bind};
ghost use Rattle.wl_objects.specs.Seen.{received_of};
ghost use Rattle.wl_server.specs.Requests.{was_advertised, is_good_bind_of};

use crate::globals::{Advertised, global_of};
use wl_objects::{Received, Values, is_bind};
use wl_sigs::{Side, Tables};
use wl_wire::ValueRef;

/// Whether a message is a bind that names no global that was ever advertised in this way.
pub(crate) fn is_bad_bind(
    tables: &Tables,
    globals: &[Advertised],
    opcode: u16,
    message: &Received<'_, '_>,
) -> bool
    ensures { result ≡ (is_bind request_side message.now.entry.iface opcode && not
        (is_good_bind_of tables.now globals.now (received_of message.now).values)) }
{
    is_bind(Side::Request, message.entry.iface, opcode)
        && !is_good_bind(tables, globals, &message.values())
}

/// Whether the arguments of a bind name a global that was ever advertised, with its interface and a
/// version from 1 to the advertised one.
fn is_good_bind(tables: &Tables, globals: &[Advertised], values: &Values<'_>) -> bool
    ensures { result ≡ is_good_bind_of tables.now globals.now values.now }
{
    let mut left = values.clone();
    let name = match left.next() {
        Some(ValueRef::Uint(name)) => name,
        _ => return false,
    };
    match left.next() {
        Some(ValueRef::NewNamed { iface, version, .. }) => {
            left.next().is_none()
                && was_advertised(tables, iface, version, global_of(globals, name))
        }
        _ => false,
    }
}

/// Whether a global, present or withdrawn, has this interface and was advertised with at least this
/// version.
fn was_advertised(tables: &Tables, iface: &[u8], version: u32, global: Option<Advertised>) -> bool
    ensures { result ≡ was_advertised tables.now iface.now version global }
{
    match global {
        Some(global) => {
            tables.name(global.iface) == Some(iface) && 1 <= version && version <= global.version
        }
        None => false,
    }
}
