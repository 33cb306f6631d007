//! The tables and the side of a writer, and the messages with a meaning of their own.
ghost use Rattle.std.specs.Prelude.{◌≡◌};
ghost use Rattle.wl_objects.specs.Messages.{is_error, is_delete_id, is_bind, is_hidden, maker_by};

use wl_object_map::Maker;
use wl_sigs::event::wl_display::{DELETE_ID, ERROR};
use wl_sigs::request::wl_registry::BIND;
use wl_sigs::{Side, Tables};
use wl_wire::Iface;

/// The tables, and the side that writes.
#[derive(Clone, Copy)]
pub struct SideTables<'t> {
    pub tables: &'t Tables,
    pub side: Side,
}

/// Who makes the objects of messages of a side.
pub fn maker_by(side: Side) -> Maker
    ensures { result ≡ maker_by side }
{
    match side {
        Side::Request => Maker::Client,
        Side::Event => Maker::Server,
    }
}

/// The index of wl_display in all tables.
pub const DISPLAY: Iface = Iface(0);

/// The index of wl_registry in all tables.
pub const REGISTRY: Iface = Iface(1);

/// Whether this is wl_display.error, whose object may be null or unknown to the reader.
pub fn is_error(side: Side, iface: Iface, opcode: u16) -> bool
    ensures { result ≡ is_error side iface opcode }
{
    matches!((side, iface, opcode), (Side::Event, DISPLAY, ERROR))
}

/// Whether this is wl_display.delete_id.
pub fn is_delete_id(side: Side, iface: Iface, opcode: u16) -> bool
    ensures { result ≡ is_delete_id side iface opcode }
{
    matches!((side, iface, opcode), (Side::Event, DISPLAY, DELETE_ID))
}

/// Whether this is wl_registry.bind.
pub fn is_bind(side: Side, iface: Iface, opcode: u16) -> bool
    ensures { result ≡ is_bind side iface opcode }
{
    matches!((side, iface, opcode), (Side::Request, REGISTRY, BIND))
}

/// Whether an end writes this message only by special calls: bind, and the events of wl_display and
/// wl_registry.
pub fn is_hidden(side: Side, iface: Iface, opcode: u16) -> bool
    ensures { result ≡ is_hidden side iface opcode }
{
    match side {
        Side::Request => matches!((iface, opcode), (REGISTRY, BIND)),
        Side::Event => matches!(iface, DISPLAY | REGISTRY),
    }
}
