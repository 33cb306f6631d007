//! The object that a message makes.
ghost use Rattle.std.specs.Prelude.{◌≡◌};
ghost use Rattle.wl_wire.specs.Argument.{lent};
ghost use Rattle.wl_objects.specs.Messages.{made, made_by};
ghost use Rattle.wl_objects.specs.Seen.{received_of};

use crate::reading::Received;
use crate::values::Values;
use wl_sigs::{Tables, is_new_object};
use wl_wire::{Iface, Kind, ValueRef};

/// A new object: its id, its interface and its version.
#[derive(Clone, Copy, Debug, PartialEq, Eq)]
pub struct NewObject {
    pub id: u32,
    pub iface: Iface,
    pub version: u32,
}

/// The object that a message makes, if it makes one: with the signature's interface and the
/// target's version, or with those that a bind names.
#[inline(always)]
pub fn made_by_message(tables: &Tables, message: &Received<'_, '_>) -> Option<NewObject>
    ensures { result ≡ made tables.now message.now.entry.version
        message.now.signature.now.kinds (received_of message.now).values }
{
    let signature = message.signature;
    // Fast path: most messages make nothing.
    if !signature.has_new_object {
        return None;
    }
    let values = message.values();
    made_among(tables, message.entry.version, signature.kinds(), &values)
}

/// The object that one of a message's arguments makes, if one does.
fn made_among(
    tables: &Tables,
    version: u32,
    kinds: &[Kind],
    values: &Values<'_>,
) -> Option<NewObject>
    ensures { result ≡ made tables.now version kinds.now values.now }
{
    'kinds: for (place, kind) in kinds.iter().enumerate() {
        // For a kind that makes nothing, no value is built.
        if !is_new_object(*kind) {
            continue;
        }
        let value = match values.at(place) {
            Some(value) => value,
            None => return None,
        };
        if let Some(made) = made_by(tables, version, *kind, value) {
            return Some(made);
        }
    }
    None
}

fn made_by(tables: &Tables, version: u32, kind: Kind, value: ValueRef<'_>) -> Option<NewObject>
    ensures { result ≡ made_by tables.now version kind (lent value.entry) }
{
    match (kind, value) {
        (Kind::New(Some(iface)) | Kind::NewByServer(iface), ValueRef::New(id)) => {
            Some(NewObject { id, iface, version })
        }
        (Kind::New(None), ValueRef::NewNamed { iface, version, id }) => {
            let iface = tables.interface(iface)?;
            Some(NewObject { id, iface, version })
        }
        _ => None,
    }
}
