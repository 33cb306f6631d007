//! One message as a line of a trace.
ghost use Rattle.std.specs.Prelude.{◌≡◌, ◌<◌, ◌+◌, ◌^◌, ◌++◌, OnOk};
ghost use Rattle.wl_wire.specs.Argument.{lent};
ghost use Rattle.wl_objects.specs.Seen.{received_of};
ghost use Rattle.wl_trace_line.specs.Text.{comma_separated};
ghost use Rattle.wl_trace_line.specs.Line.{line, told_interface, taken_with, trace_texts};

use crate::argument::{LineArgument, named_interface, write_placed};
use crate::sink::Sink;
use crate::text::{name_of, write_head};
use std::alloc::{AllocError, Allocator};
use wl_objects::{Lookup, Received, SideTables, Values};
use wl_sigs::Tables;
use wl_wire::{Iface, Kind, ValueRef};

/// Appends the line of a message that was read, and its line feed, before the message changes what
/// `lookup` knows.
///
/// `taken` is the number of tokens taken in the message's direction before it; its first descriptor
/// is printed as `taken + 1`. Without memory, a part of the line may have been appended.
pub fn write_line<A: Allocator, L: Lookup>(
    out: &mut Vec<u8, A>,
    writer: SideTables<'_>,
    lookup: &L,
    message: &Received<'_, '_>,
    taken: u128,
) -> Result<(), AllocError>
    requires { taken < 2 ^ 127 }
    ensures { OnOk result (out.new.items ≡ out.old.items
        ++ line writer.entry.tables.now writer.entry.side (L.reader lookup.now).object
        (received_of message.now) taken) }
{
    let SideTables { tables, side } = writer;
    let signature = message.signature;
    let interface = name_of(tables, message.entry.iface);
    write_head(out, side, interface, message.target.id, signature.name())?;
    out.write_byte(b'(')?;
    let values = message.values();
    write_arguments(out, tables, lookup, signature.kinds(), values, taken)?;
    out.write_bytes(b")\n")
}

/// Prints the arguments of a message; `taken` tokens were taken before them.
fn write_arguments<S: Sink, L: Lookup>(
    out: &mut S,
    tables: &Tables,
    lookup: &L,
    kinds: &[Kind],
    values: Values<'_>,
    taken: u128,
) -> Result<(), S::Error>
    requires { taken < 2 ^ 127 }
    ensures { OnOk result (S.takes out.old (comma_separated (trace_texts tables.now
        (L.reader lookup.now).object taken kinds.now values.entry)) out.new) }
{
    let mut left = values;
    let mut taken = taken;
    'kinds: for (place, kind) in kinds.iter().enumerate() {
        let value = match left.next() {
            Some(value) => value,
            None => return Ok(()),
        };
        let argument = LineArgument {
            value,
            iface: told_interface(lookup, *kind, value),
            number: taken + 1,
        };
        write_placed(out, tables, place, argument)?;
        taken = taken_after(taken, value);
    }
    Ok(())
}

/// The interface of an object: its own if it exists; for a new one, that of the signature.
fn told_interface<L: Lookup>(lookup: &L, kind: Kind, value: ValueRef<'_>) -> Option<Iface>
    ensures { result ≡ told_interface (L.reader lookup.now).object kind (lent value.entry) }
{
    match value {
        ValueRef::Obj(id) => match lookup.object(id) {
            Some(entry) => Some(entry.iface),
            None => None,
        },
        _ => named_interface(kind),
    }
}

/// The number of tokens that have been taken after this argument.
fn taken_after(taken: u128, value: ValueRef<'_>) -> u128
    requires { taken < 2 ^ 127 + 2 ^ 64 }
    ensures { result ≡ taken_with taken (lent value.entry) }
{
    match value {
        ValueRef::Fd => taken + 1,
        _ => taken,
    }
}
