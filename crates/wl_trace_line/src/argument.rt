//! One argument of a message, printed.
ghost use Rattle.std.specs.Prelude.{◌≡◌, ◌++◌, OnOk, codes, option_copied};
ghost use Rattle.std.specs.Fmt.{decimal};
ghost use Rattle.wl_wire.specs.Argument.{lent};
ghost use Rattle.wl_sigs.specs.Tables.{named_interface};
ghost use Rattle.wl_trace_line.specs.Text.{new_text, string_text};
ghost use Rattle.wl_trace_line.specs.Argument.{argument_text, argument_object, argument_string};
ghost use Rattle.wl_trace_line.specs.Argument.{placed_text};

use crate::sink::Sink;
use crate::text::{known_name, write_new, write_object, write_string};
use wl_sigs::Tables;
use wl_wire::{Iface, Kind, ValueRef};

/// An argument with what a line shows besides its value.
#[derive(Clone, Copy)]
pub(crate) struct LineArgument<'a> {
    pub value: ValueRef<'a>,
    /// The interface of the object, if the argument is one and its interface is known.
    pub iface: Option<Iface>,
    /// The number of the descriptor, if the argument is one.
    pub number: u128,
}

/// Prints the argument at an index, from 0, after a comma and a space unless it is the first.
pub(crate) fn write_placed<S: Sink>(
    out: &mut S,
    tables: &Tables,
    place: usize,
    argument: LineArgument<'_>,
) -> Result<(), S::Error>
    ensures { OnOk result (S.takes out.old (placed_text place (argument_text tables.now
        argument.entry.iface argument.entry.number (lent argument.entry.value))) out.new) }
{
    if place > 0 {
        out.write_bytes(b", ")?;
    }
    write_argument(out, tables, argument)
}

fn write_argument<S: Sink>(
    out: &mut S,
    tables: &Tables,
    argument: LineArgument<'_>,
) -> Result<(), S::Error>
    ensures { OnOk result (S.takes out.old (argument_text tables.now argument.entry.iface
        argument.entry.number (lent argument.entry.value)) out.new) }
{
    match argument.value {
        ValueRef::Int(number) => out.write_number(number),
        ValueRef::Uint(number) => out.write_number(number),
        ValueRef::Fixed(number) => out.write_fixed(number),
        ValueRef::Str(text) => write_text(out, text),
        ValueRef::Obj(id) => write_known(out, known_name(tables, argument.iface), id),
        ValueRef::New(id) => write_new(out, known_name(tables, argument.iface), id),
        ValueRef::NewNamed { iface, version, id } => write_named(out, iface, version, id),
        ValueRef::Array(bytes) => write_array(out, bytes.len()),
        ValueRef::Fd => write_descriptor(out, argument.number),
    }
}

/// Prints a string argument.
fn write_text<S: Sink>(out: &mut S, text: Option<&[u8]>) -> Result<(), S::Error>
    ensures { OnOk result
        (S.takes out.old (argument_string (option_copied text.entry)) out.new) }
{
    match text {
        Some(text) => write_string(out, text),
        None => out.write_bytes(b"nil"),
    }
}

/// Prints an object argument.
fn write_known<S: Sink>(out: &mut S, interface: &[u8], id: u32) -> Result<(), S::Error>
    ensures { OnOk result (S.takes out.old (argument_object interface.now id) out.new) }
{
    if id == 0 {
        return out.write_bytes(b"nil");
    }
    write_object(out, interface, id)
}

/// Prints a new object whose signature gives no interface: its interface as a string, its version,
/// and the object.
fn write_named<S: Sink>(out: &mut S, iface: &[u8], version: u32, id: u32) -> Result<(), S::Error>
    ensures { OnOk result (S.takes out.old (string_text iface.now
        ++ (codes ", " ++ decimal version ++ codes ", ") ++ new_text iface.now id) out.new) }
{
    write_string(out, iface)?;
    out.write_bytes(b", ")?;
    out.write_number(version)?;
    out.write_bytes(b", ")?;
    write_new(out, iface, id)
}

/// Prints an array; a line shows only its length.
fn write_array<S: Sink>(out: &mut S, len: usize) -> Result<(), S::Error>
    ensures { OnOk result (S.takes out.old (codes "array[" ++ decimal len ++ codes "]") out.new) }
{
    out.write_bytes(b"array[")?;
    out.write_number(len)?;
    out.write_byte(b']')
}

/// Prints a descriptor by its number.
fn write_descriptor<S: Sink>(out: &mut S, number: u128) -> Result<(), S::Error>
    ensures { OnOk result (S.takes out.old (codes "fd " ++ decimal number) out.new) }
{
    out.write_bytes(b"fd ")?;
    out.write_number(number)
}

/// The interface that a signature gives an object.
pub(crate) fn named_interface(kind: Kind) -> Option<Iface>
    ensures { result ≡ named_interface kind }
{
    match kind {
        Kind::Obj { iface, .. } => iface,
        Kind::New(iface) => iface,
        Kind::NewByServer(iface) => Some(iface),
        _ => None,
    }
}
