//! The texts that make up a line.
ghost use Rattle.std.specs.Prelude.{◌≡◌, ◌<◌, OnOk, false};
ghost use Rattle.std.specs.Fmt.{digit_glyph};
ghost use Rattle.wl_trace_line.specs.Text.{arrow, object_text, new_text, name_of, known_name};
ghost use Rattle.wl_trace_line.specs.Text.{is_plain, byte_text, string_text, head_text};

use crate::sink::Sink;
use wl_sigs::{Side, Tables};
use wl_wire::Iface;

/// The direction of a message, and a space.
fn arrow(side: Side) -> &'static [u8]
    ensures { result.now ≡ arrow side }
{
    match side {
        Side::Request => b"-> ",
        Side::Event => b"<- ",
    }
}

/// The name of an interface of the tables; empty if it is not there.
pub(crate) fn name_of<'t>(tables: &'t Tables, iface: Iface) -> &'t [u8]
    ensures { result.now ≡ name_of tables.now iface }
{
    match tables.name(iface) {
        Some(name) => name,
        None => &[],
    }
}

/// The name of an object's interface, or that it is not known.
pub(crate) fn known_name<'t>(tables: &'t Tables, iface: Option<Iface>) -> &'t [u8]
    ensures { result.now ≡ known_name tables.now iface }
{
    match iface {
        Some(iface) => name_of(tables, iface),
        None => b"unknown",
    }
}

/// Prints an object: its interface's name, an `@`, its id.
pub(crate) fn write_object<S: Sink>(out: &mut S, interface: &[u8], id: u32) -> Result<(), S::Error>
    ensures { OnOk result (S.takes out.old (object_text interface.now id) out.new) }
{
    out.write_bytes(interface)?;
    out.write_id(id)
}

/// Prints a new object.
pub(crate) fn write_new<S: Sink>(out: &mut S, interface: &[u8], id: u32) -> Result<(), S::Error>
    ensures { OnOk result (S.takes out.old (new_text interface.now id) out.new) }
{
    out.write_bytes(b"new id ")?;
    write_object(out, interface, id)
}

/// Prints a message without its arguments: its direction, its target, its name.
pub(crate) fn write_head<S: Sink>(
    out: &mut S,
    side: Side,
    interface: &[u8],
    id: u32,
    message: &[u8],
) -> Result<(), S::Error>
    ensures { OnOk result
        (S.takes out.old (head_text side interface.now id message.now) out.new) }
{
    out.write_bytes(arrow(side))?;
    write_object(out, interface, id)?;
    out.write_byte(b'.')?;
    out.write_bytes(message)
}

/// Whether a byte of a string is printed unchanged.
fn is_plain(byte: u8) -> bool
    ensures { result ≡ is_plain byte }
{
    matches!(byte, b' '..=b'~') && byte != b'"' && byte != b'\\'
}

/// Prints one byte of a string.
fn write_text_byte<S: Sink>(out: &mut S, byte: u8) -> Result<(), S::Error>
    ensures { OnOk result (S.takes out.old (byte_text byte) out.new) }
{
    if is_plain(byte) {
        return out.write_byte(byte);
    }
    out.write_bytes(&[b'\\', b'x', hex_digit(byte / 16), hex_digit(byte % 16)])
}

/// A hexadecimal digit, of lower case.
fn hex_digit(value: u8) -> u8
    requires { value < 16 }
    ensures { result ≡ digit_glyph false value }
{
    if value < 10 {
        b'0' + value
    } else {
        b'a' + (value - 10)
    }
}

/// Prints a string in quotes.
pub(crate) fn write_string<S: Sink>(out: &mut S, text: &[u8]) -> Result<(), S::Error>
    ensures { OnOk result (S.takes out.old (string_text text.now) out.new) }
{
    out.write_byte(b'"')?;
    'bytes: for byte in text {
        write_text_byte(out, *byte)?;
    }
    out.write_byte(b'"')
}
