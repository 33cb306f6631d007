//! Printing a message that an end has read.
ghost use Rattle.std.specs.Prelude.{◌≡◌, OnOk, Some, option_copied, option_map};
ghost use Rattle.wl_wire.specs.Argument.{lent};
ghost use Rattle.wl_objects.specs.Parsed.{lent_got, seen_args};
ghost use Rattle.wl_object_map.specs.declared.object.Entry.{Entry as EntryRecord};
ghost use Rattle.wl_trace_line.specs.Text.{known_name, object_text, string_text};
ghost use Rattle.wl_trace_line.specs.Text.{comma_separated};
ghost use Rattle.wl_trace_line.specs.Report.{named_id, wire_argument, descriptor_number};
ghost use Rattle.wl_trace_line.specs.Report.{known_signature};
ghost use Rattle.wl_trace_line.specs.Report.{message_name, message_kinds, report_texts};
ghost use Rattle.wl_trace_line.specs.Report.{shown_head, shown_line};

use crate::argument::{LineArgument, named_interface, write_placed};
use crate::sink::Sink;
use crate::text::{known_name, write_head, write_object, write_string};
use std::fmt::{self, Display, Formatter};
use wl_objects::{Args, Entry, GotRef, Named};
use wl_sigs::{Side, Signature, Tables};
use wl_wire::{Iface, Kind, ValueRef};

/// Which message an end reports. `{}` prints it as in a trace, without its arguments.
#[derive(Clone, Copy)]
pub struct MessageHead<'t> {
    pub tables: &'t Tables,
    pub side: Side,
    /// The message's target: its id, and what its end knows about it.
    pub target: u32,
    pub entry: Option<Entry>,
    pub opcode: u16,
}

impl<'t> MessageHead<'t> {
    /// The signature of the message, if the target is known.
    fn signature(&self) -> Option<&'t Signature>
        ensures { option_copied result ≡ known_signature self.now.tables.now self.now.side
            self.now.entry self.now.opcode }
    {
        let entry = self.entry?;
        self.tables.message(entry.iface, self.side, self.opcode)
    }

    fn name(&self) -> &'t [u8]
        ensures { result.now ≡ message_name (known_signature self.now.tables.now self.now.side
            self.now.entry self.now.opcode) }
    {
        match self.signature() {
            Some(signature) => signature.name(),
            None => b"unknown",
        }
    }

    fn kinds(&self) -> &'t [Kind]
        ensures { result.now ≡ message_kinds (known_signature self.now.tables.now self.now.side
            self.now.entry self.now.opcode) }
    {
        match self.signature() {
            Some(signature) => signature.kinds(),
            None => &[],
        }
    }

    fn write<S: Sink>(&self, out: &mut S) -> Result<(), S::Error>
        ensures { OnOk result (S.takes out.old (shown_head self.now) out.new) }
    {
        let interface = known_name(self.tables, iface_in(self.entry));
        write_head(out, self.side, interface, self.target, self.name())
    }
}

impl Display for MessageHead<'_> {
    ghost output = { λ head. Some (shown_head head) };

    fn fmt<W: fmt::Write>(&self, f: &mut Formatter<W>) -> fmt::Result {
        self.write(f)
    }
}

/// A message as an end reports it. `{}` prints it as the line of a trace, without the line feed.
///
/// A report knows less than a trace: an object whose interface the signature leaves open is printed
/// as `unknown@id`, and a descriptor by its token. All else is the same.
#[derive(Clone, Copy)]
pub struct ReportLine<'t, 'a> {
    pub head: MessageHead<'t>,
    pub args: Args<'a>,
}

impl ReportLine<'_, '_> {
    fn write<S: Sink>(&self, out: &mut S) -> Result<(), S::Error>
        ensures { OnOk result (S.takes out.old (shown_line self.now) out.new) }
    {
        self.head.write(out)?;
        out.write_byte(b'(')?;
        write_arguments(out, self.head.tables, self.head.kinds(), self.args)?;
        out.write_byte(b')')
    }
}

impl Display for ReportLine<'_, '_> {
    ghost output = { λ line. Some (shown_line line) };

    fn fmt<W: fmt::Write>(&self, f: &mut Formatter<W>) -> fmt::Result {
        self.write(f)
    }
}

/// A string of a message, printed in quotes as in a trace.
#[derive(Clone, Copy)]
pub struct Quoted<'a> {
    pub text: &'a [u8],
}

impl Display for Quoted<'_> {
    ghost output = { λ quoted. Some (string_text quoted.text.now) };

    fn fmt<W: fmt::Write>(&self, f: &mut Formatter<W>) -> fmt::Result {
        write_string(f, self.text)
    }
}

/// An object by the name of its interface and its id.
#[derive(Clone, Copy)]
pub struct ObjectName<'a> {
    pub tables: &'a Tables,
    /// `None` if the interface is not known.
    pub iface: Option<Iface>,
    pub id: u32,
}

impl Display for ObjectName<'_> {
    ghost output = { λ name. Some (object_text (known_name name.tables.now name.iface) name.id) };

    fn fmt<W: fmt::Write>(&self, f: &mut Formatter<W>) -> fmt::Result {
        write_object(f, known_name(self.tables, self.iface), self.id)
    }
}

/// Prints the arguments of a report.
fn write_arguments<S: Sink>(
    out: &mut S,
    tables: &Tables,
    kinds: &[Kind],
    args: Args<'_>,
) -> Result<(), S::Error>
    ensures { OnOk result (S.takes out.old (comma_separated
        (report_texts tables.now kinds.now (seen_args args.entry))) out.new) }
{
    let mut left = args;
    'kinds: for (place, kind) in kinds.iter().enumerate() {
        let got = match left.next() {
            Some(got) => got,
            None => return Ok(()),
        };
        let argument = LineArgument {
            value: wire_argument(got),
            iface: named_interface(*kind),
            number: descriptor_number(got) as u128,
        };
        write_placed(out, tables, place, argument)?;
    }
    Ok(())
}

/// The argument as it was on the wire.
fn wire_argument(got: GotRef<'_>) -> ValueRef<'_>
    ensures { lent result ≡ wire_argument (lent_got got.entry) }
{
    match got {
        GotRef::Int(number) => ValueRef::Int(number),
        GotRef::Uint(number) => ValueRef::Uint(number),
        GotRef::Fixed(number) => ValueRef::Fixed(number),
        GotRef::Str(text) => ValueRef::Str(text),
        GotRef::Obj(named) => ValueRef::Obj(named_id(named)),
        GotRef::New(object) => ValueRef::New(object.id),
        GotRef::Bound {
            iface,
            version,
            object,
        } => ValueRef::NewNamed {
            iface,
            version,
            id: object.id,
        },
        GotRef::Array(bytes) => ValueRef::Array(bytes),
        GotRef::Fd(_) => ValueRef::Fd,
    }
}

/// The number shown for a descriptor: its token.
fn descriptor_number(got: GotRef<'_>) -> u32
    ensures { result ≡ descriptor_number (lent_got got.entry) }
{
    match got {
        GotRef::Fd(token) => token,
        _ => 0,
    }
}

/// The id of an object on the wire, dead or alive.
fn named_id(named: Named) -> u32
    ensures { result ≡ named_id named }
{
    match named {
        Named::Null => 0,
        Named::Live(object) | Named::Dead(object) => object.id,
    }
}

/// The interface of an entry.
fn iface_in(entry: Option<Entry>) -> Option<Iface>
    ensures { result ≡ option_map (λ (e : EntryRecord). e.iface) entry }
{
    match entry {
        Some(entry) => Some(entry.iface),
        None => None,
    }
}
