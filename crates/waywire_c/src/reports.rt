//! Reports as C has them.
ghost use Rattle.std.specs.Prelude.{◌≡◌, min, length, true, Option, None, Some};
ghost use Rattle.wl_object_map.specs.declared.object.Entry.{Entry};
ghost use Rattle.wl_objects.specs.Parsed.{seen_args};
ghost use Rattle.wl_client.specs.Outlines.{lent_report as lent_event};
ghost use Rattle.wl_server.specs.Seen.{lent_report as lent_request};
ghost use Rattle.waywire_c.specs.Reports.{args_of_event, told_global_name, fields_of_kind};
ghost use Rattle.waywire_c.specs.Reports.{TellsArgs};
ghost use Rattle.waywire_c.specs.Reports.{told_by, entry_told, entry_told_by, told_incoming};
ghost use Rattle.waywire_c.specs.Reports.{is_registry_entry};
ghost use Rattle.waywire_c.specs.Reports.{told_left, told_message, told_unread};

use crate::statuses::{fault_place, fault_spelling};
use crate::values::{CObject, ReportArg, named, show, start_of_text, start_of_tokens};
use wl_client::{Incoming, IncomingWithEntry};
use wl_objects::{Args, Entry, GotRef, NextError, REGISTRY};
use wl_server::RequestWithEntry;
use wl_sigs::event::wl_registry::GLOBAL;
use wl_wire::{HEADER_LEN, Header};

/// What a report is about.
const NOTHING: u32 = 0;

const MESSAGE: u32 = 1;

const DISCARDED: u32 = 2;

const DELETED: u32 = 3;

const STRAY: u32 = 4;

const ERROR: u32 = 5;

const FAULT: u32 = 6;

/// A message that was read, or why none was. What it points to lies in the end, until the next call
/// that may change it.
#[repr(C)]
#[derive(Clone, Copy)]
pub struct Report {
    pub kind: u32,
    pub opcode: u32,
    pub target: CObject,
    /// How many arguments the message has.
    pub arg_count: usize,
    /// The tokens of a message that was discarded.
    pub tokens: *const u32,
    pub token_count: usize,
    /// The id of a stray delete_id, or that of wl_display.error.
    pub id: u32,
    /// The code of wl_display.error, the kind of the object that it names, and its text.
    pub code: u32,
    pub named: u32,
    /// Which of A1 to A4 a fault has, the index of its argument, and where its message begins.
    pub spelling: u32,
    pub text: *const u8,
    pub text_length: usize,
    pub place: usize,
    pub offset: u64,
    /// The live object that an event's new object replaced; zeros if it replaced none.
    pub replaced: CObject,
    /// The interface and version, before the message, of the object that the report is about; zeros
    /// if there is none.
    pub interface: u16,
    /// Whether it is wl_registry.global, and the client does not remember the global.
    pub forgotten: bool,
    pub version: u32,
}

/// A report of this kind with nothing else.
#[inline(always)]
fn plain(kind: u32) -> Report
    ensures report { told_by result ≡ fields_of_kind kind }
    ensures entry { entry_told_by result ≡ entry_told None }
{
    Report {
        kind,
        opcode: 0,
        target: CObject::none(),
        arg_count: 0,
        tokens: start_of_tokens(&[]),
        token_count: 0,
        id: 0,
        code: 0,
        named: 0,
        spelling: 0,
        text: start_of_text(b""),
        text_length: 0,
        place: 0,
        offset: 0,
        replaced: CObject::none(),
        interface: 0,
        forgotten: false,
        version: 0,
    }
}

/// The report if no message is whole.
#[inline(always)]
pub fn nothing() -> Report
    ensures report { told_by result ≡ fields_of_kind 0 }
    ensures entry { entry_told_by result ≡ entry_told None }
{
    plain(NOTHING)
}

/// Writes arguments to the first slots, as many as there are slots, and returns their number.
#[inline(always)]
fn put_shown(args: &mut Args<'_>, slots: &mut [ReportArg]) -> usize
    ensures count { result ≡ min (length (seen_args args.old)) (length slots.old) }
    ensures told { TellsArgs (seen_args args.old) slots.old slots.new }
{
    let count = args.len().min(slots.len());
    'places: for place in 0..count {
        if let Some(got) = args.next() {
            show(got, &mut slots[place]);
        }
    }
    count
}

/// A report with the interface and the version of an entry.
#[inline(always)]
fn with_entry(report: Report, entry: Option<Entry>) -> Report
    ensures report { told_by result ≡ told_by report }
    ensures entry { entry_told_by result ≡ entry_told entry }
{
    let (interface, version) = match entry {
        Some(entry) => (entry.iface.0, entry.version),
        None => (0, 0),
    };
    Report {
        interface,
        version,
        ..report
    }
}

/// The report of a request.
#[inline(always)]
pub fn request(read: &mut RequestWithEntry<'_>, slots: &mut [ReportArg]) -> Report
    ensures report { told_by result
        ≡ told_message (length slots.old) (lent_request read.old.request).target
        (lent_request read.old.request).opcode (lent_request read.old.request).args }
    ensures entry { entry_told_by result ≡ entry_told (Some read.old.entry) }
    ensures args { TellsArgs (lent_request read.old.request).args slots.old slots.new }
{
    let RequestWithEntry { request, entry } = read;
    let report = Report {
        opcode: u32::from(request.opcode),
        target: CObject::of(request.target),
        arg_count: put_shown(&mut request.args, slots),
        ..plain(MESSAGE)
    };
    with_entry(report, Some(*entry))
}

/// The name of the global that is announced to a client, if it reads wl_registry.global.
#[inline(always)]
pub fn global_told(read: IncomingWithEntry<'_>) -> Option<u32>
    ensures { result ≡ told_global_name read.entry.entry (lent_event read.entry.incoming) }
{
    match read.entry {
        Some(entry) if entry.iface == REGISTRY => name_told(read.incoming),
        _ => None,
    }
}

/// The name in an event of a registry, if it is wl_registry.global. It is kept apart from the other
/// events, which need none of it.
#[inline(never)]
fn name_told(read: Incoming<'_>) -> Option<u32>
    ensures { (entry : Option Entry) → is_registry_entry entry ≡ true
        → result ≡ told_global_name entry (lent_event read.entry) }
{
    match read {
        Incoming::Event {
            opcode,
            mut args,
            ..
        } if opcode == GLOBAL => match args.next() {
            Some(GotRef::Uint(name)) => Some(name),
            _ => None,
        },
        _ => None,
    }
}

/// Writes the report of what a client read, with the entry of the object that it is about.
#[inline(always)]
pub fn put_incoming(read: IncomingWithEntry<'_>, slots: &mut [ReportArg], report: &mut Report)
    ensures report { told_by report.new
        ≡ told_incoming (length slots.old) (lent_event read.entry.incoming) }
    ensures entry { entry_told_by report.new ≡ entry_told read.entry.entry }
    ensures args { TellsArgs (args_of_event (lent_event read.entry.incoming)) slots.old slots.new }
{
    put_event(read.incoming, slots, report);
    if let Some(entry) = read.entry {
        report.interface = entry.iface.0;
        report.version = entry.version;
    }
}

/// Writes the report of what a client read, case by case: a report that is returned would go
/// through registers that the cases share.
#[inline(always)]
fn put_event(read: Incoming<'_>, slots: &mut [ReportArg], report: &mut Report)
    ensures report { told_by report.new
        ≡ told_incoming (length slots.old) (lent_event read.entry) }
    ensures entry { entry_told_by report.new ≡ entry_told None }
    ensures args { TellsArgs (args_of_event (lent_event read.entry)) slots.old slots.new }
{
    match read {
        Incoming::Event {
            target,
            opcode,
            mut args,
        } => {
            *report = Report {
                opcode: u32::from(opcode),
                target: CObject::of(target),
                arg_count: put_shown(&mut args, slots),
                ..plain(MESSAGE)
            };
        }
        Incoming::Discarded {
            target,
            opcode,
            tokens,
        } => {
            *report = Report {
                opcode: u32::from(opcode),
                target: CObject::of(target),
                tokens: start_of_tokens(tokens),
                token_count: tokens.len(),
                ..plain(DISCARDED)
            };
        }
        Incoming::Deleted { object } => {
            *report = Report {
                target: CObject::of(object),
                ..plain(DELETED)
            };
        }
        Incoming::Stray { id } => *report = Report { id, ..plain(STRAY) },
        Incoming::Error {
            id,
            named: object,
            code,
            text,
        } => {
            let about = named(object);
            *report = Report {
                id,
                code,
                named: about.kind,
                target: about.object,
                text: start_of_text(text),
                text_length: text.len(),
                ..plain(ERROR)
            };
        }
    }
}

/// The report if no message can be read.
pub fn unread(why: NextError) -> Report
    ensures report { told_by result ≡ told_unread why }
    ensures entry { entry_told_by result ≡ entry_told None }
{
    match why {
        NextError::Fault { fault, offset } => Report {
            spelling: fault_spelling(fault),
            place: fault_place(fault),
            offset,
            ..plain(FAULT)
        },
        _ => nothing(),
    }
}

/// The report if no message can be read, and a fault is left to the caller: it has the bytes of the
/// message, and its target's id and opcode.
pub fn unanswered(why: NextError, message: &[u8]) -> Report
    ensures report { told_by result ≡ told_left why message.now }
    ensures entry { entry_told_by result ≡ entry_told None }
{
    match why {
        NextError::Fault { .. } if message.len() >= HEADER_LEN => {
            let header = Header::at_front_of(message);
            Report {
                id: header.object,
                opcode: u32::from(header.opcode),
                text: start_of_text(message),
                text_length: message.len(),
                ..unread(why)
            }
        }
        _ => unread(why),
    }
}
