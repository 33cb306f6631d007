//! Printing what a client has read.
ghost use Rattle.std.specs.Prelude.{◌≡◌, Some};
ghost use Rattle.std.specs.Fmt.{WritesOnOk};
ghost use Rattle.wl_sigs.specs.Side.TheVariants.{Event as event_side};
ghost use Rattle.wl_client.specs.Shown.{error_text, incoming_text, interface_in};

use crate::report::{Incoming, IncomingWithEntry};
use std::fmt::{self, Display, Formatter};
use wl_sigs::{Side, Tables};
use wl_trace_line::{MessageHead, ObjectName, Quoted, ReportLine};

/// A report with the tables with which it was read. `{}` prints it as the line of its message in a
/// trace, as far as the report has what the line shows (`ReportLine`). The report of an event for a
/// dead object has no arguments: they are printed as two dots.
#[derive(Clone, Copy)]
pub struct ShownIncoming<'t, 'a> {
    tables: &'t Tables,
    read: IncomingWithEntry<'a>,
}

impl<'a> IncomingWithEntry<'a> {
    /// The report, for printing.
    pub fn shown<'t>(&self, tables: &'t Tables) -> ShownIncoming<'t, 'a>
        ensures { incoming_text result.tables.now result.read
            ≡ incoming_text tables.now self.now }
    {
        ShownIncoming {
            tables,
            read: *self,
        }
    }
}

impl<'t> ShownIncoming<'t, '_> {
    /// The event with this opcode for this target.
    fn head(&self, target: u32, opcode: u16) -> MessageHead<'t>
        ensures tables { result.tables.now ≡ self.now.tables.now }
        ensures side { result.side ≡ event_side }
        ensures target { result.target ≡ target }
        ensures entry { result.entry ≡ self.now.read.entry }
        ensures opcode { result.opcode ≡ opcode }
    {
        MessageHead {
            tables: self.tables,
            side: Side::Event,
            target,
            entry: self.read.entry,
            opcode,
        }
    }
}

impl Display for ShownIncoming<'_, '_> {
    ghost output = { λ shown. Some (incoming_text shown.tables.now shown.read) };

    fn fmt<W: fmt::Write>(&self, f: &mut Formatter<W>) -> fmt::Result {
        match self.read.incoming {
            Incoming::Event {
                target,
                opcode,
                args,
            } => {
                let head = self.head(target.id, opcode);
                ReportLine { head, args }.fmt(f)
            }
            Incoming::Discarded { target, opcode, .. } => {
                let head = self.head(target.id, opcode);
                write!(f, "{head}(..)")
            }
            Incoming::Deleted { object } => {
                let id = object.id;
                write!(f, "<- wl_display@1.delete_id({id})")
            }
            Incoming::Stray { id } => write!(f, "<- wl_display@1.delete_id({id})"),
            Incoming::Error { id, code, text, .. } => self.fmt_error(f, id, code, text),
        }
    }
}

impl ShownIncoming<'_, '_> {
    fn fmt_error<W: fmt::Write>(
        &self,
        f: &mut Formatter<W>,
        id: u32,
        code: u32,
        text: &[u8],
    ) -> fmt::Result
        ensures { WritesOnOk W.write_str_gives f.old result
            (error_text (interface_in self.now.tables.now self.now.read.entry) id code text.now)
            f.new }
    {
        let text = Quoted { text };
        if id == 0 {
            return write!(f, "<- wl_display@1.error(nil, {code}, {text})");
        }
        let object = ObjectName {
            tables: self.tables,
            iface: match self.read.entry {
                Some(entry) => Some(entry.iface),
                None => None,
            },
            id,
        };
        write!(f, "<- wl_display@1.error({object}, {code}, {text})")
    }
}
