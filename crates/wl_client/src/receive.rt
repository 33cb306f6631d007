//! How a client reads the events that arrive.
ghost use Rattle.std.specs.Prelude.{◌≡◌, IfOk, IfSome, false};
ghost use Rattle.std.specs.Borrow.{sem};
ghost use Rattle.std.specs.Io.BufRead.{Rests};
ghost use Rattle.wl_sigs.specs.Rules.{has_server_objects};
ghost use Rattle.wl_connection.specs.Outcomes.{unless_memory};
ghost use Rattle.wl_connection.specs.Roles.{IsLentNext, IsReportNext};
ghost use Rattle.wl_client.specs.Reports.{IsClientNext, after_next, client_role, entry_of};
ghost use Rattle.wl_client.specs.Reports.{next_answer};
ghost use Rattle.wl_client.specs.Outlines.{client_row, incoming_in, lent_in, lent_report};
ghost use Rattle.wl_client.specs.Seen.{owned_incoming_in as owned_in, report_in, report_of};

use crate::client::Client;
use crate::report::{Incoming, IncomingWithEntry, OwnedIncoming, OwnedIncomingWithEntry};
use wl_connection::{read, read_owned};
use wl_objects::{NextError, Table};

impl<'t, T: Table> Client<'t, T> {
    /// Reads the next message if it is whole; else returns `None`. If the message is an event by
    /// which the server makes an object, that object is opened: `made` returns it, and `replaced`
    /// the live object that it replaced, if there was one.
    ///
    /// The client fails for good with a fault, and after wl_display.error is reported. If there is
    /// no memory for the object that an event makes, the message stays and can be read again. This
    /// can happen only if the id of the new object is the next one of the server's range that was
    /// never used. Nothing else needs memory, so with tables without such events nothing does.
    pub fn next(&mut self) -> Result<Option<Incoming<'_>>, NextError>
        ensures* state { sem 𝓛
            (Rests (client_row T.row T.Alloc.row T.Table T.Alloc.Allocator T.Alloc.Clone) self.entry
            (λ client. client ≡ unless_memory self.old (after_next self.old) (lent_in result))) }
        ensures answer { IsLentNext client_role self.old (lent_in result) }
        ensures takes_none { has_server_objects self.old.core.tables ≡ false
            → lent_in result ≡ next_answer self.old }
    {
        match read(&mut self.end, &mut self.role)? {
            Some(event) => Ok(Some(event.outline.lend(&self.end))),
            None => Ok(None),
        }
    }

    /// Reads the next message as `next` does; returns its report together with the entry that the
    /// object which it is about had before the message.
    pub fn next_with_entry(&mut self) -> Result<Option<IncomingWithEntry<'_>>, NextError>
        ensures* state { sem 𝓛
            (Rests (client_row T.row T.Alloc.row T.Table T.Alloc.Allocator T.Alloc.Clone) self.entry
            (λ client. client
            ≡ unless_memory self.old (after_next self.old) (incoming_in result))) }
        ensures answer { IsLentNext client_role self.old (incoming_in result) }
        ensures takes_none { has_server_objects self.old.core.tables ≡ false
            → incoming_in result ≡ next_answer self.old }
        ensures entry { IfOk result (λ read. IfSome read (λ told. told.entry
            ≡ entry_of self.old.core.view (lent_report told.incoming))) }
    {
        match read(&mut self.end, &mut self.role)? {
            Some(event) => Ok(Some(IncomingWithEntry {
                incoming: event.outline.lend(&self.end),
                entry: event.entry,
            })),
            None => Ok(None),
        }
    }

    /// Reads the next message as `next` does, and returns an owned report.
    ///
    /// If there is no memory for the report, or for the object that an event makes, the message
    /// stays and can be read again. For the report this can happen only with an `Event` that has
    /// arguments and with an `Error`: `Discarded`, `Deleted`, `Stray` and an event without
    /// arguments need no memory. For the object see `next`.
    pub fn next_owned(&mut self) -> Result<Option<OwnedIncoming<T::Alloc>>, NextError>
        ensures answer { IsClientNext self.old (report_in result) }
        ensures for_report { has_server_objects self.old.core.tables ≡ false
            → IsReportNext client_role self.old (report_in result) }
        ensures state { self.new ≡ unless_memory self.old (after_next self.old) (report_in result) }
    {
        match self.next_owned_with_entry()? {
            Some(read) => Ok(Some(read.incoming)),
            None => Ok(None),
        }
    }

    /// Reads the next message as `next_owned` does; returns its report together with the entry that
    /// the object which it is about had before the message.
    pub fn next_owned_with_entry(
        &mut self,
    ) -> Result<Option<OwnedIncomingWithEntry<T::Alloc>>, NextError>
        ensures answer { IsClientNext self.old (owned_in result) }
        ensures for_report { has_server_objects self.old.core.tables ≡ false
            → IsReportNext client_role self.old (owned_in result) }
        ensures state { self.new ≡ unless_memory self.old (after_next self.old) (owned_in result) }
        ensures entry { IfOk result (λ read. IfSome read (λ told. told.entry
            ≡ entry_of self.old.core.view (report_of told.incoming))) }
    {
        match read_owned(&mut self.end, &mut self.role, &self.alloc)? {
            Some((incoming, event)) => Ok(Some(OwnedIncomingWithEntry {
                incoming,
                entry: event.entry,
            })),
            None => Ok(None),
        }
    }
}
