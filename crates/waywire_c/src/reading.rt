//! An end reads a message, and C gets the report.
ghost use Rattle.std.specs.Prelude.{◌≡◌, ◌≢◌, length, None, true, false};
ghost use Rattle.wl_sigs.specs.Side.TheVariants.{Event};
ghost use Rattle.wl_sigs.specs.Rules.{has_server_objects};
ghost use Rattle.wl_connection.specs.Receiving.{found};
ghost use Rattle.wl_client.specs.Reports.{after_next as after_event, event_opens, next_answer};
ghost use Rattle.wl_server.specs.Requests.{after_answering, next_answer as request_answer};
ghost use Rattle.wl_server.specs.Requests.{request_opens, request as found_request};
ghost use Rattle.waywire_c.specs.Ends.{front_opens, read_status, takes_none, told_next, next_entry};
ghost use Rattle.waywire_c.specs.Ends.{next_args, end_after_next};
ghost use Rattle.waywire_c.specs.Statuses.{read_outcome, OrMemory};
ghost use Rattle.waywire_c.specs.Reports.{event_args, fields_of_kind, request_args, TellsArgs};
ghost use Rattle.waywire_c.specs.Reports.{told_by};
ghost use Rattle.waywire_c.specs.Reports.{entry_told, entry_told_by, event_entry, request_entry};
ghost use Rattle.waywire_c.specs.Reports.{told_answering, told_event};

use crate::held::HeldEnd;
use crate::reports::{Report, global_told, nothing, put_incoming, request, unanswered, unread};
use crate::statuses::{OK, next_status};
use crate::values::{CObject, ReportArg};
use wl_client::Client;
use wl_objects::SlotTable;
use wl_server::Server;

/// An end reads the next message. Returns the status.
pub fn read(end: &mut HeldEnd, report: &mut Report, args: &mut [ReportArg]) -> u32
    ensures answer { OrMemory (front_opens end.old) (read_status end.old) result }
    ensures takes_none { takes_none end.old ≡ true → result ≡ read_status end.old }
    ensures report { result ≢ 11 → told_by report.new ≡ told_next (length args.old) end.old }
    ensures entry { result ≢ 11 → entry_told_by report.new ≡ next_entry end.old }
    ensures args { result ≢ 11 → TellsArgs (next_args end.old) args.old args.new }
    ensures state { result ≢ 11 → end.new ≡ end_after_next end.old }
    ensures no_report { result ≡ 11 → told_by report.new ≡ fields_of_kind 0 }
    ensures no_entry { result ≡ 11 → entry_told_by report.new ≡ entry_told None }
    ensures no_args { result ≡ 11 → args.new ≡ args.old }
    ensures unchanged { result ≡ 11 → end.new ≡ end.old }
{
    match end {
        HeldEnd::Client(client) => read_event(client, report, args),
        HeldEnd::Server(server) => read_request(server, true, report, args),
    }
}

/// A client reads the next event. Returns the status.
fn read_event<'t>(
    client: &mut Client<'t, SlotTable>,
    report: &mut Report,
    args: &mut [ReportArg],
) -> u32
    ensures answer { OrMemory (event_opens client.old.core (found client.old.core Event))
        (read_outcome (next_answer client.old)) result }
    ensures takes_none { has_server_objects client.old.core.tables ≡ false
        → result ≡ read_outcome (next_answer client.old) }
    ensures report { result ≢ 11 → told_by report.new ≡ told_event (length args.old) client.old }
    ensures entry { result ≢ 11 → entry_told_by report.new
        ≡ entry_told (event_entry client.old.core.view (next_answer client.old)) }
    ensures args { result ≢ 11 → TellsArgs (event_args (next_answer client.old)) args.old args.new }
    ensures state { result ≢ 11 → client.new ≡ after_event client.old }
    ensures no_report { result ≡ 11 → told_by report.new ≡ fields_of_kind 0 }
    ensures no_entry { result ≡ 11 → entry_told_by report.new ≡ entry_told None }
    ensures no_args { result ≡ 11 → args.new ≡ args.old }
    ensures unchanged { result ≡ 11 → client.new ≡ client.old }
{
    match client.next_with_entry() {
        Ok(Some(read)) => {
            put_incoming(read, args, report);
            let global = global_told(read);
            if let Some(object) = client.replaced() {
                report.replaced = CObject::of(object);
            }
            if let Some(name) = global {
                report.forgotten = !client.remembers(name);
            }
            OK
        }
        Ok(None) => {
            *report = nothing();
            OK
        }
        Err(why) => {
            *report = unread(why);
            next_status(why)
        }
    }
}

/// A server reads the next request, and answers a fault if `answers`. Returns the status.
pub fn read_request<'t>(
    server: &mut Server<'t, SlotTable>,
    answers: bool,
    report: &mut Report,
    args: &mut [ReportArg],
) -> u32
    ensures answer { OrMemory (request_opens server.old.core (found_request server.old))
        (read_outcome (request_answer server.old)) result }
    ensures report { result ≢ 11 → told_by report.new
        ≡ told_answering answers (length args.old) server.old }
    ensures entry { result ≢ 11 → entry_told_by report.new
        ≡ entry_told (request_entry server.old.core.view (request_answer server.old)) }
    ensures args { result ≢ 11
        → TellsArgs (request_args (request_answer server.old)) args.old args.new }
    ensures state { result ≢ 11 → server.new
        ≡ after_answering answers server.old (request_answer server.old) }
    ensures no_report { result ≡ 11 → told_by report.new ≡ fields_of_kind 0 }
    ensures no_entry { result ≡ 11 → entry_told_by report.new ≡ entry_told None }
    ensures no_args { result ≡ 11 → args.new ≡ args.old }
    ensures unchanged { result ≡ 11 → server.new ≡ server.old }
{
    match server.next_answering(answers) {
        Ok(Some(mut read)) => {
            *report = request(&mut read, args);
            OK
        }
        Ok(None) => {
            *report = nothing();
            OK
        }
        Err(why) => {
            *report = if answers {
                unread(why)
            } else {
                let message = server.front();
                unanswered(why, message)
            };
            next_status(why)
        }
    }
}
