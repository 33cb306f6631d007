//! Calls for servers only. With a client each returns `OTHER_END`, and does nothing.
ghost use Rattle.std.specs.Prelude.{◌≡◌, ◌≢◌, ◌↔◌, length, true, None, Ok};
ghost use Rattle.wl_server.specs.State.{with_core};
ghost use Rattle.wl_server.specs.Announcing.{after_announce, owed, Fitting};
ghost use Rattle.wl_server.specs.Calls.{add_answer, after_drop, after_end, after_error};
ghost use Rattle.wl_server.specs.Calls.{after_withdraw, end_refusal, with_allowed};
ghost use Rattle.wl_server.specs.Requests.{after_next, next_answer, request, request_opens};
ghost use Rattle.wl_server.specs.Requests.{unless_fault};
ghost use Rattle.wl_server.specs.Calls.{drop_refusal, error_refusal, with_global, withdraw_refusal};
ghost use Rattle.waywire_c.specs.declared.held.HeldEnd.TheVariants.{Server};
ghost use Rattle.waywire_c.specs.Ends.{IfClient, IfServer};
ghost use Rattle.waywire_c.specs.Reports.{entry_told, entry_told_by, fields_of_kind, TellsArgs};
ghost use Rattle.waywire_c.specs.Reports.{request_args, request_entry, told_by, told_request};
ghost use Rattle.waywire_c.specs.Reports.{told_unanswered};
ghost use Rattle.waywire_c.specs.Statuses.{failed_outcome, global_outcome, name_outcome};
ghost use Rattle.waywire_c.specs.Statuses.{read_outcome, send_outcome, OrMemory};
ghost use Rattle.waywire_c.specs.Values.{iface_at, object_from_c};
ghost use Rattle.waywire_c.specs.Inspecting.{IsTried};
ghost use Rattle.waywire_c.specs.Sizes.{AreAllowed};

use crate::end_handle::EndHandle;
use crate::held::HeldEnd;
use crate::making;
use crate::parts::address;
use crate::reading::read_request;
use crate::reports::{Report, nothing};
use crate::statuses::{OK, OTHER_END, global_status, send_status};
use crate::tables_handle::TablesHandle;
use crate::values::{CObject, CSizes, ReportArg};
use std::alloc::Global;
use wl_wire::Iface;

/// Makes a server with wl_display alone and empty queues, and writes its address to `server`.
#[unsafe(no_mangle)]
pub extern "C" fn waywire_c_server_new(
    alloc: Global,
    tables: TablesHandle,
    sizes: &CSizes,
    server: &mut *mut u8,
) -> u32
    ensures sizes { (result ≢ 63) ↔ AreAllowed sizes.now }
    ensures tried { result ≢ 63 → IsTried result }
    ensures none { result ≢ 0 → server.new ≡ server.old }
{
    match making::server_by(alloc, tables.lent(), sizes) {
        Ok(boxed) => {
            *server = address(boxed);
            OK
        }
        Err(status) => status,
    }
}

/// Ends an object without an event, and writes its delete_id.
#[unsafe(no_mangle)]
pub extern "C" fn waywire_c_server_drop_object(end: &mut EndHandle, object: CObject) -> u32
    ensures answer { IfServer end.old.held (λ server. result
        ≡ send_outcome (drop_refusal server.core (object_from_c object))) }
    ensures other { IfClient end.old.held (λ client. result ≡ 66) }
    ensures state { result ≡ 0 → IfServer end.old.held (λ server. end.new.held
        ≡ Server (with_core server (after_drop server.core (object_from_c object)))) }
    ensures unchanged { result ≢ 0 → end.new.held ≡ end.old.held }
{
    let HeldEnd::Server(server) = end.get_mut() else {
        return OTHER_END;
    };
    match server.drop_object(object.object()) {
        Ok(()) => OK,
        Err(why) => send_status(why),
    }
}

/// Ends an object, whatever its interface, and writes its delete_id if the client made it.
#[unsafe(no_mangle)]
pub extern "C" fn waywire_c_server_end_object(end: &mut EndHandle, object: CObject) -> u32
    ensures answer { IfServer end.old.held (λ server. result
        ≡ send_outcome (end_refusal server.core (object_from_c object))) }
    ensures other { IfClient end.old.held (λ client. result ≡ 66) }
    ensures state { result ≡ 0 → IfServer end.old.held (λ server. end.new.held
        ≡ Server (with_core server (after_end server.core (object_from_c object)))) }
    ensures unchanged { result ≢ 0 → end.new.held ≡ end.old.held }
{
    let HeldEnd::Server(server) = end.get_mut() else {
        return OTHER_END;
    };
    match server.end_object(object.object()) {
        Ok(()) => OK,
        Err(why) => send_status(why),
    }
}

/// Writes wl_display.error about an object, which ends the connection.
#[unsafe(no_mangle)]
pub extern "C" fn waywire_c_server_post_error(
    end: &mut EndHandle,
    object: CObject,
    code: u32,
    text: &[u8],
) -> u32
    ensures answer { IfServer end.old.held (λ server. result
        ≡ send_outcome (error_refusal server.core (object_from_c object) text.now)) }
    ensures other { IfClient end.old.held (λ client. result ≡ 66) }
    ensures state { result ≡ 0 → IfServer end.old.held (λ server. end.new.held
        ≡ Server (with_core server
        (after_error server.core (object_from_c object) code text.now))) }
    ensures unchanged { result ≢ 0 → end.new.held ≡ end.old.held }
{
    let HeldEnd::Server(server) = end.get_mut() else {
        return OTHER_END;
    };
    match server.post_error(object.object(), code, text) {
        Ok(()) => OK,
        Err(why) => send_status(why),
    }
}

/// Adds a global, and writes its name to `name`.
#[unsafe(no_mangle)]
pub extern "C" fn waywire_c_server_add_global(
    end: &mut EndHandle,
    interface: u16,
    version: u32,
    name: &mut u32,
) -> u32
    ensures answer { IfServer end.old.held (λ server. OrMemory true
        (name_outcome (add_answer server (iface_at interface) version)) result) }
    ensures other { IfClient end.old.held (λ client. result ≡ 66) }
    ensures name { result ≡ 0 → IfServer end.old.held (λ server.
        add_answer server (iface_at interface) version ≡ Ok name.new) }
    ensures nameless { result ≢ 0 → name.new ≡ name.old }
    ensures state { result ≡ 0 → IfServer end.old.held (λ server. end.new.held
        ≡ Server (with_global server (iface_at interface) version)) }
    ensures unchanged { result ≢ 0 → end.new.held ≡ end.old.held }
{
    let HeldEnd::Server(server) = end.get_mut() else {
        return OTHER_END;
    };
    match server.add_global(Iface(interface), version) {
        Ok(given) => {
            *name = given;
            OK
        }
        Err(why) => global_status(why),
    }
}

/// Sets how many globals the server may add in its lifetime.
#[unsafe(no_mangle)]
pub extern "C" fn waywire_c_server_allow_globals(end: &mut EndHandle, number: usize) -> u32
    ensures answer { IfServer end.old.held (λ server. result ≡ 0) }
    ensures other { IfClient end.old.held (λ client. result ≡ 66) }
    ensures state { result ≡ 0 → IfServer end.old.held (λ server. end.new.held
        ≡ Server (with_allowed server number)) }
    ensures unchanged { result ≢ 0 → end.new.held ≡ end.old.held }
{
    let HeldEnd::Server(server) = end.get_mut() else {
        return OTHER_END;
    };
    server.allow_globals(number);
    OK
}

/// Withdraws a global.
#[unsafe(no_mangle)]
pub extern "C" fn waywire_c_server_withdraw(end: &mut EndHandle, name: u32) -> u32
    ensures answer { IfServer end.old.held (λ server. result
        ≡ global_outcome (withdraw_refusal server name)) }
    ensures other { IfClient end.old.held (λ client. result ≡ 66) }
    ensures state { result ≡ 0 → IfServer end.old.held (λ server. end.new.held
        ≡ Server (after_withdraw server name)) }
    ensures unchanged { result ≢ 0 → end.new.held ≡ end.old.held }
{
    let HeldEnd::Server(server) = end.get_mut() else {
        return OTHER_END;
    };
    match server.withdraw(name) {
        Ok(()) => OK,
        Err(why) => global_status(why),
    }
}

/// Writes the events that the open registries still need, until one does not fit; writes their
/// number to `count`, and whether these were all to `all`.
#[unsafe(no_mangle)]
pub extern "C" fn waywire_c_server_announce(
    end: &mut EndHandle,
    count: &mut usize,
    all: &mut bool,
) -> u32
    ensures answer { IfServer end.old.held (λ server. result ≡ failed_outcome server.core.failed) }
    ensures other { IfClient end.old.held (λ client. result ≡ 66) }
    ensures count { result ≡ 0 → IfServer end.old.held (λ server. Fitting server count.new) }
    ensures all { result ≡ 0 → IfServer end.old.held (λ server.
        (all.new ≡ true) ↔ (count.new ≡ length (owed server))) }
    ensures uncounted { result ≢ 0 → (count.new ≡ count.old) × (all.new ≡ all.old) }
    ensures state { result ≡ 0 → IfServer end.old.held (λ server. end.new.held
        ≡ Server (after_announce server count.new)) }
    ensures unchanged { result ≢ 0 → end.new.held ≡ end.old.held }
{
    let HeldEnd::Server(server) = end.get_mut() else {
        return OTHER_END;
    };
    match server.announce() {
        Ok(told) => {
            *count = told.count;
            *all = told.all;
            OK
        }
        Err(why) => send_status(why),
    }
}

/// Reads the next request as `waywire_c_end_next` does at a server, and answers a fault.
#[unsafe(no_mangle)]
pub extern "C" fn waywire_c_server_next(
    end: &mut EndHandle,
    report: &mut Report,
    args: &mut [ReportArg],
) -> u32
    ensures answer { IfServer end.old.held (λ server. OrMemory
        (request_opens server.core (request server)) (read_outcome (next_answer server)) result) }
    ensures other { IfClient end.old.held (λ client. result ≡ 66) }
    ensures report { result ≢ 11 → IfServer end.old.held (λ server. told_by report.new
        ≡ told_request (length args.old) (next_answer server)) }
    ensures entry { result ≢ 11 → IfServer end.old.held (λ server. entry_told_by report.new
        ≡ entry_told (request_entry server.core.view (next_answer server))) }
    ensures args { result ≢ 11 → IfServer end.old.held (λ server.
        TellsArgs (request_args (next_answer server)) args.old args.new) }
    ensures state { result ≢ 11 → IfServer end.old.held (λ server. end.new.held
        ≡ Server (after_next server)) }
    ensures no_report { result ≡ 11 → told_by report.new ≡ fields_of_kind 0 }
    ensures no_entry { result ≡ 11 → entry_told_by report.new ≡ entry_told None }
    ensures no_args { result ≡ 11 → args.new ≡ args.old }
    ensures unchanged { result ≡ 11 → end.new.held ≡ end.old.held }
    ensures client { IfClient end.old.held (λ client. end.new.held ≡ end.old.held) }
{
    let HeldEnd::Server(server) = end.get_mut() else {
        *report = nothing();
        return OTHER_END;
    };
    read_request(server, true, report, args)
}

/// Reads the next request, and writes its report to `report` and its arguments to the slots. A
/// fault is only reported, with its message: nothing changes.
#[unsafe(no_mangle)]
pub extern "C" fn waywire_c_server_next_unanswered(
    end: &mut EndHandle,
    report: &mut Report,
    args: &mut [ReportArg],
) -> u32
    ensures answer { IfServer end.old.held (λ server. OrMemory
        (request_opens server.core (request server)) (read_outcome (next_answer server)) result) }
    ensures other { IfClient end.old.held (λ client. result ≡ 66) }
    ensures report { result ≢ 11 → IfServer end.old.held (λ server. told_by report.new
        ≡ told_unanswered (length args.old) server) }
    ensures entry { result ≢ 11 → IfServer end.old.held (λ server. entry_told_by report.new
        ≡ entry_told (request_entry server.core.view (next_answer server))) }
    ensures args { result ≢ 11 → IfServer end.old.held (λ server.
        TellsArgs (request_args (next_answer server)) args.old args.new) }
    ensures state { result ≢ 11 → IfServer end.old.held (λ server. end.new.held
        ≡ Server (unless_fault server (after_next server) (next_answer server))) }
    ensures no_report { result ≡ 11 → told_by report.new ≡ fields_of_kind 0 }
    ensures no_entry { result ≡ 11 → entry_told_by report.new ≡ entry_told None }
    ensures no_args { result ≡ 11 → args.new ≡ args.old }
    ensures unchanged { result ≡ 11 → end.new.held ≡ end.old.held }
    ensures client { IfClient end.old.held (λ client. end.new.held ≡ end.old.held) }
{
    let HeldEnd::Server(server) = end.get_mut() else {
        *report = nothing();
        return OTHER_END;
    };
    read_request(server, false, report, args)
}
