//! How a server reads the requests that arrive.
ghost use Rattle.std.specs.Prelude.{◌≡◌, Some, IfErr, IfOk, IfSome, false, take};
ghost use Rattle.std.specs.Borrow.{sem};
ghost use Rattle.std.specs.Io.BufRead.{Rests};
ghost use Rattle.wl_message.specs.Arrived.{in_front};
ghost use Rattle.wl_message.specs.Cut.{front_len};
ghost use Rattle.wl_object_map.specs.Objects.{look};
ghost use Rattle.wl_connection.specs.Outcomes.{read_as, unless_memory};
ghost use Rattle.wl_connection.specs.Roles.{IsLentNext};
ghost use Rattle.wl_server.specs.Requests.{after_answering, after_next, server_role, unless_fault};
ghost use Rattle.wl_server.specs.Requests.{IsServerNext};
ghost use Rattle.wl_server.specs.Seen.{lent_in, lent_request_in, report_in};
ghost use Rattle.wl_server.specs.Seen.{request_in};
ghost use Rattle.wl_server.specs.Lent.{server_row};
ghost use Rattle.wl_server.specs.Slots.{IsSound as IsSoundServer};
ghost use Rattle.wl_server.specs.Steps.{CanApply, IsNextRequest, applied_report, front_step};
ghost use Rattle.wl_server.specs.Steps.{pending_in, pendings_in, server_state, told_if};
ghost use Rattle.wl_server.specs.Steps.{whole_state};

use crate::faults::report_fault;
use crate::pending::PendingRequest;
use crate::report::{OwnedRequest, OwnedRequestWithEntry, Request, RequestWithEntry};
use crate::role::{ServerRole, first_request};
use crate::server::Server;
use wl_connection::{Core, Endpoint, Role, read, read_owned};
use wl_objects::{NextError, Table};

impl<'t, T: Table> Server<'t, T> {
    /// Reads the next request if it is whole, and returns its report, which borrows strings, arrays
    /// and tokens from the server until its next call. Returns `None` if no whole request waits.
    ///
    /// A request that destroys an object closes it. If the client made the object, its delete_id is
    /// written at once; if the server made it, nothing is written, and the server can reuse the id.
    /// After a fault the server has failed for good, and the error event is the last that it
    /// writes. If there is no room for the delete_id, or no memory for the object that the request
    /// opens, the request stays and can be read again. A request that opens no object never returns
    /// out of memory.
    pub fn next(&mut self) -> Result<Option<Request<'_>>, NextError>
        ensures* after { sem 𝓛 (Rests
            (server_row T.row T.Alloc.row T.Table T.Alloc.Allocator T.Alloc.Clone) self.entry
            (λ server. server ≡ unless_memory self.old (after_next self.old) (lent_in result))) }
        ensures answer { IsLentNext server_role self.old (lent_in result) }
    {
        match read(&mut self.end, &mut self.role)? {
            Some(request) => Ok(Some(request.outline.lend(&self.end))),
            None => Ok(None),
        }
    }

    /// Reads the next request as `next` does; returns its report together with the entry that its
    /// target had before the request.
    pub fn next_with_entry(&mut self) -> Result<Option<RequestWithEntry<'_>>, NextError>
        ensures* after { sem 𝓛 (Rests
            (server_row T.row T.Alloc.row T.Table T.Alloc.Allocator T.Alloc.Clone) self.entry
            (λ server. server
            ≡ unless_memory self.old (after_next self.old) (lent_request_in result))) }
        ensures answer { IsLentNext server_role self.old (lent_request_in result) }
        ensures entry { IfOk result (λ read. IfSome read (λ told.
            look self.old.core.view told.request.target.id ≡ Some told.entry)) }
    {
        match read(&mut self.end, &mut self.role)? {
            Some(request) => Ok(Some(RequestWithEntry {
                request: request.outline.lend(&self.end),
                entry: request.entry,
            })),
            None => Ok(None),
        }
    }

    /// Reads the next request as `next_with_entry` does, but answers no fault: with one nothing
    /// changes, and the caller ends the connection with `post_error`, in its own words and about an
    /// object of its choice; `front` has the message. Until then the same fault is returned again,
    /// unless it is a missing descriptor (F8), and that comes.
    ///
    /// What is proved about two ends together does not cover this call; between two lawful ends it
    /// does what `next_with_entry` does.
    pub fn next_unanswered(&mut self) -> Result<Option<RequestWithEntry<'_>>, NextError>
        ensures* after { sem 𝓛 (Rests
            (server_row T.row T.Alloc.row T.Table T.Alloc.Allocator T.Alloc.Clone) self.entry
            (λ server. server
            ≡ unless_fault self.old (after_next self.old) (lent_request_in result))) }
        ensures answer { IsLentNext server_role self.old (lent_request_in result) }
        ensures entry { IfOk result (λ read. IfSome read (λ told.
            look self.old.core.view told.request.target.id ≡ Some told.entry)) }
    {
        match read_request(&mut self.end, &mut self.role, false)? {
            Some(request) => Ok(Some(RequestWithEntry {
                request: request.outline.lend(&self.end),
                entry: request.entry,
            })),
            None => Ok(None),
        }
    }

    /// Reads the next request: as `next_with_entry` does if `answers`, else as `next_unanswered`
    /// does.
    pub fn next_answering(
        &mut self,
        answers: bool,
    ) -> Result<Option<RequestWithEntry<'_>>, NextError>
        ensures* after { sem 𝓛 (Rests
            (server_row T.row T.Alloc.row T.Table T.Alloc.Allocator T.Alloc.Clone) self.entry
            (λ server. server
            ≡ after_answering answers self.old (lent_request_in result))) }
        ensures answer { IsLentNext server_role self.old (lent_request_in result) }
        ensures entry { IfOk result (λ read. IfSome read (λ told.
            look self.old.core.view told.request.target.id ≡ Some told.entry)) }
    {
        match read_request(&mut self.end, &mut self.role, answers)? {
            Some(request) => Ok(Some(RequestWithEntry {
                request: request.outline.lend(&self.end),
                entry: request.entry,
            })),
            None => Ok(None),
        }
    }

    /// The bytes of the first message that waits, header included, so that a caller can answer the
    /// fault that `next_unanswered` found in it: all bytes if the message is whole, and the header
    /// alone if that has a bad size; else none. They stay, and this call changes nothing.
    pub fn front(&mut self) -> &[u8]
        ensures* stays { sem 𝓛 (Rests
            (server_row T.row T.Alloc.row T.Table T.Alloc.Allocator T.Alloc.Clone) self.entry
            (λ server. server ≡ self.old)) }
        ensures front { result.now
            ≡ take (front_len (in_front self.old.core.inbox)) self.old.core.inbox.bytes }
    {
        self.end.core.inbox.front()
    }

    /// Reads the next request as `next` does, and returns an owned report. If there is no memory
    /// for the report, the request stays and can be read again. A request without arguments never
    /// returns out of memory.
    pub fn next_owned(&mut self) -> Result<Option<OwnedRequest<T::Alloc>>, NextError>
        ensures answer { IsServerNext self.old (report_in result) }
        ensures state { self.new ≡ unless_memory self.old (after_next self.old) (report_in result) }
    {
        match self.next_owned_with_entry()? {
            Some(read) => Ok(Some(read.request)),
            None => Ok(None),
        }
    }

    /// Reads the next request as `next_owned` does; returns its report together with the entry that
    /// its target had before the request.
    pub fn next_owned_with_entry(
        &mut self,
    ) -> Result<Option<OwnedRequestWithEntry<T::Alloc>>, NextError>
        ensures answer { IsServerNext self.old (request_in result) }
        ensures state { self.new ≡ unless_memory self.old (after_next self.old)
            (request_in result) }
        ensures entry { IfOk result (λ read. IfSome read (λ told.
            look self.old.core.view told.request.target.id ≡ Some told.entry)) }
    {
        match read_owned(&mut self.end, &mut self.role, &self.alloc)? {
            Some((report, request)) => Ok(Some(OwnedRequestWithEntry {
                request: report,
                entry: request.entry,
            })),
            None => Ok(None),
        }
    }
}

/// Reads the next request and takes it, and answers a fault if `answers`.
fn read_request<T: Table>(
    end: &mut Endpoint<'_, T>,
    role: &mut ServerRole<T::Alloc>,
    answers: bool,
) -> Result<Option<PendingRequest>, NextError>
    requires { IsSoundServer end.old.core role.old.globals.items role.old.registries }
    ensures answer { IsLentNext server_role
        (whole_state role.old.allowed end.old.core role.old.globals.items
        role.old.registries.list)
        (read_as (applied_report end.new.core end.new.args) result) }
    ensures state { whole_state role.new.allowed end.new.core role.new.globals.items
        role.new.registries.list
        ≡ after_answering answers
        (whole_state role.old.allowed end.old.core role.old.globals.items
        role.old.registries.list)
        (read_as (applied_report end.new.core end.new.args) result) }
    ensures sound { IsSoundServer end.new.core role.new.globals.items role.new.registries }
    ensures ahead { IfOk result (λ read. IfSome read (λ pending. IsNextRequest
        (whole_state role.old.allowed end.old.core role.old.globals.items
        role.old.registries.list)
        end.new.args pending)) }
{
    if end.core.failed {
        return Err(NextError::Failed);
    }
    let request = match find_request(end, role, answers)? {
        Some(request) => request,
        None => return Ok(None),
    };
    match role.apply(end, &request) {
        Ok(()) => Ok(Some(request)),
        Err(_) => Err(NextError::Memory),
    }
}

/// The first request, if it is whole and can be applied. Answers a fault if `answers`; otherwise
/// only the parsed arguments change.
fn find_request<T: Table>(
    end: &mut Endpoint<'_, T>,
    role: &ServerRole<T::Alloc>,
    answers: bool,
) -> Result<Option<PendingRequest>, NextError>
    requires { end.old.core.failed ≡ false }
    ensures answer { pendings_in end.old.core end.new.args result
        ≡ front_step (server_state end.old.core role.now.globals.items) }
    ensures can { IfOk result (λ found. IfSome found
        (λ request. CanApply end.old.core (pending_in end.old.core end.new.args request))) }
    ensures entry { IfOk result (λ found. IfSome found (λ request.
        look end.old.core.view request.outline.target.id ≡ Some request.entry)) }
    ensures ok { IfOk result (λ _. end.new.core ≡ end.old.core) }
    ensures err { IfErr result (λ why. end.new.core ≡ told_if answers end.old.core why) }
{
    match first_request(end, role) {
        Ok(request) => Ok(request),
        Err(why) => {
            tell_if(&mut end.core, why, answers);
            Err(why)
        }
    }
}

/// Writes the error event of a fault if `answers`.
fn tell_if<T: Table>(core: &mut Core<'_, T>, why: NextError, answers: bool)
    requires { core.old.failed ≡ false }
    ensures { core.new ≡ told_if answers core.old why }
{
    if answers {
        report_fault(core, why);
    }
}
