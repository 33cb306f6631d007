//! What a server keeps besides its endpoint, and how it reads a request with it.
ghost use Rattle.std.specs.Prelude.{◌≡◌, ◌&&◌, Some, IfOk, IfSome, nat_lt};
ghost use Rattle.wl_object_map.specs.Objects.{look};
ghost use Rattle.wl_connection.specs.Sending.{delete_id_len};
ghost use Rattle.wl_server.specs.Steps.{CanApply, front_step, needs_delete_id, pending_in};
ghost use Rattle.wl_server.specs.Steps.{pendings_in, server_state};

use crate::bind::is_bad_bind;
use crate::changes::{Change, change_of, close_object, open_new_object};
use crate::faults::report_fault;
use crate::globals::Advertised;
use crate::open_registries::OpenRegistries;
use crate::outline::Outline;
use crate::pending::PendingRequest;
use crate::report::OwnedRequest;
use std::alloc::{AllocError, Allocator};
use wl_connection::{DELETE_ID_LEN, Endpoint, Meaning, Role, first_message};
use wl_object_map::FIRST_SERVER_ID;
use wl_objects::{Fault, NextError, Object, Objects, Received, Table};
use wl_sigs::{Side, Tables};
use wl_wire::Header;

/// What a server keeps besides its endpoint.
#[derive(Drop)]
pub(crate) struct ServerRole<A: Allocator> {
    /// The globals that it added, in the order of their names.
    pub(crate) globals: Vec<Advertised, A>,
    pub(crate) registries: OpenRegistries<A>,
    /// How many globals it may add in its lifetime.
    pub(crate) allowed: usize,
}

impl<T: Table> Meaning<T> for ServerRole<T::Alloc> {
    ghost use Rattle.wl_sigs.specs.Side.TheVariants.{Request as request_side};
    ghost use Rattle.wl_server.specs.Steps.{IsPendingOf};

    type Pending = PendingRequest;

    const SIDE: Side = Side::Request;

    ghost SIDE = { request_side };

    ghost Means = { λ kept. IsPendingOf kept.globals.items };

    fn pending_of(
        &self,
        tables: &Tables,
        objects: &Objects<T>,
        header: Header,
        message: &Received<'_, '_>,
    ) -> Result<PendingRequest, Fault> {
        if is_bad_bind(tables, &self.globals, header.opcode, message) {
            return Err(Fault::BadBind);
        }
        Ok(PendingRequest {
            outline: Outline {
                target: message.target,
                opcode: header.opcode,
                birth: objects.client().births(),
            },
            change: change_of(tables, message),
            entry: message.entry,
            size: header.size,
            tokens: message.tokens,
        })
    }
}

impl<T: Table> Role<T> for ServerRole<T::Alloc> {
    ghost use Rattle.wl_server.specs.State.{State as ServerState};
    ghost use Rattle.wl_server.specs.Requests.{Report as ServerReport, server_role};
    ghost use Rattle.wl_server.specs.Seen.{report_of};
    ghost use Rattle.wl_server.specs.Slots.{IsSound as IsSoundServer};
    ghost use Rattle.wl_server.specs.Steps.{IsNextRequest, front_report, applied_report};
    ghost use Rattle.wl_server.specs.Steps.{whole_state};

    type Owned = OwnedRequest<T::Alloc>;

    ghost Report = { ServerReport };

    ghost State = { ServerState };

    ghost state = { λ core kept.
        whole_state kept.allowed core kept.globals.items kept.registries.list };

    ghost role = { server_role };

    ghost owned = { report_of };

    ghost fronts = { front_report };

    ghost tells = { applied_report };

    ghost IsSound = { λ core kept. IsSoundServer core kept.globals.items kept.registries };

    ghost IsAhead = { λ core kept args request. IsNextRequest
        (whole_state kept.allowed core kept.globals.items kept.registries.list) args request };

    fn find(&self, end: &mut Endpoint<'_, T>) -> Result<Option<PendingRequest>, NextError> {
        if end.core.failed {
            return Err(NextError::Failed);
        }
        match first_request(end, self) {
            Ok(request) => Ok(request),
            Err(why) => {
                // Writes the error event for a fault.
                report_fault(&mut end.core, why);
                Err(why)
            }
        }
    }

    fn copy(
        &self,
        end: &mut Endpoint<'_, T>,
        alloc: &T::Alloc,
        request: &PendingRequest,
    ) -> Result<OwnedRequest<T::Alloc>, AllocError> {
        let tokens = end.core.first_tokens(request.tokens);
        let tokens = &tokens[..request.tokens];
        let body = end.core.inbox.body();
        request.outline.to_owned(alloc, &end.args, body, tokens)
    }

    fn apply(
        &mut self,
        end: &mut Endpoint<'_, T>,
        request: &PendingRequest,
    ) -> Result<(), AllocError> {
        let Change { made, ended } = request.change;
        let birth = request.outline.birth;
        open_new_object(&mut end.core, &mut self.registries, made, birth)?;
        // Nothing is allocated from here on.
        end.core.pass(request.size, request.tokens);
        if let Some(object) = ended {
            close_object(&mut end.core, &mut self.registries, object);
        }
        Ok(())
    }
}

/// The first request, if it is whole and can be applied. Only the parsed arguments change.
pub(crate) fn first_request<T: Table>(
    end: &mut Endpoint<'_, T>,
    role: &ServerRole<T::Alloc>,
) -> Result<Option<PendingRequest>, NextError>
    ensures answer { pendings_in end.old.core end.new.args result
        ≡ front_step (server_state end.old.core role.now.globals.items) }
    ensures can { IfOk result (λ found. IfSome found
        (λ request. CanApply end.old.core (pending_in end.old.core end.new.args request))) }
    ensures same { end.new.core ≡ end.old.core }
    ensures entry { IfOk result (λ found. IfSome found (λ request.
        look end.old.core.view request.outline.target.id ≡ Some request.entry)) }
{
    let offset = end.core.read;
    let room = end.core.outbox.room();
    let request = match first_message(end, role) {
        Ok(Some(request)) => request,
        Ok(None) => return Ok(None),
        Err(fault) => return Err(NextError::Fault { fault, offset }),
    };
    if lacks_room(room, request.change.ended) {
        return Err(NextError::OutFull);
    }
    Ok(Some(request))
}

/// Whether there is too little room for the delete_id of a destroyed object. An object that the
/// server made needs none.
fn lacks_room(room: usize, ended: Option<Object>) -> bool
    ensures { result ≡ (needs_delete_id ended && nat_lt room delete_id_len) }
{
    match ended {
        Some(object) => object.id < FIRST_SERVER_ID && room < DELETE_ID_LEN,
        None => false,
    }
}
