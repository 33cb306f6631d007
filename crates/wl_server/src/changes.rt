//! The changes that a request makes at a server: to its objects, and to its open registries.
ghost use Rattle.std.specs.Prelude.{◌≡◌, ◌≢◌, ◌≤◌, ℕ, List, Some, None, IsTrue, OnOk, false, OnErr};
ghost use Rattle.std.specs.Option.{option_map_or};
ghost use Rattle.wl_sigs.specs.Fixed.{registry};
ghost use Rattle.wl_object_map.specs.Objects.{look};
ghost use Rattle.wl_object_map.specs.Ranges.{is_of_server};
ghost use Rattle.wl_objects.specs.Messages.{made, opens, same_iface};
ghost use Rattle.wl_objects.specs.Parsed.{reported_in};
ghost use Rattle.wl_objects.specs.Seen.{received_of};
ghost use Rattle.wl_connection.specs.Core.{with_view};
ghost use Rattle.wl_connection.specs.Sending.{delete_id_len, fits};
ghost use Rattle.wl_server.specs.Requests.{registries_after};
ghost use Rattle.wl_server.specs.Slots.{KeepsSettled};
ghost use Rattle.wl_server.specs.Registries.{HasRegistries, IsFreshId};
ghost use Rattle.wl_server.specs.Steps.{HasFreeId, HasRow, IsEndedBy, core_without};
ghost use Rattle.wl_server.specs.Steps.{ended_by_request, registries_without, report_with};

use crate::open_registries::OpenRegistries;
use std::alloc::AllocError;
use wl_connection::Core;
use wl_object_map::Maker;
use wl_objects::{
    NewObject, Object, ParsedArg, ParsedArgs, REGISTRY, Received, Table, TableError,
    made_by_message,
};
use wl_sigs::{Destroys, Tables};

/// What a request changes at a server.
#[derive(Clone, Copy, Debug)]
pub(crate) struct Change {
    /// The object that it opens.
    pub(crate) made: Option<NewObject>,
    /// The object that it destroys.
    pub(crate) ended: Option<Object>,
}

/// How a message changes the objects.
pub(crate) fn change_of(tables: &Tables, message: &Received<'_, '_>) -> Change
    ensures made { result.made ≡ made tables.now message.now.entry.version
        message.now.signature.now.kinds (received_of message.now).values }
    ensures ended { IsEndedBy (received_of message.now) message.now.args.now result.ended }
{
    let signature = message.signature;
    Change {
        made: made_by_message(tables, message),
        ended: ended_by(signature.destroys, message.target, message.args),
    }
}

/// The object that a request destroys, if it destroys one: its target, or the object that an
/// argument names.
fn ended_by(destroys: Destroys, target: Object, args: &ParsedArgs) -> Option<Object>
    ensures { (opcode birth : ℕ) (body tokens : List ℕ)
        → result ≡ ended_by_request destroys
        (report_with target opcode (reported_in body birth tokens args.now)) }
{
    match destroys {
        Destroys::Nothing => None,
        Destroys::Target => Some(target),
        Destroys::Arg(place) => match args.as_slice().get(place) {
            Some(ParsedArg::Object { id, birth, .. }) => Some(Object {
                id: *id,
                birth: *birth,
            }),
            _ => Some(Object { id: 0, birth: 0 }),
        },
    }
}

/// Opens the object that a request makes, if it makes one, with this birth.
pub(crate) fn open_new_object<T: Table>(
    core: &mut Core<'_, T>,
    registries: &mut OpenRegistries<T::Alloc>,
    made: Option<NewObject>,
    birth: u64,
) -> Result<(), AllocError>
    requires free { HasFreeId core.old.view made }
    requires birth { birth ≡ core.old.view.client.births }
    requires past { registries.old.past ≤ core.old.view.client.births }
    ensures core { OnOk result (core.new ≡ with_view core.old (opens core.old.view made)) }
    ensures registries { OnOk result
        (registries.new.list ≡ registries_after core.old registries.old.list made) }
    ensures err { OnErr result
        ((core.new ≡ core.old) × (registries.new.list ≡ registries.old.list)) }
    ensures wants { OnErr result (made ≢ None) }
    ensures fresh { OnOk result (IsFreshId core.old.view made) }
    ensures settled { KeepsSettled registries.old registries.new }
    ensures past { registries.new.past ≤ core.new.view.client.births }
{
    match made {
        Some(made) => open_object(core, registries, made, birth),
        None => Ok(()),
    }
}

/// Opens an object, and reserves room for it if it is a registry. Without memory nothing is opened,
/// and the open registries do not change.
fn open_object<T: Table>(
    core: &mut Core<'_, T>,
    registries: &mut OpenRegistries<T::Alloc>,
    made: NewObject,
    birth: u64,
) -> Result<(), AllocError>
    requires free { HasFreeId core.old.view (Some made) }
    requires birth { birth ≡ core.old.view.client.births }
    requires past { registries.old.past ≤ core.old.view.client.births }
    ensures core { OnOk result (core.new ≡ with_view core.old (opens core.old.view (Some made))) }
    ensures registries { OnOk result
        (registries.new.list ≡ registries_after core.old registries.old.list (Some made)) }
    ensures err { OnErr result
        ((core.new ≡ core.old) × (registries.new.list ≡ registries.old.list)) }
    ensures fresh { OnOk result (IsFreshId core.old.view (Some made)) }
    ensures settled { KeepsSettled registries.old registries.new }
    ensures past { registries.new.past ≤ core.new.view.client.births }
{
    if made.iface == REGISTRY {
        let object = Object { id: made.id, birth };
        registries.reserve()?;
        open_free(core, made)?;
        registries.push_reserved(object);
    } else {
        open_free(core, made)?;
    }
    Ok(())
}

/// Opens an object at a free id. Without memory nothing changes.
fn open_free<T: Table>(core: &mut Core<'_, T>, made: NewObject) -> Result<(), AllocError>
    requires free { HasFreeId core.old.view (Some made) }
    ensures ok { OnOk result (core.new ≡ with_view core.old (opens core.old.view (Some made))) }
    ensures err { OnErr result (core.new ≡ core.old) }
    ensures fresh { IsFreshId core.old.view (Some made) }
{
    match core.open_at(made) {
        Ok(_) => Ok(()),
        Err(TableError::Memory) => Err(AllocError),
        Err(TableError::InUse | TableError::NotNext | TableError::NoIds) => unreachable!(),
    }
}

/// Closes an object that a request destroys, and writes its delete_id if the client made it.
pub(crate) fn close_object<T: Table>(
    core: &mut Core<'_, T>,
    registries: &mut OpenRegistries<T::Alloc>,
    object: Object,
)
    requires row { HasRow core.old.view object }
    requires not_display { object.id ≢ 1 }
    requires room { is_of_server object.id ≡ false → IsTrue (fits core.old.outbox delete_id_len 0) }
    requires sound { HasRegistries core.old.view registries.old.list }
    ensures core { core.new ≡ core_without (Some object) core.old }
    ensures registries { registries.new.list
        ≡ registries_without (Some object) registries.old.list }
    ensures settled { KeepsSettled registries.old registries.new }
    ensures past { registries.new.past ≤ registries.old.past }
{
    let is_registry = is_registry(core, object.id);
    match Maker::of(object.id) {
        Maker::Client => core.delete_object(object.id),
        Maker::Server => core.close(object.id),
    }
    if is_registry {
        registries.remove(object);
    }
}

/// Whether the object with an id is a registry.
fn is_registry<T: Table>(core: &Core<'_, T>, id: u32) -> bool
    ensures { result
        ≡ option_map_or (λ entry. same_iface entry.iface registry) (look core.now.view id) false }
{
    match core.objects.look(id) {
        Some(entry) => entry.iface == REGISTRY,
        None => false,
    }
}
