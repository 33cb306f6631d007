//! The changes that a message makes at a client: to its objects, and to the globals that it
//! remembers.
ghost use Rattle.std.specs.Prelude.{◌≡◌, ◌≢◌, List, Some, IsTrue, false};
ghost use Rattle.wl_sigs.specs.Side.TheVariants.{Request as request_side};
ghost use Rattle.wl_sigs.specs.Tables.{destroys_argument};
ghost use Rattle.wl_object_map.specs.Objects.{Objects, is_held, is_live};
ghost use Rattle.wl_objects.specs.Messages.{destroys, ended_id};
ghost use Rattle.wl_objects.specs.Seen.{received_of};
ghost use Rattle.wl_connection.specs.Core.{with_view};
ghost use Rattle.wl_client.specs.Reports.{globals_told, object_replaced};
ghost use Rattle.wl_client.specs.State.{Global as Told};
ghost use Rattle.wl_client.specs.Steps.{CanChange, changed, found_as, globals_by};
ghost use Rattle.wl_client.specs.Steps.{made_by_found, with_global_change};

use crate::arguments::{number_at, text_at};
use crate::globals::Global;
use wl_connection::Core;
use wl_objects::{NewObject, Object, REGISTRY, Received, State, Table, made_by_message};
use wl_sigs::event::wl_registry::{GLOBAL, GLOBAL_REMOVE};
use wl_sigs::{Destroys, Tables};

/// What a message does to the objects.
#[derive(Clone, Copy, Debug)]
pub(crate) enum ObjectChange {
    Nothing,
    /// The object with this id has ended: it becomes a zombie, or stays one.
    Zombie(u32),
    /// The object with this id is removed, and the id is free.
    Close(u32),
}

/// What a message changes of the remembered globals.
#[derive(Clone, Copy, Debug)]
pub(crate) enum GlobalChange {
    Nothing,
    /// The global with this name was removed, or its interface is not in the tables.
    Forget(u32),
    Remember(Global),
}

/// What a message changes at a client.
#[derive(Clone, Copy, Debug)]
pub(crate) struct Change {
    /// The object that it makes, which is opened first.
    pub(crate) made: Option<NewObject>,
    pub(crate) objects: ObjectChange,
    pub(crate) globals: GlobalChange,
    /// Whether nothing is read after it, as after wl_display.error.
    pub(crate) last: bool,
}

/// The live object that a message's new object will replace, if there is one.
pub(crate) fn replaced_by<T: Table>(core: &Core<'_, T>, made: NewObject) -> Option<Object>
    ensures { result ≡ object_replaced core.now.view (Some made) }
{
    let id = made.id;
    let entry = core.objects.look(id)?;
    match entry.state {
        State::Live => Some(Object {
            id,
            birth: entry.birth,
        }),
        State::Zombie => None,
    }
}

/// Makes an object a zombie; a zombie stays one.
pub(crate) fn end_object<T: Table>(core: &mut Core<'_, T>, id: u32)
    requires held { IsTrue (is_held core.old.view id) }
    requires not_display { id ≢ 1 }
    ensures { core.new ≡ with_view core.old (changed core.old.view (ObjectChange.Zombie id)) }
{
    if is_live(core, id) {
        core.make_zombie(id);
    }
}

/// Whether an id is that of a live object.
fn is_live<T: Table>(core: &Core<'_, T>, id: u32) -> bool
    ensures { result ≡ is_live core.now.view id }
{
    match core.objects.look(id) {
        Some(entry) => entry.state == State::Live,
        None => false,
    }
}

/// The changes of an event, other than those of wl_display.
pub(crate) fn change_of(tables: &Tables, opcode: u16, message: &Received<'_, '_>) -> Change
    requires lasts { message.now.target.id ≡ 1
        → message.now.signature.now.destroys ≢ Destroys.Target }
    requires argument { destroys_argument message.now.signature.now.destroys ≡ false }
    ensures made { result.made ≡ made_by_found tables.now (found_as opcode message.now) }
    ensures changed { (view : Objects) → changed view result.objects
        ≡ destroys request_side message.now.signature.now.destroys
        (ended_id message.now.signature.now.destroys message.now.target.id
        (received_of message.now).values) view }
    ensures can { (view : Objects) → IsTrue (is_held view message.now.target.id)
        → CanChange view result.objects }
    ensures globals { (globals : List Told) → with_global_change globals result.globals
        ≡ globals_by tables.now globals (found_as opcode message.now) }
    ensures last { result.last ≡ false }
{
    let signature = message.signature;
    let made = made_by_message(tables, message);
    Change {
        made,
        objects: match signature.destroys {
            Destroys::Target => ObjectChange::Zombie(message.target.id),
            // No event destroys an argument.
            Destroys::Nothing | Destroys::Arg(_) => ObjectChange::Nothing,
        },
        // Only events for a live registry change them.
        globals: match (message.entry.iface, message.entry.state) {
            (REGISTRY, State::Live) => told_by(tables, opcode, message),
            _ => GlobalChange::Nothing,
        },
        last: false,
    }
}

/// How an event for a live registry changes the remembered globals.
fn told_by(tables: &Tables, opcode: u16, message: &Received<'_, '_>) -> GlobalChange
    ensures { (globals : List Told) → with_global_change globals result
        ≡ globals_told tables.now globals opcode (received_of message.now).values }
{
    let Received { args, body, .. } = message;
    if opcode == GLOBAL {
        let name = number_at(args, body, 0);
        match tables.interface(text_at(args, body, 1)) {
            None => GlobalChange::Forget(name),
            Some(iface) => GlobalChange::Remember(Global {
                name,
                iface,
                version: number_at(args, body, 2),
            }),
        }
    } else if opcode == GLOBAL_REMOVE {
        GlobalChange::Forget(number_at(args, body, 0))
    } else {
        GlobalChange::Nothing
    }
}
