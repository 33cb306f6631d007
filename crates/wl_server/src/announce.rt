//! What a server writes to its client's registries: wl_registry.global and global_remove.
ghost use Rattle.std.specs.Prelude.{◌≡◌, ◌≤◌, ◌↔◌, ◌∷◌, [], false, true, IfErr, IfOk, length};
ghost use Rattle.wl_wire.specs.Spelling.{IsText};
ghost use Rattle.wl_sigs.specs.Tables.{max_name_len};
ghost use Rattle.wl_objects.specs.declared.error.SendError.TheVariants as refusals;
ghost use Rattle.wl_connection.specs.Core.{IsOrdinary};
ghost use Rattle.wl_server.specs.State.{most_globals};
ghost use Rattle.wl_server.specs.Registries.{HasRegistries};
ghost use Rattle.wl_server.specs.Announcing.{Fitting, Removal, Telling, after_announce, due_to};
ghost use Rattle.wl_server.specs.Announcing.{name_at, owed};
ghost use Rattle.wl_server.specs.Tellings.{IsAnnounced, IsWritten};
ghost use Rattle.wl_server.specs.Words.{AreWithdrawn};

use crate::globals::Advertised;
use crate::name_set::NameSet;
use crate::registry::OpenRegistry;
use crate::server::Server;
use wl_connection::Core;
use wl_objects::{Arg, CallMessage, SendError, Table};
use wl_sigs::Tables;
use wl_sigs::event::wl_registry::{GLOBAL, GLOBAL_REMOVE};
use wl_wire::Iface;

/// How many events were written, and whether these were all; if not, the next one does not fit.
#[derive(Clone, Copy, Debug, PartialEq, Eq)]
pub struct Announced {
    pub count: usize,
    pub all: bool,
}

/// The name of an interface; empty for one outside the tables, which no global has.
fn name_at(tables: &Tables, iface: Iface) -> &[u8]
    ensures name { result.now ≡ name_at tables.now iface }
    ensures text { IsText result.now }
    ensures short { length result.now ≤ max_name_len }
{
    match tables.name(iface) {
        Some(name) => name,
        None => b"",
    }
}

/// Writes global_remove of a name to a registry, if it fits.
fn write_global_remove<T: Table>(core: &mut Core<'_, T>, registry: u32, name: u32) -> bool
    ensures { IsWritten core.old registry (Removal name) result core.new }
{
    let args = [Arg::Uint(name)];
    let message = CallMessage::new(registry, GLOBAL_REMOVE, &args);
    if !core.fits(message.len, 0) {
        return false;
    }
    core.write_call(&message, 0);
    true
}

/// Writes global of a name to a registry, if it fits.
fn write_global<T: Table>(
    core: &mut Core<'_, T>,
    registry: u32,
    name: u32,
    global: Advertised,
) -> bool
    ensures { IsWritten core.old registry (Telling name global) result core.new }
{
    let iface = name_at(core.tables, global.iface);
    let args = [
        Arg::Uint(name),
        Arg::Str(Some(iface)),
        Arg::Uint(global.version),
    ];
    let message = CallMessage::new(registry, GLOBAL, &args);
    if !core.fits(message.len, 0) {
        return false;
    }
    core.write_call(&message, 0);
    true
}

/// Writes the events that one registry still needs, until one does not fit; skips names 64 at a
/// time.
pub(crate) fn announce_to<T: Table>(
    core: &mut Core<'_, T>,
    globals: &[Advertised],
    withdrawn: &NameSet,
    registry: &mut OpenRegistry,
) -> Announced
    requires few { length globals.now ≤ most_globals }
    requires withdrawn { AreWithdrawn globals.now withdrawn.now }
    requires ordinary { IsOrdinary core.old.outbox }
    ensures told { IsAnnounced core.old (registry.old ∷ []) (due_to globals.now registry.old) result
        core.new (registry.new ∷ []) }
    ensures object { registry.new.object ≡ registry.old.object }
    ensures settled { result.all ≡ true → due_to globals.now registry.new ≡ [] }
{
    let mut count = 0;
    let mut place = 0;
    'removals: while place < globals.len() {
        let name = place as u32 + 1;
        if registry.owes_removal(name, globals[place]) {
            if !write_global_remove(core, registry.object.id, name) {
                return Announced { count, all: false };
            }
            registry.mark_removed(name);
            count += 1;
        }
        place = registry.next_removal(withdrawn, place);
    }
    place = 0;
    'tellings: while place < globals.len() {
        let name = place as u32 + 1;
        let global = globals[place];
        if registry.owes_telling(name, global) {
            if !write_global(core, registry.object.id, name, global) {
                return Announced { count, all: false };
            }
            registry.mark_told(name);
            count += 1;
        }
        place = registry.next_telling(withdrawn, place);
    }
    Announced { count, all: true }
}

impl<'t, T: Table> Server<'t, T> {
    /// Writes the events that the open registries still need, to the registries in order of birth;
    /// to each first global_remove for withdrawn globals, then global for new ones, in order of
    /// name. Stops at the first event that does not fit. Returns how many events were written, and
    /// whether these were all; the only refusal is S1. Never runs out of memory.
    pub fn announce(&mut self) -> Result<Announced, SendError>
        // These are the open registries: all of them and no other object, in order of birth.
        ensures registries { HasRegistries self.old.core.view self.old.registries }
        ensures ok { IfOk result
            (λ told. (self.old.core.failed ≡ false) × Fitting self.old told.count
            × (self.new ≡ after_announce self.old told.count)) }
        ensures all { IfOk result
            (λ told. (told.all ≡ true) ↔ (told.count ≡ length (owed self.old))) }
        ensures err { IfErr result
            (λ why. (why ≡ refusals.Failed) × (self.old.core.failed ≡ true)
            × (self.new ≡ self.old)) }
    {
        if self.end.core.failed {
            return Err(SendError::Failed);
        }
        let core = &mut self.end.core;
        let told = self.role.registries.announce(core, &self.role.globals);
        Ok(told)
    }
}
