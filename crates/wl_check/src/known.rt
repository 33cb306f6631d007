//! What is known at a place of a session.
ghost use Rattle.std.specs.Prelude.{◌≡◌, ◌+◌, ◌^◌, ◌<◌, OnOk, IfOk};
ghost use Rattle.wl_sigs.specs.Valid.{Valid};
ghost use Rattle.wl_check.specs.Held.{HasFewSlots, undone_by};
ghost use Rattle.wl_check.specs.Places.{IsFirst, IsKnownBehind, server_used_by, used_by};
ghost use Rattle.wl_check.specs.Rules.{is_free_id, is_free_server_id, reader_by};
ghost use Rattle.wl_check.specs.Seen.{known_in, taken_of_direction};

use crate::changes::MessageChanges;
use crate::holdings::Holdings;
use crate::overwritten::UndoList;
use std::alloc::{AllocError, Allocator, Global};
use wl_object_map::{DISPLAY_ID, FIRST_SERVER_ID, MAX_IDS, MAX_SERVER_ID, Maker};
use wl_objects::{DISPLAY, Entry, Lookup, NewId, NewObject, State, waits_for_request};
use wl_recording::Direction;
use wl_sigs::Tables;
use wl_wire::Iface;

/// What is known at a place: the objects that are held (ending ones as zombies); the greatest id
/// used in the client's range, and how many ids were used in the server's; the globals that were
/// advertised; how many tokens were taken.
#[derive(Drop)]
pub(crate) struct KnownState<A: Allocator = Global> {
    pub held: Holdings<A>,
    pub used: u32,
    pub server_used: u32,
    pub taken_to_server: u128,
    pub taken_to_client: u128,
}

impl<A: Allocator + Clone> KnownState<A> {
    /// What is known before the first message: wl_display exists, with id 1.
    pub(crate) fn new(alloc: &A, tables: &Tables) -> Result<Self, AllocError>
        ensures valid { OnOk result (Valid tables.now) }
        ensures known { IfOk result (λ k. IsFirst (known_in k)) }
        ensures slots { IfOk result (λ k. HasFewSlots k.held k.used k.server_used) }
        ensures to_server { IfOk result (λ k. k.taken_to_server ≡ 0) }
        ensures to_client { IfOk result (λ k. k.taken_to_client ≡ 0) }
    {
        let display = Entry {
            birth: 0,
            iface: DISPLAY,
            version: tables.version(DISPLAY).unwrap_or(1),
            state: State::Live,
        };
        Ok(KnownState {
            held: Holdings::new(alloc, display)?,
            used: DISPLAY_ID,
            server_used: 0,
            taken_to_server: 0,
            taken_to_client: 0,
        })
    }

    /// What is known after a message at a place. Without memory, some of the changes to what is
    /// held may have been made; the undo list, if there is one, has these.
    #[inline(always)]
    pub(crate) fn apply(
        &mut self,
        place: u64,
        changes: &MessageChanges,
        undo: &mut UndoList<A>,
    ) -> Result<(), AllocError>
        requires to_server { self.old.taken_to_server + 2 ^ 64 < 2 ^ 128 }
        requires to_client { self.old.taken_to_client + 2 ^ 64 < 2 ^ 128 }
        ensures known { OnOk result
            (IsKnownBehind place changes.now (known_in self.old) (known_in self.new)) }
        ensures slots { OnOk result
            (HasFewSlots self.old.held self.old.used self.old.server_used
            → HasFewSlots self.new.held self.new.used self.new.server_used) }
        ensures few_to_server { OnOk result
            (self.new.taken_to_server < self.old.taken_to_server + 2 ^ 64) }
        ensures few_to_client { OnOk result
            (self.new.taken_to_client < self.old.taken_to_client + 2 ^ 64) }
        ensures undone { undone_by undo.new self.new.held ≡ undone_by undo.old self.old.held }
    {
        self.held.free(changes.deleted, undo)?;
        self.held.make_zombie(changes.destroyed, undo)?;
        self.held.open(place, changes.made, undo)?;
        if let Some(global) = &changes.advertised {
            self.held.remember_global(global, undo)?;
        }
        self.count_id_of(changes.made);
        match changes.direction {
            Direction::ToServer => self.taken_to_server += changes.tokens as u128,
            Direction::ToClient => self.taken_to_client += changes.tokens as u128,
        }
        Ok(())
    }
}

impl<A: Allocator> KnownState<A> {
    /// Counts the id of the object that a message makes, if it makes one, as used.
    #[inline(always)]
    fn count_id_of(&mut self, made: Option<NewObject>)
        ensures used { self.new.used ≡ used_by made self.old.used }
        ensures server_used { self.new.server_used ≡ server_used_by made self.old.server_used }
        ensures held { self.new.held ≡ self.old.held }
        ensures to_server { self.new.taken_to_server ≡ self.old.taken_to_server }
        ensures to_client { self.new.taken_to_client ≡ self.old.taken_to_client }
    {
        let Some(new) = made else {
            return;
        };
        match Maker::of(new.id) {
            Maker::Client => self.used = new.id.max(self.used),
            Maker::Server => {
                self.server_used = (new.id - FIRST_SERVER_ID + 1).max(self.server_used);
            }
        }
    }

    /// How many tokens the messages of a direction took.
    pub(crate) fn taken(&self, direction: Direction) -> u128
        ensures { result ≡ taken_of_direction self.now direction }
    {
        match direction {
            Direction::ToServer => self.taken_to_server,
            Direction::ToClient => self.taken_to_client,
        }
    }

    /// The greatest version that an event advertised for this name and this interface, or 0.
    pub(crate) fn advertised_version(&self, name: u32, iface: Iface) -> u32
        ensures { result ≡ (known_in self.now).advertised_version name iface.0 }
    {
        self.held.version((name, iface.0))
    }

    /// The object held with this id.
    pub(crate) fn object(&self, id: u32) -> Option<Entry>
        ensures { result ≡ (known_in self.now).object id }
    {
        self.held.object(id)
    }

    /// Whether an id can be that of a new object of the client: it is not 0, no held object has it,
    /// and it was used before or is the next one.
    fn is_free(&self, id: u32) -> bool
        ensures { result ≡ is_free_id (known_in self.now) id }
    {
        id != 0 && self.object(id).is_none() && u64::from(id) <= u64::from(self.used) + 1
    }

    /// Whether an id can be that of a new object of the server: it is in the server's range, no
    /// open object that a request can end has it, and it was used before or is the next one.
    fn is_free_at_server(&self, tables: &Tables, id: u32) -> bool
        ensures { result ≡ is_free_server_id tables.now (known_in self.now) id }
    {
        id >= FIRST_SERVER_ID
            && !waits_for_request(tables, self.object(id))
            && u64::from(id) <= u64::from(FIRST_SERVER_ID) + u64::from(self.server_used)
    }
}

/// What the reader of a direction's messages knows; of requests, only the open objects.
#[derive(Drop)]
pub(crate) struct ReaderLookup<'a, A: Allocator = Global> {
    pub tables: &'a Tables,
    pub known: &'a KnownState<A>,
    pub direction: Direction,
}

impl<'a, A: Allocator> Lookup for ReaderLookup<'a, A> {
    ghost reader = { λ lookup.
        reader_by lookup.tables.now (known_in lookup.known.now) lookup.direction };

    fn object(&self, id: u32) -> Option<Entry> {
        let entry = self.known.object(id)?;
        match (self.direction, entry.state) {
            (Direction::ToServer, State::Zombie) => None,
            _ => Some(entry),
        }
    }

    fn new_id(&self, id: u32) -> NewId {
        if !self.known.is_free(id) {
            NewId::Wrong
        } else if id > MAX_IDS {
            NewId::TooMany
        } else {
            NewId::Free
        }
    }

    fn new_server_id(&self, id: u32) -> NewId {
        if !self.known.is_free_at_server(self.tables, id) {
            NewId::Wrong
        } else if id > MAX_SERVER_ID {
            NewId::TooMany
        } else {
            NewId::Free
        }
    }
}
