//! What an end does with the message at the front, and with its objects.
ghost use Rattle.std.specs.Prelude.{◌≡◌, ◌≢◌, ◌≤◌, ◌<◌, ◌↔◌, ◌&&◌, not, ℕ, Err, IsTrue, IfOk, OnOk};
ghost use Rattle.std.specs.Prelude.{None, OnErr, length, slice_index_or};
ghost use Rattle.wl_sigs.specs.Tables.{max_args};
ghost use Rattle.wl_message.specs.Arrived.{in_front};
ghost use Rattle.wl_message.specs.Cut.{Whole};
ghost use Rattle.wl_object_map.specs.Objects.{ObjectsAreSound, births, closed, is_held};
ghost use Rattle.wl_object_map.specs.Objects.{free_or_next, has_room, is_live, look, opened_at};
ghost use Rattle.wl_object_map.specs.Objects.{zombied};
ghost use Rattle.wl_objects.specs.Messages.{server_may_use};
ghost use Rattle.wl_connection.specs.Core.{past, with_view};

use crate::shared::Core;
use std::alloc::AllocError;
use wl_objects::{MAX_ARGS, NewObject, Object, Table, TableError};

/// The most tokens of a message: one for each argument.
pub const MAX_TOKENS: usize = MAX_ARGS;

impl<'t, T: Table> Core<'t, T> {
    /// The first `count` waiting tokens, padded with zeros.
    pub fn first_tokens(&self, count: usize) -> [u32; MAX_TOKENS]
        ensures { (place : ℕ) → place < count → place < max_args
            → slice_index_or result place 0 ≡ slice_index_or self.now.inbox.tokens place 0 }
    {
        let mut tokens = [0; MAX_TOKENS];
        'places: for place in 0..count.min(MAX_TOKENS) {
            tokens[place] = self.inbox.token(place).unwrap_or(0);
        }
        tokens
    }

    /// Takes out the first message, of `size` bytes, and this many of the first tokens.
    #[inline(always)]
    pub fn pass(&mut self, size: u16, tokens: usize)
        requires message { in_front self.old.inbox ≡ Whole size }
        requires tokens { tokens ≤ length self.old.inbox.tokens }
        ensures { self.new ≡ past self.old size tokens }
    {
        self.inbox.pass(tokens);
        self.read = self.read.saturating_add(u64::from(size));
    }

    /// Opens the object that a message makes. O3 is tested first, then O2, O1 and O4, as in
    /// `Objects::open_at`; a refusal changes nothing.
    pub fn open_at(&mut self, new: NewObject) -> Result<Object, TableError>
        ensures ok { OnOk result
            (self.new ≡ with_view self.old
            (opened_at self.old.view new.id new.iface new.version)) }
        ensures object { IfOk result
            (λ object. object ≡ record { id = new.id; birth = births self.old.view new.id }) }
        ensures err { OnErr result (self.new ≡ self.old) }

        ensures in_use { (result ≡ Err TableError.InUse) ↔ IsTrue (is_held self.old.view new.id) }
        ensures not_next { (result ≡ Err TableError.NotNext)
            ↔ IsTrue (not (is_held self.old.view new.id) && not
            (free_or_next self.old.view new.id)) }
        ensures no_ids { (result ≡ Err TableError.NoIds)
            ↔ IsTrue (free_or_next self.old.view new.id && not (has_room self.old.view new.id)) }
        ensures sound { ObjectsAreSound self.old.view }
    {
        self.objects.open_at(new.id, new.iface, new.version)
    }

    /// Opens the server's object that an event makes. If another object has its id (a zombie, or
    /// one that no request can end), the new one replaces it, which needs no memory; else the id
    /// has no entry. Without memory nothing changes.
    pub fn open_made(&mut self, new: NewObject) -> Result<Object, AllocError>
        requires free { IsTrue (server_may_use self.old.tables self.old.view new.id) }
        requires room { IsTrue (has_room self.old.view new.id) }
        ensures ok { OnOk result
            (self.new ≡ with_view self.old
            (opened_at self.old.view new.id new.iface new.version)) }
        ensures object { IfOk result
            (λ object. object ≡ record { id = new.id; birth = births self.old.view new.id }) }
        ensures err { OnErr result (self.new ≡ self.old) }
        ensures wants { OnErr result (look self.old.view new.id ≡ None) }
        ensures sound { ObjectsAreSound self.old.view }
    {
        if self.objects.look(new.id).is_some() {
            return Ok(self.objects.reopen(new.id, new.iface, new.version));
        }
        match self.objects.open_at(new.id, new.iface, new.version) {
            Ok(object) => Ok(object),
            Err(TableError::Memory) => Err(AllocError),
            Err(TableError::InUse | TableError::NotNext | TableError::NoIds) => unreachable!(),
        }
    }

    /// Makes a live object a zombie: it has ended, and its id stays in use.
    pub fn make_zombie(&mut self, id: u32)
        requires live { IsTrue (is_live self.old.view id) }
        requires not_display { id ≢ 1 }
        ensures { self.new ≡ with_view self.old (zombied self.old.view id) }
    {
        self.objects.make_zombie(id);
    }

    /// Closes an object: its id is free again.
    pub fn close(&mut self, id: u32)
        requires held { IsTrue (is_held self.old.view id) }
        requires not_display { id ≢ 1 }
        ensures { self.new ≡ with_view self.old (closed self.old.view id) }
    {
        self.objects.close(id);
    }
}
