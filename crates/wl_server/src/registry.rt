//! The open registries of a server's client, and which globals were announced to each.
ghost use Rattle.std.specs.Prelude.{◌≡◌, ◌≤◌, ◌<◌, true};
ghost use Rattle.wl_server.specs.State.{has_name, most_globals, untold, with_name};
ghost use Rattle.wl_server.specs.Announcing.{owes_removal, owes_telling};
ghost use Rattle.wl_server.specs.Words.{OwesNoRemoval, OwesNoTelling};

use crate::globals::Advertised;
use crate::name_set::{NameSet, WORD_LEN, next_in};
use std::marker::Model;
use wl_objects::Object;

/// An open registry, the names announced to it, and those whose removal was sent to it.
#[derive(Debug, Drop)]
pub(crate) struct OpenRegistry {
    pub(crate) object: Object,
    pub(crate) told: NameSet,
    pub(crate) removed: NameSet,
}

impl Model for OpenRegistry {
    ghost use Rattle.wl_server.specs.State.{Registry};

    ghost Value = { Registry };

    ghost view = { λ r. record { object = r.object; told = r.told; removed = r.removed } };
}

impl OpenRegistry {
    /// A registry to which nothing was announced yet.
    pub(crate) fn new(object: Object) -> Self
        ensures { result ≡ untold object }
    {
        OpenRegistry {
            object,
            told: NameSet::new(),
            removed: NameSet::new(),
        }
    }

    /// Whether the registry still needs global_remove of a name.
    pub(crate) fn owes_removal(&self, name: u32, global: Advertised) -> bool
        requires { (0 < name) × (name ≤ most_globals) }
        ensures { result ≡ owes_removal self.now name global }
    {
        self.told.has(name) && !global.present && !self.removed.has(name)
    }

    /// Whether the registry still needs global of a name.
    pub(crate) fn owes_telling(&self, name: u32, global: Advertised) -> bool
        requires { (0 < name) × (name ≤ most_globals) }
        ensures { result ≡ owes_telling self.now name global }
    {
        global.present && !self.told.has(name)
    }

    /// The next place after this one whose name may need global_remove; the names between need
    /// none. `withdrawn` has the names of withdrawn globals.
    pub(crate) fn next_removal(&self, withdrawn: &NameSet, place: usize) -> usize
        requires { place < most_globals }
        ensures behind { place < result }
        ensures none { OwesNoRemoval self.now withdrawn.now place result }
    {
        let word = place / WORD_LEN;
        let owed = self.told.word(word) & withdrawn.word(word) & !self.removed.word(word);
        next_in(owed, place)
    }

    /// The next place after this one whose name may need global; the names between need none.
    pub(crate) fn next_telling(&self, withdrawn: &NameSet, place: usize) -> usize
        requires { place < most_globals }
        ensures behind { place < result }
        ensures none { OwesNoTelling self.now withdrawn.now place result }
    {
        let word = place / WORD_LEN;
        let owed = !self.told.word(word) & !withdrawn.word(word);
        next_in(owed, place)
    }

    /// Adds a name to those whose removal was sent.
    pub(crate) fn mark_removed(&mut self, name: u32)
        requires { (0 < name) × (name ≤ most_globals) }
        ensures set { self.new ≡ record self.old { removed = with_name self.old.removed name } }
        ensures marked { has_name self.new.removed name ≡ true }
    {
        self.removed.set(name);
    }

    /// Adds a name to those that were announced.
    pub(crate) fn mark_told(&mut self, name: u32)
        requires { (0 < name) × (name ≤ most_globals) }
        ensures set { self.new ≡ record self.old { told = with_name self.old.told name } }
        ensures marked { has_name self.new.told name ≡ true }
    {
        self.told.set(name);
    }
}

/// A registry of a client, open or closed.
#[derive(Debug, Drop)]
pub(crate) struct RegistrySlot {
    pub(crate) registry: OpenRegistry,
    pub(crate) is_open: bool,
}
