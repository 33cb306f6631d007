//! The arguments of a message as its reader reports them.
ghost use Rattle.std.specs.Prelude.{◌≡◌, List, []};
ghost use Rattle.std.specs.Option.{option_map_or};
ghost use Rattle.wl_sigs.specs.Tables.{Interface};
ghost use Rattle.wl_sigs.specs.Side.{Side};
ghost use Rattle.wl_objects.specs.Reading.{named_at};
ghost use Rattle.wl_objects.specs.Messages.{reader_of};
ghost use Rattle.wl_objects.specs.Seen.{got_values};

use crate::argument::{Got, Named};
use std::alloc::{Allocator, Global};
use std::marker::Model;
use wl_object_map::{Object, Objects, State, Table};

/// The arguments of a report, owned.
#[derive(Debug, Drop)]
pub struct OwnedArgs<A: Allocator = Global> {
    // `None` for a message without arguments, so that its report needs no allocator.
    items: Option<Vec<Got<A>, A>>,
}

impl<A: Allocator> Model for OwnedArgs<A> {
    ghost use Rattle.std.specs.Prelude.{List, []};
    ghost use Rattle.std.specs.Option.{option_map_or};
    ghost use Rattle.wl_objects.specs.Reading.{Reported};
    ghost use Rattle.wl_objects.specs.Seen.{got_values};

    ghost Value = { List Reported };

    ghost view = { λ g. option_map_or (λ v. got_values v.items) g.items [] };
}

impl<A: Allocator> OwnedArgs<A> {
    /// No arguments. Allocates nothing, and needs no allocator.
    pub fn none() -> Self
        ensures { result ≡ [] }
    {
        Self { items: None }
    }

    /// Takes over a vector. Allocates nothing.
    pub fn from_vec(items: Vec<Got<A>, A>) -> Self
        ensures { result ≡ got_values items.items }
    {
        Self { items: Some(items) }
    }

    /// Returns the vector; `None` if there is none, as for a message without arguments. Allocates
    /// nothing.
    pub fn into_vec(self) -> Option<Vec<Got<A>, A>>
        ensures { option_map_or (λ v. got_values v.items) result [] ≡ self }
    {
        self.items
    }

    /// The arguments as a slice.
    pub fn as_slice(&self) -> &[Got<A>]
        ensures { got_values result.now ≡ self.now }
    {
        match &self.items {
            Some(items) => items.as_slice(),
            None => &[],
        }
    }
}

/// The object with an id, live or dead according to its entry. Null if the id is 0 or unknown.
pub fn named<T: Table>(objects: &Objects<T>, id: u32) -> Named
    ensures { (tables : List Interface) (side : Side)
        → result ≡ named_at (reader_of tables side objects.now) id }
{
    if id == 0 {
        return Named::Null;
    }
    match objects.look(id) {
        None => Named::Null,
        Some(entry) => {
            let object = Object {
                id,
                birth: entry.birth,
            };
            match entry.state {
                State::Live => Named::Live(object),
                State::Zombie => Named::Dead(object),
            }
        }
    }
}
