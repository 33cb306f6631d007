//! Delete_ids that nothing asked for.
ghost use Rattle.std.specs.Prelude.{◌≡◌};
ghost use Rattle.wl_check.specs.Deserved.{first_with, is_given_up, undeserved_id};
ghost use Rattle.wl_check.specs.Seen.{known_in};

use crate::changes::MessageChanges;
use crate::known::KnownState;
use std::alloc::Allocator;
use wl_objects::{Entry, State};
use wl_sigs::Tables;

/// A delete_id that nothing asked for: it takes back an id whose object nobody had given up.
///
/// The rules of a session allow it. But the client may have written a request with this id before
/// it reads the delete_id, and that request then breaks a rule.
#[derive(Clone, Copy, Debug, PartialEq, Eq)]
pub struct UndeservedDelete {
    /// The number of the delete_id among the messages of both directions, from 1.
    pub number: u64,
    /// The id that it takes back.
    pub id: u32,
}

/// Whether a delete_id of this object is deserved: the object is ending, or an event of its
/// interface ends it.
fn is_given_up(tables: &Tables, entry: Option<Entry>) -> bool
    ensures { result ≡ is_given_up tables.now entry }
{
    match entry {
        Some(entry) => match entry.state {
            State::Zombie => true,
            State::Live => tables.ends_by_event(entry.iface),
        },
        None => false,
    }
}

/// The id that a message takes back, if the message is a delete_id that is not deserved.
pub(crate) fn undeserved_id<A: Allocator>(
    tables: &Tables,
    known: &KnownState<A>,
    changes: &MessageChanges,
) -> Option<u32>
    ensures { result ≡ undeserved_id tables.now (known_in known.now) changes.now }
{
    let id = changes.deleted?;
    if is_given_up(tables, known.object(id)) {
        None
    } else {
        Some(id)
    }
}

/// Notes the id that the message of this number takes back undeserved, unless one before it did.
#[inline(always)]
pub(crate) fn note_undeserved(first: &mut Option<UndeservedDelete>, number: u64, id: Option<u32>)
    ensures { first.new ≡ first_with first.old number id }
{
    if let (None, Some(id)) = (*first, id) {
        *first = Some(UndeservedDelete { number, id });
    }
}
