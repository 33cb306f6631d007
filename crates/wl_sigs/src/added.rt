//! The rules of valid tables, for the lines that add messages to interfaces of the tables.
ghost use Rattle.std.specs.Prelude.{◌≡◌, ℕ, ◌≤◌, ◌++◌, length, map, IfOk, option_map, Some};
ghost use Rattle.std.specs.Prelude.{option_copied};
ghost use Rattle.wl_sigs.specs.BrokenLines.{IsOwner, broken, added_here};
ghost use Rattle.wl_sigs.specs.FirstBroken.{written_of};
ghost use Rattle.wl_sigs.specs.Extending.{behind_own_messages, clash_rule, lesser};
ghost use Rattle.wl_sigs.specs.Extending.{added_side_broken};
ghost use Rattle.wl_sigs.specs.Extending.{added_broken, has_argument, is_object_of};
ghost use Rattle.wl_sigs.specs.Extending.{is_server_object_of};
ghost use Rattle.wl_sigs.specs.Places.{place_in};
ghost use Rattle.wl_sigs.specs.Tables.{Interface, interface_at, max_messages, messages_of};
ghost use Rattle.wl_sigs.specs.Side.{Side};
ghost use Rattle.wl_sigs.specs.Side.TheVariants.{Request, Event};

use crate::interface::StoredInterface;
use crate::signature::Signature;
use std::alloc::{AllocError, Allocator};
use wl_rules::{
    BrokenLine, HashedName, Owner, Places, Side, broken_at, earlier, is_first_name, message_rule,
    places_of,
};
use wl_text::{WrittenInterface, WrittenMessage};

/// What the rules need to know about all interfaces: those of the tables, the first index of each
/// name, and which an event may end.
#[derive(Drop)]
pub(crate) struct Known<'k, 'n, A: Allocator> {
    pub(crate) interfaces: &'n [StoredInterface<A>],
    pub(crate) places: &'k Places<'n, A>,
    pub(crate) ended: &'k [bool],
}

// Whether a request has an object of the interface at this index.
fn is_argument<A: Allocator>(interfaces: &[StoredInterface<A>], place: usize) -> bool
    ensures { result ≡ has_argument (is_object_of place) interfaces.now Request }
{
    interfaces.iter().any(|entry| entry.takes_object_of(place))
}

// Whether an event has a new object of the server of the interface at this index.
fn is_server_object<A: Allocator>(interfaces: &[StoredInterface<A>], place: usize) -> bool
    ensures { result ≡ has_argument (is_server_object_of place) interfaces.now Event }
{
    interfaces
        .iter()
        .any(|entry| entry.makes_server_object_of(place))
}

// The lowest rule that an added message breaks because of what the tables already have.
fn clash_rule<'n, A: Allocator>(
    interfaces: &[StoredInterface<A>],
    place: usize,
    entry: &StoredInterface<A>,
    side: Side,
    message: &WrittenMessage<'n, A>,
) -> Option<u8>
    ensures { result ≡ clash_rule interfaces.now place entry.now side message.now }
{
    match side {
        Side::Request if entry.has_destroying_event() => Some(7),
        Side::Event if message.destroys && is_argument(interfaces, place) => Some(7),
        Side::Event if message.destroys && is_server_object(interfaces, place) => Some(11),
        _ => None,
    }
}

// The lower of two rules.
fn lesser(rule: Option<u8>, other: Option<u8>) -> Option<u8>
    ensures { result ≡ lesser rule other }
{
    match (rule, other) {
        (Some(rule), Some(other)) if other < rule => Some(other),
        (None, other) => other,
        (rule, _) => rule,
    }
}

// The names of the messages of a side, followed by those of the added messages.
fn names_behind<'n, A: Allocator + Clone + Drop>(
    alloc: &A,
    signatures: &'n [Signature<A>],
    messages: &[WrittenMessage<'n, A>],
) -> Result<Vec<HashedName<'n>, A>, AllocError>
    ensures { IfOk result (λ names. names.items
        ≡ map (λ m. m.name) signatures.now ++ map (λ m. m.name) messages.now) }
{
    let mut names = Vec::with_capacity(alloc.clone()?, signatures.len() + messages.len())?;
    for signature in signatures {
        names.push(HashedName::new(signature.name()))?;
    }
    for message in messages {
        names.push(HashedName::new(message.name))?;
    }
    Ok(names)
}

// The messages of a side.
fn messages_of<'w, 'n, A: Allocator>(
    interface: &'w WrittenInterface<'n, A>,
    side: Side,
) -> &'w [WrittenMessage<'n, A>]
    ensures { result.now ≡ written_of side interface.now }
{
    match side {
        Side::Request => interface.requests.as_slice(),
        Side::Event => interface.events.as_slice(),
    }
}

// What the rules of an added message need to know about its interface.
#[tactic(auto, using(crate::proofs::Grown::empty_behind))]
fn owner_with<'n, A: Allocator>(
    entry: &StoredInterface<A>,
    more: &WrittenInterface<'n, A>,
    side: Side,
) -> Owner
    ensures { (result.side ≡ side) × IsOwner result (behind_own_messages entry.now more.now) }
{
    let has_none = entry.messages(Side::Request).is_empty() && more.requests.is_empty();
    Owner {
        side,
        version: more.version,
        has_requests: !has_none,
    }
}

// The first line that adds a message of this side to an interface and breaks a rule.
fn added_side_broken<'k, 'n, A: Allocator + Clone + Drop>(
    alloc: &A,
    known: &Known<'k, 'n, A>,
    here: usize,
    entry: &'n StoredInterface<A>,
    more: &WrittenInterface<'n, A>,
    side: Side,
) -> Result<Option<BrokenLine>, AllocError>
    requires { length (messages_of side entry.now) ≤ max_messages }
    ensures { IfOk result (λ found. option_map broken found
        ≡ added_side_broken known.now.interfaces.now (place_in known.now.places.now)
        known.now.ended.now here entry.now more.now side) }
{
    let signatures = entry.messages(side);
    let messages = messages_of(more, side);
    if messages.is_empty() {
        return Ok(None);
    }
    let names = names_behind(alloc, signatures, messages)?;
    let opcodes = places_of(alloc, names.as_slice())?;
    let owner = owner_with(entry, more, side);
    let mut first = None;
    for (index, message) in messages.iter().enumerate() {
        let opcode = signatures.len() + index;
        let is_named = is_first_name(&opcodes, message.name, opcode);
        let rule = message_rule(known.places, known.ended, owner, is_named, opcode, message);
        let rule = lesser(
            rule,
            clash_rule(known.interfaces, here, entry, side, message),
        );
        first = earlier(first, broken_at(message.line, rule));
    }
    Ok(first)
}

// The first line that adds a message to the interface at an index and breaks a rule.
fn added_here<'k, 'n, A: Allocator + Clone + Drop>(
    alloc: &A,
    known: &Known<'k, 'n, A>,
    here: usize,
    entry: &'n StoredInterface<A>,
    more: Option<&WrittenInterface<'n, A>>,
) -> Result<Option<BrokenLine>, AllocError>
    requires { (side : Side) → length (messages_of side entry.now) ≤ max_messages }
    ensures { IfOk result (λ found. option_map broken found
        ≡ added_here known.now.interfaces.now (place_in known.now.places.now)
        known.now.ended.now here entry.now (option_copied more.entry)) }
{
    let Some(more) = more else {
        return Ok(None);
    };
    let requests = added_side_broken(alloc, known, here, entry, more, Side::Request)?;
    let events = added_side_broken(alloc, known, here, entry, more, Side::Event)?;
    Ok(earlier(requests, events))
}

/// The first line that adds a message to one of these interfaces and breaks a rule.
pub(crate) fn added_broken<'k, 'n, A: Allocator + Clone + Drop>(
    alloc: &A,
    known: &Known<'k, 'n, A>,
    added: &[WrittenInterface<'n, A>],
) -> Result<Option<BrokenLine>, AllocError>
    requires { (place : ℕ) (i : Interface) (side : Side)
        → interface_at known.now.interfaces.now place ≡ Some i
        → length (messages_of side i) ≤ max_messages }
    ensures { IfOk result (λ found. option_map broken found
        ≡ added_broken known.now.interfaces.now (place_in known.now.places.now)
        known.now.ended.now 0 known.now.interfaces.now added.now) }
{
    let interfaces = known.interfaces;
    let mut first = None;
    for (here, entry) in interfaces.iter().enumerate() {
        let more = added.get(here);
        let found = added_here(alloc, known, here, entry, more)?;
        first = earlier(first, found);
    }
    Ok(first)
}
