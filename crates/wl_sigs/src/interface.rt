//! An interface and its messages.
ghost use Rattle.std.specs.Prelude.{◌≡◌, ◌<◌, ◌++◌, ◌||◌, false, IfOk, map};
ghost use Rattle.std.specs.Prelude.{option_copied, position, bytes_eq};
ghost use Rattle.std.specs.List.{list_any};
ghost use Rattle.std.specs.Option.{option_map_or};
ghost use Rattle.wl_sigs.specs.Extended.{grown_by, unsaid};
ghost use Rattle.wl_sigs.specs.Extending.{is_object_of, is_server_object_of};
ghost use Rattle.wl_sigs.specs.Joined.{message_placed, interface_placed};
ghost use Rattle.wl_sigs.specs.NameHash.{name_hash};
ghost use Rattle.wl_sigs.specs.Places.{PlacesFit, place_in};
ghost use Rattle.wl_sigs.specs.Stored.{interface_of, name_bytes};
ghost use Rattle.wl_sigs.specs.Tables.{has_destroying_event, has_destroying_request};
ghost use Rattle.wl_sigs.specs.Tables.{destroys_target, has_server_object, messages_of};
ghost use Rattle.wl_sigs.specs.Written.{message_written, interface_written};

use crate::core_interfaces::{CoreInterface, CoreMessage};
use crate::name::Name;
use crate::signature::Signature;
use std::alloc::{AllocError, Allocator, Global};
use std::fmt::{self, Debug, Formatter};
use std::marker::Model;
use std::sync::Arc;
use wl_rules::{Destroys, HashedName, Places, Side, name_hash};
use wl_text::{WrittenInterface, WrittenMessage};

/// The name and the messages of an interface.
#[derive(Drop)]
pub(crate) struct InterfaceParts<A: Allocator = Global> {
    name: Name<A>,
    requests: Vec<Signature<A>, A>,
    events: Vec<Signature<A>, A>,
}

/// One interface of the tables. Tables that extend others share its parts with them.
#[derive(Drop)]
pub(crate) struct StoredInterface<A: Allocator = Global> {
    /// `name_hash` of the name.
    hash: u64,
    version: u32,
    /// Whether an event destroys its target.
    is_ended: bool,
    /// Whether an event has a new object of the server.
    has_server_objects: bool,
    parts: Arc<InterfaceParts<A>, A>,
}

impl<A: Allocator> Model for StoredInterface<A> {
    ghost use Rattle.wl_sigs.specs.Tables.{Interface};

    ghost Value = { Interface };

    ghost use Rattle.std.specs.Prelude.{◌≡◌};
    ghost use Rattle.std.specs.Arc.{arc_value};
    ghost use Rattle.wl_sigs.specs.NameHash.{name_hash};
    ghost use Rattle.wl_sigs.specs.Stored.{interface_of, name_bytes};
    ghost use Rattle.std.specs.List.{list_any};
    ghost use Rattle.wl_sigs.specs.Tables.{has_destroying_event, has_server_object};

    ghost view = { λ i. interface_of i.version (arc_value i.parts) };

    ghost invariant = { λ i. record {
      hash : i.hash ≡ name_hash (name_bytes (arc_value i.parts).name);
      ended : i.is_ended ≡ has_destroying_event (interface_of i.version (arc_value i.parts));
      server_objects : i.has_server_objects
          ≡ list_any has_server_object (interface_of i.version (arc_value i.parts)).events;
    } };
}

// Without what the parts give: `hash`, `is_ended` and `has_server_objects`.
impl<A: Allocator + Debug> Debug for StoredInterface<A> {
    fn fmt<W: fmt::Write>(&self, f: &mut Formatter<W>) -> fmt::Result {
        f.debug_struct("StoredInterface")
            .field("name", &self.parts.name)
            .field("version", &self.version)
            .field("requests", &self.parts.requests)
            .field("events", &self.parts.events)
            .finish()
    }
}

impl<A: Allocator> StoredInterface<A> {
    pub(crate) fn name(&self) -> &[u8]
        ensures { result.now ≡ self.now.name }
    {
        self.parts.name.as_slice()
    }

    /// Its name, with the stored hash.
    pub(crate) fn hashed_name(&self) -> HashedName<'_>
        ensures { result ≡ self.now.name }
    {
        HashedName::with_hash(self.name(), self.hash)
    }

    /// Whether this is its name. Names are compared only if their hashes are equal.
    pub(crate) fn has_name(&self, wanted: &HashedName<'_>) -> bool
        ensures { result ≡ bytes_eq self.now.name wanted.now }
    {
        self.hash == wanted.hash() && self.name() == wanted.name()
    }

    pub(crate) fn version(&self) -> u32
        ensures { result ≡ self.now.version }
    {
        self.version
    }

    /// The opcode of the first message of a side with this name.
    pub(crate) fn opcode(&self, side: Side, name: &[u8]) -> Option<usize>
        ensures { result ≡ position (λ m. bytes_eq m.name name.now) (messages_of side self.now) }
    {
        let messages = self.messages(side);
        messages.iter().position(|message| message.name() == name)
    }

    /// Whether an event destroys its target.
    pub(crate) fn has_destroying_event(&self) -> bool
        ensures { result ≡ has_destroying_event self.now }
    {
        self.is_ended
    }

    /// Whether a request destroys its target, if the target has this version.
    pub(crate) fn has_destroying_request(&self, version: u32) -> bool
        ensures { result ≡ has_destroying_request version self.now }
    {
        self.messages(Side::Request)
            .iter()
            .any(|request| request.destroys_at(version))
    }

    /// The messages of a side.
    pub(crate) fn messages(&self, side: Side) -> &[Signature<A>]
        ensures { result.now ≡ messages_of side self.now }
    {
        match side {
            Side::Request => self.parts.requests.as_slice(),
            Side::Event => self.parts.events.as_slice(),
        }
    }

    /// Whether a request has an object of the interface at this index.
    pub(crate) fn takes_object_of(&self, place: usize) -> bool
        ensures { result ≡ list_any (λ m. list_any (is_object_of place) m.kinds) self.now.requests }
    {
        self.messages(Side::Request)
            .iter()
            .any(|request| request.takes_object_of(place))
    }

    /// Whether an event has a new object of the server of the interface at this index.
    pub(crate) fn makes_server_object_of(&self, place: usize) -> bool
        ensures { result
            ≡ list_any (λ m. list_any (is_server_object_of place) m.kinds) self.now.events }
    {
        self.messages(Side::Event)
            .iter()
            .any(|event| event.makes_server_object_of(place))
    }

    /// Whether an event, of its own or of those added to it, destroys its target.
    pub(crate) fn is_ended_with(&self, more: Option<&WrittenInterface<'_, A>>) -> bool
        ensures { result ≡ (has_destroying_event self.now
            || option_map_or (λ w. list_any (λ m. m.destroys) w.events) (option_copied more.entry)
            false) }
    {
        let Some(more) = more else {
            return self.has_destroying_event();
        };
        self.has_destroying_event() || more.has_destroying_event()
    }

    /// Whether an event has a new object of the server.
    pub(crate) fn has_server_objects(&self) -> bool
        ensures { result ≡ list_any has_server_object self.now.events }
    {
        self.has_server_objects
    }
}

impl<A: Allocator + Clone + Drop> StoredInterface<A> {
    #[inline(always)]
    fn new(alloc: &A, hash: u64, version: u32, parts: InterfaceParts<A>) -> Result<Self, AllocError>
        requires { hash ≡ name_hash (name_bytes parts.name) }
        ensures { IfOk result (λ i. i ≡ interface_of version parts) }
    {
        let is_ended = one_destroys(parts.events.as_slice());
        let has_server_objects = one_has_server_object(parts.events.as_slice());
        Ok(StoredInterface {
            hash,
            version,
            is_ended,
            has_server_objects,
            parts: Arc::new(alloc.clone()?, parts)?,
        })
    }

    pub(crate) fn of(alloc: &A, interface: &CoreInterface) -> Result<Self, AllocError>
        ensures { IfOk result (λ i. i ≡ interface_written interface.now) }
    {
        let parts = InterfaceParts {
            name: Name::from_slice(alloc, interface.name)?,
            requests: signatures_of(alloc, interface.requests)?,
            events: signatures_of(alloc, interface.events)?,
        };
        Self::new(alloc, name_hash(interface.name), interface.version, parts)
    }

    /// The interface at a version, with the same parts.
    fn at_version(&self, version: u32) -> Result<Self, AllocError>
        ensures { IfOk result (λ i. i ≡ record {
          name = self.now.name;
          version = version;
          requests = self.now.requests;
          events = self.now.events;
        }) }
    {
        Ok(StoredInterface {
            hash: self.hash,
            version,
            is_ended: self.is_ended,
            has_server_objects: self.has_server_objects,
            parts: self.parts.clone()?,
        })
    }

    /// The interface, with what is added to it. It shares its parts unless messages are added.
    pub(crate) fn grown<'n>(
        &self,
        alloc: &A,
        places: &Places<'n, A>,
        past: usize,
        more: Option<&WrittenInterface<'n, A>>,
    ) -> Result<Self, AllocError>
        requires { PlacesFit (place_in places.now) past }
        ensures { IfOk result (λ i. i
            ≡ grown_by (place_in places.now) past self.now (option_copied more.entry)) }
    {
        let Some(more) = more else {
            return self.at_version(self.version);
        };
        if more.requests.is_empty() && more.events.is_empty() {
            return self.at_version(more.version);
        }
        let parts = InterfaceParts {
            name: self.parts.name.copy(alloc)?,
            requests: grown_signatures(
                alloc,
                places,
                past,
                self.messages(Side::Request),
                more.requests.as_slice(),
            )?,
            events: grown_signatures(
                alloc,
                places,
                past,
                self.messages(Side::Event),
                more.events.as_slice(),
            )?,
        };
        Self::new(alloc, self.hash, more.version, parts)
    }

    /// What a text that does not mention the interface says about it: no message.
    pub(crate) fn unsaid(&self, alloc: &A) -> Result<WrittenInterface<'_, A>, AllocError>
        ensures { IfOk result (λ more. more ≡ unsaid self.now) }
    {
        Ok(WrittenInterface {
            line: 0,
            extends: true,
            name: self.name(),
            version: self.version,
            requests: Vec::new(alloc.clone()?),
            events: Vec::new(alloc.clone()?),
        })
    }

    /// An interface of a text, with the indices of the interfaces that it names.
    pub(crate) fn placed<'n>(
        alloc: &A,
        places: &Places<'n, A>,
        past: usize,
        interface: &WrittenInterface<'n, A>,
    ) -> Result<Self, AllocError>
        requires { PlacesFit (place_in places.now) past }
        ensures { IfOk result (λ i. i ≡ interface_placed (place_in places.now) past interface.now) }
    {
        let parts = InterfaceParts {
            name: Name::from_slice(alloc, interface.name)?,
            requests: placed_signatures(alloc, places, past, interface.requests.as_slice())?,
            events: placed_signatures(alloc, places, past, interface.events.as_slice())?,
        };
        Self::new(alloc, name_hash(interface.name), interface.version, parts)
    }
}

// Whether one of these events destroys its target.
fn one_destroys<A: Allocator>(events: &[Signature<A>]) -> bool
    ensures { result ≡ list_any (λ m. destroys_target m.destroys) events.now }
{
    events
        .iter()
        .any(|event| event.destroys == Destroys::Target)
}

// Whether one of these events has a new object of the server.
fn one_has_server_object<A: Allocator>(events: &[Signature<A>]) -> bool
    ensures { result ≡ list_any has_server_object events.now }
{
    events.iter().any(|event| event.has_server_object())
}

fn copies_of<A: Allocator + Clone + Drop>(
    alloc: &A,
    signatures: &[Signature<A>],
) -> Result<Vec<Signature<A>, A>, AllocError>
    ensures { IfOk result (λ v. v.items ≡ signatures.now) }
{
    let mut copies = Vec::with_capacity(alloc.clone()?, signatures.len())?;
    'signatures: for signature in signatures {
        copies.push(signature.copy(alloc)?)?;
    }
    Ok(copies)
}

// The signatures, followed by those of further messages.
fn grown_signatures<'n, A: Allocator + Clone + Drop>(
    alloc: &A,
    places: &Places<'n, A>,
    past: usize,
    signatures: &[Signature<A>],
    messages: &[WrittenMessage<'n, A>],
) -> Result<Vec<Signature<A>, A>, AllocError>
    requires { PlacesFit (place_in places.now) past }
    ensures { IfOk result (λ v. v.items ≡ signatures.now
        ++ map (message_placed (place_in places.now) past) messages.now) }
{
    let mut all = copies_of(alloc, signatures)?;
    'messages: for message in messages {
        all.push(Signature::placed(alloc, places, past, message)?)?;
    }
    Ok(all)
}

#[inline(always)]
fn placed_signatures<'n, A: Allocator + Clone + Drop>(
    alloc: &A,
    places: &Places<'n, A>,
    past: usize,
    messages: &[WrittenMessage<'n, A>],
) -> Result<Vec<Signature<A>, A>, AllocError>
    requires { PlacesFit (place_in places.now) past }
    ensures { IfOk result (λ v. v.items
        ≡ map (message_placed (place_in places.now) past) messages.now) }
{
    let mut signatures = Vec::with_capacity(alloc.clone()?, messages.len())?;
    'messages: for message in messages {
        signatures.push(Signature::placed(alloc, places, past, message)?)?;
    }
    Ok(signatures)
}

fn signatures_of<A: Allocator + Clone + Drop>(
    alloc: &A,
    messages: &[CoreMessage],
) -> Result<Vec<Signature<A>, A>, AllocError>
    ensures { IfOk result (λ v. v.items ≡ map message_written messages.now) }
{
    let mut signatures = Vec::with_capacity(alloc.clone()?, messages.len())?;
    'messages: for message in messages {
        signatures.push(Signature::of(alloc, message)?)?;
    }
    Ok(signatures)
}
