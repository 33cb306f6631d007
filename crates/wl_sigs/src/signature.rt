//! What the tables say about one message.
ghost use Rattle.std.specs.Prelude.{◌≡◌, ◌<◌, ◌&&◌, IfOk, nat_le};
ghost use Rattle.wl_sigs.specs.Joined.{destroys_of, message_placed};
ghost use Rattle.std.specs.List.{list_any};
ghost use Rattle.wl_sigs.specs.Extending.{is_object_of, is_server_object_of};
ghost use Rattle.wl_sigs.specs.Places.{PlacesFit, place_in};
ghost use Rattle.wl_sigs.specs.Stored.{kinds_listed, name_bytes};
ghost use Rattle.wl_sigs.specs.Tables.{destroys_target, has_server_object};
ghost use Rattle.wl_sigs.specs.Written.{message_written};

use crate::core_interfaces::CoreMessage;
use crate::kinds::Kinds;
use crate::name::Name;
use std::alloc::{AllocError, Allocator, Global};
use std::fmt::{self, Debug, Formatter};
use std::marker::Model;
use wl_rules::{Destroys, Places};
use wl_text::WrittenMessage;
use wl_wire::{Iface, Kind};

/// The signature of a request or an event.
#[derive(Drop)]
pub struct Signature<A: Allocator = Global> {
    name: Name<A>,
    /// The version of its interface that introduced the message.
    pub since: u32,
    kinds: Kinds<A>,
    /// What the message destroys.
    pub destroys: Destroys,
    /// Whether one of its kinds is a new object, of the client or of the server.
    pub has_new_object: bool,
    /// How many of its kinds are descriptors, which is how many tokens the message takes.
    pub descriptors: usize,
}

impl<A: Allocator> Model for Signature<A> {
    ghost use Rattle.wl_sigs.specs.Tables.{MessageSignature};

    ghost Value = { MessageSignature };

    ghost use Rattle.wl_sigs.specs.Stored.{name_bytes, kinds_listed};

    ghost view = { λ s. record {
      name = name_bytes s.name;
      since = s.since;
      kinds = kinds_listed s.kinds;
      destroys = s.destroys;
    } };

    ghost use Rattle.std.specs.Prelude.{◌≡◌, count_by};
    ghost use Rattle.std.specs.List.{list_any};
    ghost use Rattle.wl_sigs.specs.Tables.{is_descriptor_kind, is_new_object};

    ghost invariant = { λ s. record {
      new_object : s.has_new_object ≡ list_any is_new_object (kinds_listed s.kinds);
      tokens : s.descriptors ≡ count_by is_descriptor_kind (kinds_listed s.kinds);
    } };
}

// Without what the kinds give: `has_new_object` and `descriptors`.
impl<A: Allocator> Debug for Signature<A> {
    fn fmt<W: fmt::Write>(&self, f: &mut Formatter<W>) -> fmt::Result {
        f.debug_struct("Signature")
            .field("name", &self.name)
            .field("since", &self.since)
            .field("kinds", &self.kinds)
            .field("destroys", &self.destroys)
            .finish()
    }
}

impl<A: Allocator> Signature<A> {
    #[inline(always)]
    fn new(name: Name<A>, since: u32, kinds: Kinds<A>, destroys: Destroys) -> Self
        ensures { result ≡ record {
          name = name_bytes name;
          since = since;
          kinds = kinds_listed kinds;
          destroys = destroys;
        } }
    {
        let has_new_object = kinds.has_new_object();
        let descriptors = kinds.descriptors();
        Signature {
            name,
            since,
            kinds,
            destroys,
            has_new_object,
            descriptors,
        }
    }

    /// The message's name, for example `commit`.
    pub fn name(&self) -> &[u8]
        ensures { result.now ≡ self.now.name }
    {
        self.name.as_slice()
    }

    /// The kinds of its arguments, in order.
    #[inline]
    pub fn kinds(&self) -> &[Kind]
        ensures { result.now ≡ self.now.kinds }
    {
        self.kinds.as_slice()
    }

    /// Whether one of its arguments is a new object of the server.
    pub(crate) fn has_server_object(&self) -> bool
        ensures { result ≡ has_server_object self.now }
    {
        self.kinds()
            .iter()
            .any(|kind| matches!(kind, Kind::NewByServer(_)))
    }

    /// Whether one of its arguments is an object of the interface at this index.
    pub(crate) fn takes_object_of(&self, place: usize) -> bool
        ensures { result ≡ list_any (is_object_of place) self.now.kinds }
    {
        self.kinds().iter().any(|kind| is_object_of(*kind, place))
    }

    /// Whether one of its arguments is a new object of the server of the interface at this index.
    pub(crate) fn makes_server_object_of(&self, place: usize) -> bool
        ensures { result ≡ list_any (is_server_object_of place) self.now.kinds }
    {
        self.kinds()
            .iter()
            .any(|kind| is_server_object_of(*kind, place))
    }

    /// Whether the message destroys its target, if the target has this version.
    pub(crate) fn destroys_at(&self, version: u32) -> bool
        ensures { result ≡ (destroys_target self.now.destroys && nat_le self.now.since version) }
    {
        matches!(self.destroys, Destroys::Target) && self.since <= version
    }
}

impl<A: Allocator + Clone + Drop> Signature<A> {
    pub(crate) fn of(alloc: &A, message: &CoreMessage) -> Result<Self, AllocError>
        ensures { IfOk result (λ s. s ≡ message_written message.now) }
    {
        let name = Name::from_slice(alloc, message.name)?;
        let kinds = Kinds::from_slice(alloc, message.kinds)?;
        Ok(Signature::new(name, message.since, kinds, message.destroys))
    }

    /// An owned copy of the signature.
    pub(crate) fn copy(&self, alloc: &A) -> Result<Self, AllocError>
        ensures { IfOk result (λ s. s ≡ self.now) }
    {
        Ok(Signature {
            name: self.name.copy(alloc)?,
            since: self.since,
            kinds: self.kinds.copy(alloc)?,
            destroys: self.destroys,
            has_new_object: self.has_new_object,
            descriptors: self.descriptors,
        })
    }

    /// The signature of a message of a text, with the indices of the interfaces that it names.
    pub(crate) fn placed<'n>(
        alloc: &A,
        places: &Places<'n, A>,
        past: usize,
        message: &WrittenMessage<'n, A>,
    ) -> Result<Self, AllocError>
        requires { PlacesFit (place_in places.now) past }
        ensures { IfOk result (λ s. s ≡ message_placed (place_in places.now) past message.now) }
    {
        let name = Name::from_slice(alloc, message.name)?;
        let kinds = Kinds::placed(alloc, places, past, message.kinds.as_slice())?;
        let destroys = destroys_of(message.destroys);
        Ok(Signature::new(name, message.since, kinds, destroys))
    }
}

fn is_object_of(kind: Kind, place: usize) -> bool
    ensures { result ≡ is_object_of place kind }
{
    match kind {
        Kind::Obj {
            iface: Some(Iface(at)),
            ..
        } => at as usize == place,
        _ => false,
    }
}

fn is_server_object_of(kind: Kind, place: usize) -> bool
    ensures { result ≡ is_server_object_of place kind }
{
    match kind {
        Kind::NewByServer(Iface(at)) => at as usize == place,
        _ => false,
    }
}

// What a message destroys: its target, or nothing.
fn destroys_of(target: bool) -> Destroys
    ensures { result ≡ destroys_of target }
{
    if target {
        Destroys::Target
    } else {
        Destroys::Nothing
    }
}
