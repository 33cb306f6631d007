//! The kinds of a message's arguments.
ghost use Rattle.std.specs.Prelude.{◌≡◌, ◌≤◌, ◌<◌, IfOk, count_by, length, map};
ghost use Rattle.std.specs.Prelude.{unwrap_or};
ghost use Rattle.std.specs.List.{list_any};
ghost use Rattle.wl_sigs.specs.Joined.{kind_placed};
ghost use Rattle.wl_sigs.specs.Stored.{kinds_listed};
ghost use Rattle.wl_sigs.specs.Places.{PlacesFit, place_in};
ghost use Rattle.wl_sigs.specs.Tables.{is_descriptor_kind, is_new_object};

use crate::front::Front;
use std::alloc::{AllocError, Allocator, Global};
use std::fmt::{self, Debug, Formatter};
use std::mem::size_of;
use wl_rules::{Places, place_in};
use wl_text::{BareKind, WrittenKind};
use wl_wire::{Iface, Kind};

/// How many kinds are stored in the value itself. Most messages have no more arguments, and
/// together with their count and a tag these kinds fit in the 32 bytes that a vector with a tag
/// takes.
const FEW_KINDS: usize = 4;

const _: () = prove!(size_of::<Kinds>() == 32);

/// The kinds of a message's arguments, in order.
#[derive(Drop)]
pub(crate) enum Kinds<A: Allocator = Global> {
    /// Stored in the value itself.
    Few(Front<Kind, FEW_KINDS>),
    /// Stored in memory of their own.
    Many(Vec<Kind, A>),
}

impl<A: Allocator> Kinds<A> {
    #[inline]
    pub(crate) fn as_slice(&self) -> &[Kind]
        ensures { result.now ≡ kinds_listed self.now }
    {
        match self {
            Kinds::Few(kinds) => kinds.as_slice(),
            Kinds::Many(kinds) => kinds.as_slice(),
        }
    }

    /// Whether one of them is a new object.
    #[inline(always)]
    pub(crate) fn has_new_object(&self) -> bool
        ensures { result ≡ list_any is_new_object (kinds_listed self.now) }
    {
        self.as_slice().iter().any(|kind| is_new_object(*kind))
    }

    /// How many of them are descriptors.
    pub(crate) fn descriptors(&self) -> usize
        ensures { result ≡ count_by is_descriptor_kind (kinds_listed self.now) }
    {
        let kinds = self.as_slice().iter();
        kinds.filter(|kind| matches!(kind, Kind::Fd)).count()
    }
}

impl<A: Allocator + Clone + Drop> Kinds<A> {
    /// A copy of kinds. It allocates only if there are many.
    pub(crate) fn from_slice(alloc: &A, kinds: &[Kind]) -> Result<Self, AllocError>
        ensures { IfOk result (λ kept. kinds_listed kept ≡ kinds.now) }
    {
        if kinds.len() > FEW_KINDS {
            return Ok(Kinds::Many(Vec::from_slice(alloc.clone()?, kinds)?));
        }
        Ok(Kinds::Few(Front::from_slice(Kind::Int, kinds)))
    }

    /// A copy, which allocates only if there are many.
    pub(crate) fn copy(&self, alloc: &A) -> Result<Self, AllocError>
        ensures { IfOk result (λ kept. kinds_listed kept ≡ kinds_listed self.now) }
    {
        match self {
            Kinds::Few(kinds) => Ok(Kinds::Few(kinds.copy())),
            Kinds::Many(kinds) => Kinds::from_slice(alloc, kinds.as_slice()),
        }
    }

    /// The kinds of the arguments of a text's message, with the indices of the interfaces that they
    /// name.
    pub(crate) fn placed<'n>(
        alloc: &A,
        places: &Places<'n, A>,
        past: usize,
        kinds: &[WrittenKind<'n>],
    ) -> Result<Self, AllocError>
        requires { PlacesFit (place_in places.now) past }
        ensures { IfOk result (λ kept.
            kinds_listed kept ≡ map (kind_placed (place_in places.now) past) kinds.now) }
    {
        if kinds.len() > FEW_KINDS {
            return Ok(Kinds::Many(many_placed(alloc, places, past, kinds)?));
        }
        Ok(Kinds::Few(few_placed(places, past, kinds)))
    }
}

impl<A: Allocator> Debug for Kinds<A> {
    fn fmt<W: fmt::Write>(&self, f: &mut Formatter<W>) -> fmt::Result {
        self.as_slice().fmt(f)
    }
}

/// Whether an argument of this kind is a new object, of the client or of the server.
#[inline(always)]
pub fn is_new_object(kind: Kind) -> bool
    ensures { result ≡ is_new_object kind }
{
    matches!(&kind, Kind::New(_) | Kind::NewByServer(_))
}

fn few_placed<'n, A: Allocator>(
    places: &Places<'n, A>,
    past: usize,
    kinds: &[WrittenKind<'n>],
) -> Front<Kind, FEW_KINDS>
    requires fit { PlacesFit (place_in places.now) past }
    requires few { length kinds.now ≤ 4 }
    ensures { result ≡ map (kind_placed (place_in places.now) past) kinds.now }
{
    let mut placed = [Kind::Int; FEW_KINDS];
    'kinds: for (place, kind) in kinds.iter().enumerate() {
        placed[place] = kind_placed(places, past, kind);
    }
    Front::of(placed, kinds.len())
}

fn many_placed<'n, A: Allocator + Clone + Drop>(
    alloc: &A,
    places: &Places<'n, A>,
    past: usize,
    kinds: &[WrittenKind<'n>],
) -> Result<Vec<Kind, A>, AllocError>
    requires { PlacesFit (place_in places.now) past }
    ensures { IfOk result (λ v. v.items ≡ map (kind_placed (place_in places.now) past) kinds.now) }
{
    let mut placed = Vec::with_capacity(alloc.clone()?, kinds.len())?;
    'kinds: for kind in kinds {
        placed.push(kind_placed(places, past, kind))?;
    }
    Ok(placed)
}

// The kind of an argument with the index of its interface, or `past` if its name has none.
fn kind_placed<'n, A: Allocator>(places: &Places<'n, A>, past: usize, k: &WrittenKind<'n>) -> Kind
    requires { PlacesFit (place_in places.now) past }
    ensures { result ≡ kind_placed (place_in places.now) past k.now }
{
    let iface = match k.iface {
        Some(name) => {
            let place = place_in(places, name).unwrap_or(past);
            Some(Iface(place as u16))
        }
        None => None,
    };
    match k.kind {
        BareKind::Int => Kind::Int,
        BareKind::Uint => Kind::Uint,
        BareKind::Fixed => Kind::Fixed,
        BareKind::Str { null } => Kind::Str { null },
        BareKind::Obj { null } => Kind::Obj { null, iface },
        BareKind::New => Kind::New(iface),
        BareKind::NewByServer => Kind::NewByServer(iface.unwrap_or(Iface(past as u16))),
        BareKind::Array => Kind::Array,
        BareKind::Fd => Kind::Fd,
    }
}
