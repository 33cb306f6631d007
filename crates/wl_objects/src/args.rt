//! The arguments of a report, borrowed.
ghost use Rattle.std.specs.Prelude.{◌≡◌, ◌≢◌, ◌↔◌, IsTrue, [], ◌∷◌, IfOk, OnErr, MatchOption};
ghost use Rattle.std.specs.Prelude.{length};
ghost use Rattle.wl_objects.specs.Reading.{in_state};
ghost use Rattle.wl_objects.specs.Seen.{got};
ghost use Rattle.wl_objects.specs.Parsed.{lent_got, reported_in, seen_args, token_at};

use crate::argument::{Got, GotRef, Named};
use crate::parsed::{ParsedArg, ParsedArgs, part};
use crate::reporting::OwnedArgs;
use std::alloc::{AllocError, Allocator};
use wl_object_map::{Object, State};
use wl_wire::Bytes;

/// The remaining arguments of a message, in order. They, their strings and their arrays are
/// borrowed from the end that read the message, until it reads the next one.
#[derive(Clone, Copy)]
pub struct Args<'a> {
    /// The message's body.
    body: &'a [u8],
    /// The message's tokens.
    tokens: &'a [u32],
    /// The birth of an object that the message made.
    birth: u64,
    left: &'a [ParsedArg],
}

impl<'a> Args<'a> {
    /// The arguments of a message with this body and these tokens; an object that it makes has this
    /// birth.
    pub fn new(args: &'a ParsedArgs, body: &'a [u8], tokens: &'a [u32], birth: u64) -> Args<'a>
        ensures { seen_args result ≡ reported_in body.now birth tokens.now args.now }
    {
        Args {
            body,
            tokens,
            birth,
            left: args.as_slice(),
        }
    }

    /// How many arguments remain.
    pub fn len(&self) -> usize
        ensures { result ≡ length (seen_args self.now) }
    {
        self.left.len()
    }

    /// Whether no argument remains.
    pub fn is_empty(&self) -> bool
        ensures { IsTrue result ↔ (seen_args self.now ≡ []) }
    {
        self.left.is_empty()
    }

    /// Takes out the next argument.
    #[inline(always)]
    pub fn next(&mut self) -> Option<GotRef<'a>>
        ensures { MatchOption result ((seen_args self.old ≡ []) × (seen_args self.new ≡ []))
            (λ got. seen_args self.old ≡ lent_got got ∷ seen_args self.new) }
    {
        let (parsed, left) = self.left.split_first()?;
        self.left = left;
        let new_birth = self.birth;
        Some(match *parsed {
            ParsedArg::Null => GotRef::Str(None),
            ParsedArg::Int(number) => GotRef::Int(number),
            ParsedArg::Uint(number) => GotRef::Uint(number),
            ParsedArg::Fixed(number) => GotRef::Fixed(number),
            ParsedArg::Str { len, start } => {
                GotRef::Str(Some(part(self.body, start, len as usize)))
            }
            ParsedArg::NoObject { .. } => GotRef::Obj(Named::Null),
            ParsedArg::Object { id, birth, state } => {
                GotRef::Obj(in_state(state, Object { id, birth }))
            }
            ParsedArg::New { id } => GotRef::New(Object {
                id,
                birth: new_birth,
            }),
            ParsedArg::Bound {
                len,
                start,
                version,
                id,
            } => GotRef::Bound {
                iface: part(self.body, start, len as usize),
                version,
                object: Object {
                    id,
                    birth: new_birth,
                },
            },
            ParsedArg::Array { len, start } => GotRef::Array(part(self.body, start, len as usize)),
            ParsedArg::Fd { place } => GotRef::Fd(token_at(self.tokens, place)),
        })
    }
}

impl<'a> Args<'a> {
    /// An owned copy of the remaining arguments. Allocates nothing if there are none.
    pub fn to_owned<A: Allocator + Clone + Drop>(
        &self,
        alloc: &A,
    ) -> Result<OwnedArgs<A>, AllocError>
        ensures ok { IfOk result (λ owned. owned ≡ seen_args self.now) }
        ensures err { OnErr result (seen_args self.now ≢ []) }
    {
        if self.is_empty() {
            return Ok(OwnedArgs::none());
        }
        let mut items = Vec::new(alloc.clone()?);
        let mut left = *self;
        'left: while let Some(argument) = left.next() {
            items.push(owned(alloc, argument)?)?;
        }
        Ok(OwnedArgs::from_vec(items))
    }
}

/// An owned copy of an argument.
fn owned<A: Allocator + Clone + Drop>(alloc: &A, argument: GotRef<'_>) -> Result<Got<A>, AllocError>
    ensures { IfOk result (λ owned. got owned ≡ lent_got argument.entry) }
{
    match argument {
        GotRef::Int(number) => Ok(Got::Int(number)),
        GotRef::Uint(number) => Ok(Got::Uint(number)),
        GotRef::Fixed(number) => Ok(Got::Fixed(number)),
        GotRef::Str(None) => Ok(Got::Str(None)),
        GotRef::Str(Some(text)) => Ok(Got::Str(Some(Bytes::copy_of(alloc.clone()?, text)?))),
        GotRef::Obj(object) => Ok(Got::Obj(object)),
        GotRef::New(object) => Ok(Got::New(object)),
        GotRef::Bound {
            iface,
            version,
            object,
        } => Ok(Got::Bound {
            iface: Bytes::copy_of(alloc.clone()?, iface)?,
            version,
            object,
        }),
        GotRef::Array(bytes) => Ok(Got::Array(Bytes::copy_of(alloc.clone()?, bytes)?)),
        GotRef::Fd(token) => Ok(Got::Fd(token)),
    }
}

/// An object, live or dead according to its entry.
pub(crate) fn in_state(state: State, object: Object) -> Named
    ensures { result ≡ in_state state object }
{
    match state {
        State::Live => Named::Live(object),
        State::Zombie => Named::Dead(object),
    }
}

/// The token at an index; 0 if there is none.
fn token_at(tokens: &[u32], place: usize) -> u32
    ensures { result ≡ token_at tokens.now place }
{
    match tokens.get(place) {
        Some(token) => *token,
        None => 0,
    }
}
