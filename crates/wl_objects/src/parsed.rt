//! The arguments of a message, parsed once.
ghost use Rattle.std.specs.Prelude.{◌≡◌, ◌≤◌, ℕ, Bool, List, [], IfOk, IfSome, IsTrue, Ok, drop};
ghost use Rattle.std.specs.Prelude.{length, option_map, slice_get};
ghost use Rattle.wl_wire.specs.Argument.{Obj, lent};
ghost use Rattle.wl_sigs.specs.Tables.{max_args};
ghost use Rattle.wl_objects.specs.Reading.{arguments_at, forgiving, forgiving_kind, named};
ghost use Rattle.wl_objects.specs.Reading.{value_fault};
ghost use Rattle.wl_wire.specs.Reading.{reading};
ghost use Rattle.wl_objects.specs.Parsed.{AreParsed, TextLiesBehind, is_number};
ghost use Rattle.wl_objects.specs.Parsed.{parsed_argument, view_outcome};
ghost use Rattle.wl_objects.specs.Parsed.{parsed_object, parsed_view_outcome, body_part, placed_of};
ghost use Rattle.wl_objects.specs.Parsed.{spelled_in, parsed_body_outcome};

use crate::args::in_state;
use crate::argument::Named;
use crate::error::Fault;
use crate::lookup::Lookup;
use crate::reading::{iface_of, new_fault, new_id_as, object_fault};
use std::fmt::{self, Debug, Formatter};
use std::marker::Model;
use std::mem::size_of;
use wl_object_map::{Entry, Object, State};
use wl_sigs::MAX_ARGS;
use wl_wire::{Fixed, Kind, ValueRef, read_ref};

/// One argument of a message that was read. A string or an array is given by its length and its
/// start in the message's body, an object by its entry when the message was read. The order of the
/// fields keeps an argument at 24 bytes; a report holds `MAX_ARGS` of them.
#[derive(Clone, Copy, Debug)]
pub enum ParsedArg {
    /// The null string.
    Null,
    Int(i32),
    Uint(u32),
    Fixed(Fixed),
    Str {
        len: u32,
        start: usize,
    },
    /// An object argument that is null, or names no object of the reader.
    NoObject {
        id: u32,
    },
    Object {
        id: u32,
        birth: u64,
        state: State,
    },
    New {
        id: u32,
    },
    /// A new object for which the message gives the interface, a string, and the version.
    Bound {
        len: u32,
        start: usize,
        version: u32,
        id: u32,
    },
    Array {
        len: u32,
        start: usize,
    },
    /// A descriptor, by how many come before it in the message.
    Fd {
        place: usize,
    },
}

const _: () = prove!(size_of::<ParsedArg>() == 24);

/// The arguments of one message, at most `MAX_ARGS`. They hold no allocation and borrow nothing. An
/// end keeps one of these, and each message is parsed over the one before.
#[derive(Drop)]
pub struct ParsedArgs {
    items: [ParsedArg; MAX_ARGS],
    count: usize,
}

impl Model for ParsedArgs {
    ghost use Rattle.std.specs.Prelude.{List, ◌≤◌, take};
    ghost use Rattle.wl_sigs.specs.Tables.{max_args};
    ghost use Rattle.wl_objects.specs.declared.parsed.ParsedArg.{ParsedArg};

    ghost Value = { List ParsedArg };

    ghost view = { λ p. take p.count p.items };

    ghost invariant = { λ p. p.count ≤ max_args };
}

impl ParsedArgs {
    /// No arguments.
    pub fn new() -> Self
        ensures { result ≡ [] }
    {
        Self {
            items: [ParsedArg::Null; MAX_ARGS],
            count: 0,
        }
    }

    /// How many arguments there are.
    pub fn len(&self) -> usize
        ensures { result ≡ length self.now }
    {
        self.as_slice().len()
    }

    /// The arguments as a slice.
    pub fn as_slice(&self) -> &[ParsedArg]
        ensures { result.now ≡ self.now }
    {
        &self.items[..self.count]
    }

    /// The argument at an index, from 0, of a message with this body.
    pub fn value<'a>(&self, body: &'a [u8], place: usize) -> Option<ValueRef<'a>>
        ensures { option_map lent result ≡ slice_get (spelled_in body.now self.now) place }
    {
        let parsed = self.as_slice().get(place)?;
        Some(value_of(body, *parsed))
    }

    /// The object that the argument at an index, from 0, names, as it was when the message was
    /// read; null if it names none.
    pub fn object(&self, place: usize) -> Named
        ensures { result ≡ parsed_object (slice_get self.now place) }
    {
        match self.as_slice().get(place) {
            Some(ParsedArg::Object { id, birth, state }) => in_state(
                *state,
                Object {
                    id: *id,
                    birth: *birth,
                },
            ),
            _ => Named::Null,
        }
    }
}

impl Debug for ParsedArgs {
    fn fmt<W: fmt::Write>(&self, f: &mut Formatter<W>) -> fmt::Result {
        self.as_slice().fmt(f)
    }
}

/// An argument as spelled.
pub(crate) fn value_of(body: &[u8], parsed: ParsedArg) -> ValueRef<'_>
    ensures { lent result ≡ parsed_argument body.now parsed }
{
    match parsed {
        ParsedArg::Null => ValueRef::Str(None),
        ParsedArg::Int(number) => ValueRef::Int(number),
        ParsedArg::Uint(number) => ValueRef::Uint(number),
        ParsedArg::Fixed(number) => ValueRef::Fixed(number),
        ParsedArg::Str { len, start } => ValueRef::Str(Some(part(body, start, len as usize))),
        ParsedArg::NoObject { id } | ParsedArg::Object { id, .. } => ValueRef::Obj(id),
        ParsedArg::New { id } => ValueRef::New(id),
        ParsedArg::Bound {
            len,
            start,
            version,
            id,
        } => ValueRef::NewNamed {
            iface: part(body, start, len as usize),
            version,
            id,
        },
        ParsedArg::Array { len, start } => ValueRef::Array(part(body, start, len as usize)),
        ParsedArg::Fd { .. } => ValueRef::Fd,
    }
}

/// At most `len` bytes from `start`.
pub(crate) fn part(bytes: &[u8], start: usize, len: usize) -> &[u8]
    ensures { result.now ≡ body_part bytes.now start len }
{
    let rest = &bytes[start.min(bytes.len())..];
    &rest[..len.min(rest.len())]
}

/// A message's body as a reader parses it: what the reader knows of objects and ids, and whether an
/// object may be null or unknown.
#[derive(Drop)]
pub(crate) struct Parser<'a, L: Lookup> {
    pub lookup: &'a L,
    pub forgives: bool,
    pub body: &'a [u8],
}

impl<'a, L: Lookup> Parser<'a, L> {
    /// Parses the arguments at the front of the body, one of each kind, over those parsed before,
    /// and returns the bytes after them; or the first fault. Each object is looked up once.
    #[inline(always)]
    pub fn parse_body(&self, kinds: &[Kind], args: &mut ParsedArgs) -> Result<&'a [u8], Fault>
        requires few { length kinds.now ≤ max_args }
        ensures answer { parsed_body_outcome self.now.body.now args.new result
            ≡ arguments_at (forgiving self.now.forgives (L.reader self.now.lookup.now)) 0 kinds.now
            self.now.body.now }
        ensures args { IfOk result
            (λ _. AreParsed (L.reader self.now.lookup.now) self.now.body.now args.new
            (spelled_in self.now.body.now args.new)) }
    {
        let mut end = 0;
        let mut descriptors = 0;
        'kinds: for (place, kind) in kinds.iter().enumerate() {
            let rest = &self.body[end..];
            // Most arguments are numbers. `resolve` would keep them in the same way, but slower.
            if let Some((number, len)) = read_number(*kind, rest) {
                args.items[place] = number;
                end += len;
                continue;
            }
            // In wl_display.error an object may be null. What else the kind asks of it is judged by
            // `resolve`.
            let read_as = match *kind {
                Kind::Obj { iface, .. } if self.forgives => Kind::Obj { null: true, iface },
                kind => kind,
            };
            let (value, len) = match read_ref(read_as, rest) {
                Ok(found) => found,
                Err(fault) => return Err(Fault::BadArgument(place, fault)),
            };
            args.items[place] = self.resolve(place, *kind, end, descriptors, value)?;
            if let ValueRef::Fd = value {
                descriptors += 1;
            }
            end += len;
        }
        args.count = kinds.len();
        Ok(&self.body[end..])
    }

    /// Judges a value whose spelling starts at `start`, and keeps where it lies. (No number comes
    /// here: `parse_body` keeps those itself.)
    fn resolve(
        &self,
        place: usize,
        kind: Kind,
        start: usize,
        descriptors: usize,
        value: ValueRef<'_>,
    ) -> Result<ParsedArg, Fault>
        requires start { start ≤ length self.now.body.now }
        requires lies { TextLiesBehind (drop start self.now.body.now) (lent value) }
        ensures { parsed_view_outcome self.now.body.now (L.reader self.now.lookup.now).birth result
            ≡ view_outcome (L.reader self.now.lookup.now) descriptors (lent value.entry)
            (value_fault (forgiving self.now.forgives (L.reader self.now.lookup.now)) place kind
            (lent value.entry)) }
    {
        // Behind the word with the length.
        let text = start + 4;
        match value {
            ValueRef::Int(number) => Ok(ParsedArg::Int(number)),
            ValueRef::Uint(number) => Ok(ParsedArg::Uint(number)),
            ValueRef::Fixed(number) => Ok(ParsedArg::Fixed(number)),
            ValueRef::Str(None) => Ok(ParsedArg::Null),
            ValueRef::Str(Some(string)) => Ok(ParsedArg::Str {
                len: string.len() as u32,
                start: text,
            }),
            ValueRef::Obj(id) => self.resolve_object(place, kind, id),
            ValueRef::New(id) => {
                new_fault(place, new_id_as(self.lookup, kind, id))?;
                Ok(ParsedArg::New { id })
            }
            ValueRef::NewNamed { iface, version, id } => {
                new_fault(place, self.lookup.new_id(id))?;
                Ok(ParsedArg::Bound {
                    len: iface.len() as u32,
                    start: text,
                    version,
                    id,
                })
            }
            ValueRef::Array(bytes) => Ok(ParsedArg::Array {
                len: bytes.len() as u32,
                start: text,
            }),
            ValueRef::Fd => Ok(ParsedArg::Fd { place: descriptors }),
        }
    }

    /// Judges an object argument, and keeps the object's entry.
    fn resolve_object(&self, place: usize, kind: Kind, id: u32) -> Result<ParsedArg, Fault>
        ensures { (descriptors : ℕ)
            → parsed_view_outcome self.now.body.now (L.reader self.now.lookup.now).birth result
            ≡ view_outcome (L.reader self.now.lookup.now) descriptors (Obj id)
            (value_fault (forgiving self.now.forgives (L.reader self.now.lookup.now)) place kind
            (Obj id)) }
    {
        if id == 0 {
            return Ok(ParsedArg::NoObject { id });
        }
        let entry = self.lookup.object(id);
        if !self.forgives {
            object_fault(place, iface_of(kind), entry)?;
        }
        Ok(object_of(id, entry))
    }
}

/// An object argument by its entry.
fn object_of(id: u32, entry: Option<Entry>) -> ParsedArg
    ensures spelled { (body : List ℕ) → parsed_argument body result ≡ Obj id }
    ensures reported { (body : List ℕ) (birth : ℕ)
        → placed_of body birth result ≡ Obj (named id entry) }
{
    match entry {
        None => ParsedArg::NoObject { id },
        Some(entry) => ParsedArg::Object {
            id,
            birth: entry.birth,
            state: entry.state,
        },
    }
}

/// The number at the front of these bytes, with its length, if the kind is a number's.
#[inline(always)]
fn read_number(kind: Kind, bytes: &[u8]) -> Option<(ParsedArg, usize)>
    ensures read { IfSome result
        (λ found. reading kind bytes.now ≡ Ok (parsed_argument [] found.0, found.1)) }
    ensures number { IfSome result (λ found. IsTrue (is_number found.0)) }
    ensures kind { IfSome result
        (λ _. (forgives : Bool) → forgiving_kind forgives kind ≡ kind) }
    ensures within { IfSome result (λ found. found.1 ≤ length bytes.now) }
{
    match kind {
        Kind::Int | Kind::Uint | Kind::Fixed => match read_ref(kind, bytes) {
            Ok((ValueRef::Int(number), len)) => Some((ParsedArg::Int(number), len)),
            Ok((ValueRef::Uint(number), len)) => Some((ParsedArg::Uint(number), len)),
            Ok((ValueRef::Fixed(number), len)) => Some((ParsedArg::Fixed(number), len)),
            _ => None,
        },
        _ => None,
    }
}
