//! Reading one message, using an end's table of objects.
ghost use Rattle.std.specs.Prelude.{◌≡◌, IfOk};
ghost use Rattle.std.specs.Borrow.{sem};
ghost use Rattle.std.specs.Io.BufRead.{Rests};
ghost use Rattle.std.specs.Result.{result_err};
ghost use Rattle.wl_wire.specs.Word.{IsHeader};
ghost use Rattle.wl_sigs.specs.Valid.{Valid};
ghost use Rattle.wl_sigs.specs.Tables.{descriptors};
ghost use Rattle.wl_objects.specs.Reading.{new_id_by_maker, object_fault, new_fault};
ghost use Rattle.wl_objects.specs.Reading.{iface_of};
ghost use Rattle.wl_objects.specs.Messages.{is_error, received};
ghost use Rattle.wl_objects.specs.Seen.{received_of, received_in};
ghost use Rattle.wl_objects.specs.Parsed.{AreParsed};
ghost use Rattle.wl_objects.specs.contracts.parsed.ParsedArgs.{the_row};

use crate::error::Fault;
use crate::lookup::{Lookup, NewId};
use crate::messages::{SideTables, is_error};
use crate::parsed::{ParsedArgs, Parser};
use crate::values::Values;
use wl_object_map::{Entry, Object};
use wl_sigs::Signature;
use wl_wire::{Header, Iface, Kind};

/// A message that was read: nothing is wrong with it, and nothing has changed yet.
#[derive(Debug, Drop)]
pub struct Received<'t, 'a> {
    /// The message's target.
    pub target: Object,
    /// The target's entry.
    pub entry: Entry,
    /// The message's signature.
    pub signature: &'t Signature,
    /// The message's body.
    pub body: &'a [u8],
    /// The arguments, parsed over the body, with their objects as they are now.
    pub args: &'a ParsedArgs,
    /// How many tokens the message takes.
    pub tokens: usize,
    /// Whether it is wl_display.error.
    pub is_error: bool,
}

impl<'t, 'a> Received<'t, 'a> {
    /// The arguments as spelled.
    pub fn values(&self) -> Values<'_>
        ensures { result ≡ (received_of self.now).values }
    {
        Values::new(self.args.as_slice(), self.body)
    }
}

/// Reads one whole message that `writer.side` wrote, while `waiting` tokens wait. `lookup` knows
/// the objects and the ids. The arguments are parsed over those of the message before, and borrowed
/// from there. Allocates nothing.
///
/// Returns the first fault: F2; F3; for each argument from the left F4, F5, F6, F10; then F7 and
/// F8. An object may be a zombie. In wl_display.error the object may be null or unknown.
#[inline(always)]
pub fn receive<'t, 'a, L: Lookup>(
    args: &'a mut ParsedArgs,
    writer: SideTables<'t>,
    lookup: &L,
    header: Header,
    body: &'a [u8],
    waiting: usize,
) -> Result<Received<'t, 'a>, Fault>
    ensures* kept { sem 𝓛 (Rests the_row args.entry
        (λ after. IfOk result (λ m. after ≡ m.args.now))) }
    ensures answer { received_in result ≡ received writer.entry.tables.now writer.entry.side
        (L.reader lookup.now) header body.now waiting }
    ensures args { IfOk result
        (λ m. AreParsed (L.reader lookup.now) body.now m.args.now (received_of m).values) }
    ensures body { IfOk result (λ m. m.body.now ≡ body.now) }
    ensures tokens { IfOk result (λ m. m.tokens ≡ descriptors m.signature.now.kinds) }
    ensures error { IfOk result (λ m. m.is_error
        ≡ is_error writer.entry.side m.entry.iface header.opcode) }
    // Always true; known here because the tables were read and the header was given.
    ensures valid { IfOk result (λ _. Valid writer.entry.tables.now) }
    ensures header { IsHeader header }
{
    let SideTables { tables, side } = writer;
    let entry = match lookup.object(header.object) {
        Some(entry) => entry,
        None => return Err(Fault::UnknownObject),
    };
    let signature = match tables.message(entry.iface, side, header.opcode) {
        Some(signature) => signature,
        None => return Err(Fault::UnknownMessage),
    };
    if entry.version < signature.since {
        return Err(Fault::UnknownMessage);
    }
    let is_error = is_error(side, entry.iface, header.opcode);
    let kinds = signature.kinds();
    let parser = Parser {
        lookup,
        forgives: is_error,
        body,
    };
    let rest = parser.parse_body(kinds, args)?;
    if !rest.is_empty() {
        return Err(Fault::TrailingBytes);
    }
    let tokens = signature.descriptors;
    if waiting < tokens {
        return Err(Fault::MissingDescriptor);
    }
    Ok(Received {
        target: Object {
            id: header.object,
            birth: entry.birth,
        },
        entry,
        signature,
        body,
        args,
        tokens,
        is_error,
    })
}

/// The interface that a kind requires of an object.
pub(crate) fn iface_of(kind: Kind) -> Option<Iface>
    ensures { result ≡ iface_of kind }
{
    match kind {
        Kind::Obj { iface, .. } => iface,
        _ => None,
    }
}

/// The fault of an object argument that must have this interface, if it has one.
pub(crate) fn object_fault(
    place: usize,
    iface: Option<Iface>,
    entry: Option<Entry>,
) -> Result<(), Fault>
    ensures { result_err result ≡ object_fault place iface entry }
{
    match (iface, entry) {
        (None, Some(_)) => Ok(()),
        (Some(iface), Some(entry)) if iface == entry.iface => Ok(()),
        _ => Err(Fault::BadObject(place)),
    }
}

/// The result for an id as that of a new object of this kind.
pub(crate) fn new_id_as<L: Lookup>(lookup: &L, kind: Kind, id: u32) -> NewId
    ensures { result ≡ new_id_by_maker kind ((L.reader lookup.now).new_id id)
        ((L.reader lookup.now).new_server_id id) }
{
    match kind {
        Kind::NewByServer(_) => lookup.new_server_id(id),
        _ => lookup.new_id(id),
    }
}

/// The fault of a new object's id, if it has one.
pub(crate) fn new_fault(place: usize, id: NewId) -> Result<(), Fault>
    ensures { result_err result ≡ new_fault place id }
{
    match id {
        NewId::Free => Ok(()),
        NewId::Wrong => Err(Fault::BadNewId(place)),
        NewId::TooMany => Err(Fault::TooManyObjects),
    }
}
