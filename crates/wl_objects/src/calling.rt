//! The arguments of a call, checked before a message is made from them.
ghost use Rattle.std.specs.Prelude.{◌≡◌, [], ◌∷◌, ◌≤◌, ◌+◌, ℕ, IfErr, IfOk, IfSome, IsTrue, length};
ghost use Rattle.std.specs.Prelude.{List, Option, Some, Ok, Err, map};
ghost use Rattle.std.specs.List.{All};
ghost use Rattle.wl_wire.specs.Spelling.{padded, spelled_len};
ghost use Rattle.wl_sigs.specs.Tables.{MessageSignature, max_args, signature_at};
ghost use Rattle.wl_sigs.specs.Valid.{Valid};
ghost use Rattle.wl_object_map.specs.Objects.{look, ObjectsAreSound};
ghost use Rattle.wl_object_map.specs.declared.object.Entry.{Entry as RowOf};
ghost use Rattle.wl_objects.specs.Messages.{checked, live_row, numbers_called};
ghost use Rattle.wl_objects.specs.Messages.{signature_unless_wrong};
ghost use Rattle.wl_objects.specs.Carried.{InRange};
ghost use Rattle.wl_objects.specs.Seen.{signature_in, signature_of};
ghost use Rattle.wl_objects.specs.Writing.{EachFits, IsMeasured, call_makes, can_name, given};
ghost use Rattle.wl_objects.specs.Writing.{given_of, lost_place, message_len, names_one, on_wire};
ghost use Rattle.wl_objects.specs.Writing.{Given, lost_place, number_by, numbers_by};
ghost use Rattle.wl_objects.specs.Writing.{suits, tokens_of, wired, wrong_place, IsNumberGiven};

use crate::argument::Arg;
use crate::error::SendError;
use crate::messages::{SideTables, is_hidden};
use wl_object_map::{Entry, Object, Objects, State, Table};
use wl_sigs::Signature;
use wl_wire::{HEADER_LEN, Iface, Kind, has_nul};

/// A call that passed its checks.
#[derive(Clone, Copy, Debug)]
pub struct CheckedCall<'t> {
    /// The target's entry.
    pub entry: Entry,
    /// The message's signature.
    pub signature: &'t Signature,
    /// How many bytes the message has.
    pub len: usize,
    /// How many tokens go with it.
    pub tokens: usize,
    /// The interface of the object that it makes, if it makes one.
    pub makes: Option<Iface>,
}

/// Length, tokens and new interface of a call's arguments.
#[derive(Clone, Copy, Debug)]
struct Measured {
    len: usize,
    tokens: usize,
    makes: Option<Iface>,
}

/// Checks a call before room is considered. Returns the first of S2, S3, S4, S5, S6 and S8 (against
/// this limit in bytes), else the target's entry, the message's signature and the measure of its
/// arguments. Allocates nothing.
pub fn check_call<'t, T: Table>(
    writer: SideTables<'t>,
    objects: &Objects<T>,
    target: Object,
    opcode: u16,
    args: &[Arg<'_>],
    limit: u16,
) -> Result<CheckedCall<'t>, SendError>
    requires { 8 ≤ limit }
    ensures answer { signature_in result ≡ checked limit writer.entry.tables.now
        writer.entry.side objects.now target opcode (given args.now) }
    ensures entry { IfOk result (λ call. look objects.now target.id ≡ Some call.entry) }
    ensures len { IfOk result
        (λ call. (id : ℕ) → call.len ≡ message_len (on_wire id args.now)) }
    ensures tokens { IfOk result (λ call. call.tokens ≡ length (tokens_of (given args.now))) }
    ensures makes { IfOk result (λ call. call.makes ≡ call_makes call.signature.now.kinds) }
    // Hence the message can be written, whatever the id of its new object.
    ensures fits { IfOk result
        (λ _. (id : ℕ) → EachFits (on_wire id args.now)
        × (message_len (on_wire id args.now) ≤ limit)) }
    ensures in_range { IfOk result (λ _. All InRange (given args.now)) }
    ensures few { IfOk result (λ _. length args.now ≤ max_args) }
    // Always true; known here because the objects and the tables were read.
    ensures sound { ObjectsAreSound objects.now }
    ensures valid { IfOk result (λ _. Valid writer.entry.tables.now) }
{
    let (entry, signature) = called(writer, objects, target, opcode)?;
    let Measured { len, tokens, makes } = measure(objects, signature.kinds(), args, limit)?;
    Ok(CheckedCall {
        entry,
        signature,
        len,
        tokens,
        makes,
    })
}

/// As `check_call`, for a message whose arguments are numbers alone, given as their words: returns
/// the first of S2, S3, S4, S5 and S8, else the message's signature. Any other message is refused
/// with S5 at its first argument that is no number.
pub fn check_words<'t, T: Table>(
    writer: SideTables<'t>,
    objects: &Objects<T>,
    target: Object,
    opcode: u16,
    words: &[u32],
    limit: u16,
) -> Result<&'t Signature, SendError>
    requires { 8 ≤ limit }
    ensures ok { IfOk result (λ signature. checked limit writer.entry.tables.now writer.entry.side
        objects.now target opcode (given (numbers_called writer.entry.tables.now
        writer.entry.side objects.now target opcode words.now)) ≡ Ok signature.now) }
    ensures err { IfErr result (λ why. checked limit writer.entry.tables.now writer.entry.side
        objects.now target opcode (given (numbers_called writer.entry.tables.now
        writer.entry.side objects.now target opcode words.now)) ≡ Err why) }
    // Always true; known here because the objects and the tables were read.
    ensures sound { ObjectsAreSound objects.now }
    ensures valid { IfOk result (λ _. Valid writer.entry.tables.now) }
{
    let (_, signature) = called(writer, objects, target, opcode)?;
    check_numbers(signature.kinds(), words, limit)?;
    Ok(signature)
}

/// The entry of a call's target and the signature of its message, or the first of S2, S3 and S4.
#[inline(always)]
fn called<'t, T: Table>(
    writer: SideTables<'t>,
    objects: &Objects<T>,
    target: Object,
    opcode: u16,
) -> Result<(Entry, &'t Signature), SendError>
    ensures ok { IfOk result (λ found. (limit : ℕ) (list : List Given)
        → checked limit writer.entry.tables.now writer.entry.side objects.now target opcode list
        ≡ signature_unless_wrong limit (wrong_place 0 found.1.now.kinds list)
        (lost_place (look objects.now) 0 found.1.now.kinds list)
        (message_len (map (wired 0) list)) found.1.now) }
    ensures err { IfErr result (λ why. (limit : ℕ) (list : List Given)
        → checked limit writer.entry.tables.now writer.entry.side objects.now target opcode list
        ≡ Err why) }
    ensures entry { IfOk result (λ found. look objects.now target.id ≡ Some found.0) }
    ensures message { IfOk result (λ found. signature_at writer.entry.tables.now found.0.iface.0
        writer.entry.side opcode ≡ Some found.1.now) }
    // Always true; known here because the objects and the tables were read.
    ensures sound { ObjectsAreSound objects.now }
    ensures valid { IfOk result (λ _. Valid writer.entry.tables.now) }
{
    let SideTables { tables, side } = writer;
    let entry = match live_row(objects, target) {
        Some(entry) => entry,
        None => return Err(SendError::Stale),
    };
    if is_hidden(side, entry.iface, opcode) {
        return Err(SendError::NoSuchMessage);
    }
    let signature = match tables.message(entry.iface, side, opcode) {
        Some(signature) => signature,
        None => return Err(SendError::NoSuchMessage),
    };
    if entry.version < signature.since {
        return Err(SendError::TooOld);
    }
    Ok((entry, signature))
}

/// Refuses words that are not one number for each of these kinds, with S5, and a message that is
/// longer than the limit, with S8.
fn check_numbers(kinds: &[Kind], words: &[u32], limit: u16) -> Result<(), SendError>
    requires few { length kinds.now ≤ max_args }
    ensures ok { IfOk result (λ _. (rows : ℕ → Option RowOf) (signature : MessageSignature)
        → signature_unless_wrong limit
        (wrong_place 0 kinds.now (given (numbers_by kinds.now words.now)))
        (lost_place rows 0 kinds.now (given (numbers_by kinds.now words.now)))
        (message_len (on_wire 0 (numbers_by kinds.now words.now))) signature ≡ Ok signature) }
    ensures err { IfErr result (λ why. (rows : ℕ → Option RowOf) (signature : MessageSignature)
        → signature_unless_wrong limit
        (wrong_place 0 kinds.now (given (numbers_by kinds.now words.now)))
        (lost_place rows 0 kinds.now (given (numbers_by kinds.now words.now)))
        (message_len (on_wire 0 (numbers_by kinds.now words.now))) signature ≡ Err why) }
{
    'kinds: for (place, kind) in kinds.iter().enumerate() {
        if place == words.len() {
            return Err(SendError::WrongArgs(place));
        }
        if !is_for_number(*kind) {
            return Err(SendError::WrongArgs(place));
        }
    }
    if kinds.len() < words.len() {
        return Err(SendError::WrongArgs(kinds.len()));
    }
    let len = HEADER_LEN + 4 * words.len();
    if len > limit as usize {
        return Err(SendError::TooLong);
    }
    Ok(())
}

/// Whether a kind is a number.
fn is_for_number(kind: Kind) -> bool
    ensures { (word : ℕ) → result ≡ suits kind (given_of (number_by kind word)) }
{
    matches!(kind, Kind::Int | Kind::Uint | Kind::Fixed)
}

/// Goes through the arguments of a call once and returns the first of S5, S6 and S8, else their
/// measure. Any argument of the wrong kind is reported before any lost object, wherever the two
/// are.
fn measure<T: Table>(
    objects: &Objects<T>,
    kinds: &[Kind],
    args: &[Arg<'_>],
    limit: u16,
) -> Result<Measured, SendError>
    requires few { length kinds.now ≤ max_args }
    ensures answer { (signature : MessageSignature) → signature_of signature result
        ≡ signature_unless_wrong limit (wrong_place 0 kinds.now (given args.now))
        (lost_place (look objects.now) 0 kinds.now (given args.now))
        (message_len (on_wire 0 args.now)) signature }
    ensures measured { IfOk result (IsMeasured kinds.now args.now limit) }
    ensures in_range { IfOk result (λ _. All InRange (given args.now)) }
{
    let (mut lost, mut len, mut tokens, mut makes) = (None, HEADER_LEN, 0, None);
    'kinds: for (place, kind) in kinds.iter().enumerate() {
        let arg = match args.get(place) {
            Some(arg) if is_number(*kind, *arg) => {
                len += 4;
                continue;
            }
            Some(arg) if suits(*kind, arg) => arg,
            _ => return Err(SendError::WrongArgs(place)),
        };
        lost = lost.or(lost_at(objects, place, *kind, arg));
        len += len_of(*arg);
        tokens += token_count(arg);
        makes = makes.or(new_iface(*kind));
    }
    if kinds.len() < args.len() {
        return Err(SendError::WrongArgs(kinds.len()));
    }
    if let Some(place) = lost {
        return Err(SendError::BadObject(place));
    }
    if len > limit as usize {
        return Err(SendError::TooLong);
    }
    Ok(Measured { len, tokens, makes })
}

/// Whether the argument is a number and the kind is the same number kind.
fn is_number(kind: Kind, arg: Arg<'_>) -> bool
    ensures given { IsTrue result → IsNumberGiven kind (given_of arg.entry) }
    ensures in_range { IsTrue result → InRange (given_of arg.entry) }
{
    match (kind, arg) {
        (Kind::Int, Arg::Int(_)) => true,
        (Kind::Uint, Arg::Uint(_)) => true,
        (Kind::Fixed, Arg::Fixed(_)) => true,
        _ => false,
    }
}

/// The length in bytes of a message with these arguments. It must fit in a header.
pub(crate) fn message_len(args: &[Arg<'_>]) -> usize
    requires { message_len (on_wire 0 args.now) ≤ 65535 }
    ensures { result ≡ message_len (on_wire 0 args.now) }
{
    let mut len = HEADER_LEN;
    'arguments: for arg in args {
        len += len_of(*arg);
    }
    len
}

/// Encoded length; for an argument longer than any message, some number above 65,535.
fn len_of(arg: Arg<'_>) -> usize
    ensures most { result ≤ spelled_len (wired 0 (given_of arg.entry)) }
    ensures exact { result ≤ 65535 → result ≡ spelled_len (wired 0 (given_of arg.entry)) }
    ensures in_range { result ≤ 65535 → InRange (given_of arg.entry) }
    ensures bounded { result ≤ 65544 }
{
    match arg {
        Arg::Str(Some(text)) => counted_len(text.len(), 1),
        Arg::Array(bytes) => counted_len(bytes.len(), 0),
        Arg::Fd(_) => 0,
        Arg::Int(_) | Arg::Uint(_) | Arg::Fixed(_) => 4,
        Arg::Str(None) | Arg::Obj(None | Some(_)) | Arg::New => 4,
    }
}

/// The length of a length word, `len` bytes and `more` after them, and their padding; if that is
/// longer than any message, some number above 65,535.
fn counted_len(len: usize, more: usize) -> usize
    requires { more ≤ 1 }
    ensures most { result ≤ 4 + padded (len + more) }
    ensures exact { result ≤ 65535 → (result ≡ 4 + padded (len + more)) × (len ≤ 65535) }
    ensures bounded { result ≤ 65544 }
{
    4 + (len.min(65536) + more + 3) / 4 * 4
}

/// How many tokens an argument takes.
fn token_count(arg: &Arg<'_>) -> usize
    ensures count { result ≡ length (tokens_of (given_of arg.now ∷ [])) }
    ensures one { result ≤ 1 }
{
    match arg {
        Arg::Fd(_) => 1,
        _ => 0,
    }
}

/// The interface of the object that an argument of this kind makes, if it makes one.
fn new_iface(kind: Kind) -> Option<Iface>
    ensures { result ≡ call_makes (kind ∷ []) }
{
    match kind {
        Kind::New(iface) => iface,
        Kind::NewByServer(iface) => Some(iface),
        _ => None,
    }
}

/// The entry of an object that is live with this birth.
pub fn live_row<T: Table>(objects: &Objects<T>, object: Object) -> Option<Entry>
    ensures row { result ≡ live_row objects.now object }
    ensures sound { ObjectsAreSound objects.now }
    ensures held { IfSome result (λ entry. look objects.now object.id ≡ Some entry) }
{
    match objects.look(object.id) {
        Some(entry) if entry.birth == object.birth && entry.state == State::Live => Some(entry),
        _ => None,
    }
}

/// Whether an argument has the kind.
fn suits(kind: Kind, arg: &Arg<'_>) -> bool
    ensures { result ≡ suits kind (given_of arg.now) }
{
    match (kind, arg) {
        (Kind::Int, Arg::Int(_))
        | (Kind::Uint, Arg::Uint(_))
        | (Kind::Fixed, Arg::Fixed(_))
        | (Kind::New(Some(_)) | Kind::NewByServer(_), Arg::New)
        | (Kind::Array, Arg::Array(_))
        | (Kind::Fd, Arg::Fd(_)) => true,
        (Kind::Str { null }, Arg::Str(None)) | (Kind::Obj { null, .. }, Arg::Obj(None)) => null,
        (Kind::Str { .. }, Arg::Str(Some(text))) => !has_nul(text),
        (Kind::Obj { .. }, Arg::Obj(Some(_))) => true,
        _ => false,
    }
}

/// Whether an object is live with this birth and has the interface, if one is asked for.
fn names_one<T: Table>(objects: &Objects<T>, iface: Option<Iface>, object: Object) -> bool
    ensures { result ≡ names_one iface object (look objects.now object.id) }
{
    match live_row(objects, object) {
        Some(entry) => iface.is_none_or(|iface| iface == entry.iface),
        None => false,
    }
}

/// Whether an argument of this kind names no object, or one that can be named.
fn can_name<T: Table>(objects: &Objects<T>, kind: Kind, arg: &Arg<'_>) -> bool
    ensures { result ≡ can_name (look objects.now) kind (given_of arg.now) }
{
    match (kind, arg) {
        (Kind::Obj { iface, .. }, Arg::Obj(Some(object))) => names_one(objects, iface, *object),
        (_, Arg::Obj(Some(object))) => names_one(objects, None, *object),
        _ => true,
    }
}

/// The index of an argument of this kind, if the object that it names is not live or has another
/// interface.
fn lost_at<T: Table>(objects: &Objects<T>, place: usize, kind: Kind, arg: &Arg<'_>) -> Option<usize>
    ensures { result ≡ lost_place (look objects.now) place (kind ∷ [])
        (given_of arg.now ∷ []) }
{
    if can_name(objects, kind, arg) {
        None
    } else {
        Some(place)
    }
}
