//! The rules of valid tables, for the lines of a text.
ghost use Rattle.std.specs.Prelude.{◌≡◌, ℕ, ◌+◌, ◌<◌, ◌≤◌, ◌&&◌, nat_le, not, List, map};
ghost use Rattle.std.specs.Prelude.{Some, None, option_map, IfOk};
ghost use Rattle.std.specs.Prelude.{Option, bytes_eq, slice_get};
ghost use Rattle.std.specs.List.{list_all, list_any, count_by};
ghost use Rattle.wl_rules.specs.Broken.{is_first, is_object, makes_object, makes_unnamed};
ghost use Rattle.wl_rules.specs.Broken.{takes_any, takes_ended, names_missing};
ghost use Rattle.wl_rules.specs.Broken.{interface_rule, message_rule};
ghost use Rattle.wl_rules.specs.Broken.{names_objects, is_race_free, most_new, earlier, broken_at};
ghost use Rattle.wl_rules.specs.Broken.{side_broken, interface_broken};
ghost use Rattle.wl_rules.specs.Broken.{interfaces_broken, is_ended, is_forbidden};
ghost use Rattle.wl_rules.specs.Broken.{makes_forbidden, makes_server_object, most_by_server};
ghost use Rattle.wl_rules.specs.Broken.{later_rule, comes_first};
ghost use Rattle.wl_rules.specs.Joined.{first_place};
ghost use Rattle.wl_rules.specs.Places.{place_in, AreFirst};
ghost use Rattle.wl_rules.specs.BrokenLines.{IsOwner, broken};
ghost use Rattle.wl_rules.specs.Rules.{is_name, is_name_byte, is_empty, is_fixed_place};
ghost use Rattle.wl_rules.specs.Tables.{max_interfaces};
ghost use Rattle.wl_text.specs.Text as text;

use crate::hashed::HashedName;
use crate::places::{Places, place_in, places_of};
use crate::side::Side;
use std::alloc::{AllocError, Allocator};
use wl_text::{
    BareKind, WrittenInterface, WrittenKind, WrittenMessage, needs_interface, takes_interface,
};

/// The longest name of an interface or a message in bytes.
pub const MAX_NAME_LEN: usize = 256;

/// The most interfaces of tables.
const MAX_INTERFACES: usize = 1024;

/// The most requests of an interface, and the most events.
const MAX_MESSAGES: usize = 256;

/// The most arguments of a message.
pub const MAX_ARGS: usize = 20;

/// Up to this many messages of a side, each is compared by name with those before it: for so few
/// this takes fewer steps than a map of the names, and no memory.
const FEW_MESSAGES: usize = 16;

/// A line that breaks a rule, and the lowest rule that it breaks.
#[derive(Clone, Copy)]
pub struct BrokenLine {
    /// The number of the line, from 1.
    pub line: usize,
    /// The number of the rule: 7 for V7.
    pub rule: u8,
}

/// What the rules of a message need to know about its interface, and the message's side.
#[derive(Clone, Copy)]
pub struct Owner {
    /// The side of the message.
    pub side: Side,
    /// The version of the interface.
    pub version: u32,
    /// Whether the interface has a request.
    pub has_requests: bool,
}

fn is_name_byte(byte: u8) -> bool
    ensures { result ≡ is_name_byte byte }
{
    (byte >= b'a' && byte <= b'z') || (byte >= b'0' && byte <= b'9') || byte == b'_'
}

fn are_name_bytes(name: &[u8]) -> bool
    ensures { result ≡ list_all is_name_byte name.now }
{
    name.iter().all(|byte| is_name_byte(*byte))
}

fn is_name(name: &[u8]) -> bool
    ensures { result ≡ is_name name.now }
{
    name.len() >= 1 && name.len() <= MAX_NAME_LEN && are_name_bytes(name)
}

// Whether this is the first index of a name.
fn is_first<'n, A: Allocator>(places: &Places<'n, A>, name: &'n [u8], here: usize) -> bool
    ensures { result ≡ is_first (place_in places.now) name.now here }
{
    match place_in(places, name) {
        Some(first) => first == here,
        None => false,
    }
}

/// Whether bytes are a valid name, and this is its first index.
pub fn is_first_name<'n, A: Allocator>(places: &Places<'n, A>, name: &'n [u8], here: usize) -> bool
    ensures { result ≡ (is_name name.now && is_first (place_in places.now) name.now here) }
{
    is_name(name) && is_first(places, name, here)
}

fn makes_object(k: &WrittenKind) -> bool
    ensures { result ≡ makes_object k.now }
{
    k.kind == BareKind::New
}

fn makes_server_object(k: &WrittenKind) -> bool
    ensures { result ≡ makes_server_object k.now }
{
    k.kind == BareKind::NewByServer
}

fn is_object(kind: BareKind) -> bool
    ensures { result ≡ is_object kind }
{
    matches!(kind, BareKind::Obj { .. })
}

fn makes_unnamed(k: &WrittenKind) -> bool
    ensures { result ≡ makes_unnamed k.now }
{
    makes_object(k) && k.iface.is_none()
}

fn takes_any(k: &WrittenKind) -> bool
    ensures { result ≡ takes_any k.now }
{
    is_object(k.kind) && k.iface.is_none()
}

fn is_ended(ended: &[bool], place: Option<usize>) -> bool
    ensures { result ≡ is_ended ended.now place }
{
    match place {
        Some(place) => ended.get(place).copied().unwrap_or(false),
        None => false,
    }
}

fn takes_ended<'n, A: Allocator>(
    places: &Places<'n, A>,
    ended: &[bool],
    k: &WrittenKind<'n>,
) -> bool
    ensures { result ≡ takes_ended (place_in places.now) ended.now k.now }
{
    match k.iface {
        Some(name) => is_object(k.kind) && is_ended(ended, place_in(places, name)),
        None => false,
    }
}

fn names_missing<'n, A: Allocator>(places: &Places<'n, A>, k: &WrittenKind<'n>) -> bool
    ensures { result ≡ names_missing (place_in places.now) k.now }
{
    let is_missing = match k.iface {
        Some(name) => place_in(places, name).is_none(),
        None => needs_interface(k.kind),
    };
    takes_interface(k.kind) && is_missing
}

// Whether an index is that of one of the four fixed interfaces.
fn is_fixed_place(place: usize) -> bool
    ensures { result ≡ is_fixed_place place }
{
    place == 0 || (place == 1 || (place == 2 || place == 18))
}

// Whether the server may not make objects of the interface at an index.
fn is_forbidden(ended: &[bool], place: Option<usize>) -> bool
    ensures { result ≡ is_forbidden ended.now place }
{
    match place {
        Some(at) => is_fixed_place(at) || is_ended(ended, place),
        None => false,
    }
}

fn makes_forbidden<'n, A: Allocator>(
    places: &Places<'n, A>,
    ended: &[bool],
    k: &WrittenKind<'n>,
) -> bool
    ensures { result ≡ makes_forbidden (place_in places.now) ended.now k.now }
{
    match k.iface {
        Some(name) => makes_server_object(k) && is_forbidden(ended, place_in(places, name)),
        None => false,
    }
}

fn count_new(kinds: &[WrittenKind]) -> usize
    ensures { result ≡ count_by makes_object kinds.now }
{
    kinds.iter().filter(|k| makes_object(*k)).count()
}

fn count_by_server(kinds: &[WrittenKind]) -> usize
    ensures { result ≡ count_by makes_server_object kinds.now }
{
    kinds.iter().filter(|k| makes_server_object(*k)).count()
}

fn none_unnamed(kinds: &[WrittenKind]) -> bool
    ensures { result ≡ list_all (λ k. not (makes_unnamed k)) kinds.now }
{
    kinds.iter().all(|k| !makes_unnamed(k))
}

fn none_any(kinds: &[WrittenKind]) -> bool
    ensures { result ≡ list_all (λ k. not (takes_any k)) kinds.now }
{
    kinds.iter().all(|k| !takes_any(k))
}

fn none_ended<'n, A: Allocator>(
    places: &Places<'n, A>,
    ended: &[bool],
    kinds: &[WrittenKind<'n>],
) -> bool
    ensures { result
        ≡ list_all (λ k. not (takes_ended (place_in places.now) ended.now k)) kinds.now }
{
    'kinds: for k in kinds {
        if takes_ended(places, ended, k) {
            return false;
        }
    }
    true
}

fn none_missing<'n, A: Allocator>(places: &Places<'n, A>, kinds: &[WrittenKind<'n>]) -> bool
    ensures { result ≡ list_all (λ k. not (names_missing (place_in places.now) k)) kinds.now }
{
    'kinds: for k in kinds {
        if names_missing(places, k) {
            return false;
        }
    }
    true
}

fn none_forbidden<'n, A: Allocator>(
    places: &Places<'n, A>,
    ended: &[bool],
    kinds: &[WrittenKind<'n>],
) -> bool
    ensures { result
        ≡ list_all (λ k. not (makes_forbidden (place_in places.now) ended.now k)) kinds.now }
{
    'kinds: for k in kinds {
        if makes_forbidden(places, ended, k) {
            return false;
        }
    }
    true
}

// The lowest rule that an interface at an index breaks on its own.
fn interface_rule<'n, A: Allocator>(
    places: &Places<'n, A>,
    here: usize,
    interface: &WrittenInterface<'n, A>,
) -> Option<u8>
    ensures { result ≡ interface_rule (place_in places.now) here interface.now }
{
    if !is_first_name(places, interface.name, here) {
        Some(1)
    } else if here >= MAX_INTERFACES {
        Some(3)
    } else if interface.version < 1 {
        Some(8)
    } else {
        None
    }
}

fn most_new(side: Side) -> usize
    ensures { result ≡ most_new side }
{
    match side {
        Side::Request => 1,
        Side::Event => 0,
    }
}

fn most_by_server(side: Side) -> usize
    ensures { result ≡ most_by_server side }
{
    match side {
        Side::Request => 0,
        Side::Event => 1,
    }
}

fn names_objects<'t, A: Allocator>(side: Side, message: &WrittenMessage<'t, A>) -> bool
    ensures { result ≡ names_objects side message.now }
{
    match side {
        Side::Request => none_any(message.kinds.as_slice()),
        Side::Event => true,
    }
}

fn is_race_free<'n, A: Allocator>(
    places: &Places<'n, A>,
    ended: &[bool],
    owner: Owner,
    message: &WrittenMessage<'n, A>,
) -> bool
    ensures { (i : text.WrittenInterface) → IsOwner owner i
        → result ≡ is_race_free (place_in places.now) ended.now i owner.side message.now }
{
    match owner.side {
        Side::Request => none_ended(places, ended, message.kinds.as_slice()),
        Side::Event => !message.destroys || !owner.has_requests,
    }
}

// Whether some version of its interface, from 1 on, introduced the message.
fn is_since_a_version<'n, A: Allocator>(version: u32, message: &WrittenMessage<'n, A>) -> bool
    ensures { result ≡ (nat_le 1 message.now.since && nat_le message.now.since version) }
{
    message.since >= 1 && message.since <= version
}

// Whether V11 allows the new objects of the server.
fn allows_server_objects<'n, A: Allocator>(
    places: &Places<'n, A>,
    ended: &[bool],
    side: Side,
    kinds: &[WrittenKind<'n>],
) -> bool
    ensures { result ≡ (nat_le (count_by makes_server_object kinds.now) (most_by_server side)
        && list_all (λ k. not (makes_forbidden (place_in places.now) ended.now k)) kinds.now) }
{
    let made = count_by_server(kinds);
    if made == 0 {
        return true;
    }
    made <= most_by_server(side) && none_forbidden(places, ended, kinds)
}

// The lowest rule from V6 on that a message of an interface breaks.
fn later_rule<'n, A: Allocator>(
    places: &Places<'n, A>,
    ended: &[bool],
    owner: Owner,
    message: &WrittenMessage<'n, A>,
) -> Option<u8>
    ensures { (i : text.WrittenInterface) → IsOwner owner i
        → result ≡ later_rule (place_in places.now) ended.now i owner.side message.now }
{
    let kinds = message.kinds.as_slice();
    if !names_objects(owner.side, message) {
        Some(6)
    } else if !is_race_free(places, ended, owner, message) {
        Some(7)
    } else if !is_since_a_version(owner.version, message) {
        Some(8)
    } else if !none_missing(places, kinds) {
        Some(9)
    } else if !allows_server_objects(places, ended, owner.side, kinds) {
        Some(11)
    } else {
        None
    }
}

/// The lowest rule that a message breaks; the caller says whether its name is valid and new.
pub fn message_rule<'n, A: Allocator>(
    places: &Places<'n, A>,
    ended: &[bool],
    owner: Owner,
    is_named: bool,
    opcode: usize,
    message: &WrittenMessage<'n, A>,
) -> Option<u8>
    ensures { (i : text.WrittenInterface) (first : List ℕ → Option ℕ) → IsOwner owner i
        → is_named ≡ (is_name message.now.name && is_first first message.now.name opcode)
        → result ≡ message_rule (place_in places.now) ended.now i owner.side first opcode
        message.now }
{
    let kinds = message.kinds.as_slice();
    if !is_named {
        Some(1)
    } else if !(opcode < MAX_MESSAGES && kinds.len() <= MAX_ARGS) {
        Some(3)
    } else if count_new(kinds) > most_new(owner.side) {
        Some(4)
    } else if !none_unnamed(kinds) {
        Some(5)
    } else {
        later_rule(places, ended, owner, message)
    }
}

// Whether one is at an earlier line than the other, or at the same line with a lower rule.
fn comes_first(this: BrokenLine, other: BrokenLine) -> bool
    ensures { result ≡ comes_first (broken this) (broken other) }
{
    this.line < other.line || (this.line == other.line && this.rule < other.rule)
}

/// The one at the earlier line, or with the lower rule at the same line.
pub fn earlier(this: Option<BrokenLine>, other: Option<BrokenLine>) -> Option<BrokenLine>
    ensures { option_map broken result
        ≡ earlier (option_map broken this) (option_map broken other) }
{
    match (this, other) {
        (Some(this), Some(other)) if comes_first(other, this) => Some(other),
        (None, other) => other,
        (this, _) => this,
    }
}

/// The line, if it breaks a rule.
pub fn broken_at(line: usize, rule: Option<u8>) -> Option<BrokenLine>
    ensures { option_map broken result ≡ broken_at line rule }
{
    let rule = rule?;
    Some(BrokenLine { line, rule })
}

// Whether a message with a name is among these.
fn has_message<'n, A: Allocator>(messages: &[WrittenMessage<'n, A>], name: &[u8]) -> bool
    ensures { result ≡ list_any (λ m. bytes_eq m.name name.now) messages.now }
{
    messages.iter().any(|message| message.name == name)
}

// Whether a message of a side has a valid and new name, according to the map from `opcodes_of`.
fn is_first_message<'n, A: Allocator>(
    opcodes: &Option<Places<'n, A>>,
    messages: &[WrittenMessage<'n, A>],
    opcode: usize,
    name: &'n [u8],
) -> bool
    requires stands { option_map (λ m. m.name) (slice_get messages.now opcode) ≡ Some name.now }
    requires first { AreFirst (option_map place_in opcodes.now) (map (λ m. m.name) messages.now) }
    ensures { result ≡ (is_name name.now
        && is_first (first_place (map (λ m. m.name) messages.now)) name.now opcode) }
{
    if !is_name(name) {
        return false;
    }
    match opcodes {
        Some(opcodes) => is_first(opcodes, name, opcode),
        None => !has_message(&messages[..opcode], name),
    }
}

// What the rules of a message of a side need to know about its interface.
fn owner_of<A: Allocator>(interface: &WrittenInterface<'_, A>, side: Side) -> Owner
    ensures { (result.side ≡ side) × IsOwner result interface.now }
{
    Owner {
        side,
        version: interface.version,
        has_requests: !interface.requests.is_empty(),
    }
}

// The first message of one side of an interface that breaks a rule.
fn side_broken<'n, A: Allocator + Clone + Drop>(
    alloc: &A,
    places: &Places<'n, A>,
    ended: &[bool],
    interface: &WrittenInterface<'n, A>,
    side: Side,
    messages: &[WrittenMessage<'n, A>],
) -> Result<Option<BrokenLine>, AllocError>
    ensures { IfOk result (λ found. option_map broken found
        ≡ side_broken (place_in places.now) ended.now interface.now side messages.now) }
{
    let opcodes = opcodes_of(alloc, messages)?;
    let owner = owner_of(interface, side);
    let mut first = None;
    for (opcode, message) in messages.iter().enumerate() {
        let is_named = is_first_message(&opcodes, messages, opcode, message.name);
        let rule = message_rule(places, ended, owner, is_named, opcode, message);
        first = earlier(first, broken_at(message.line, rule));
    }
    Ok(first)
}

// The first opcode of each name, if a side has many messages.
fn opcodes_of<'n, A: Allocator + Clone + Drop>(
    alloc: &A,
    messages: &[WrittenMessage<'n, A>],
) -> Result<Option<Places<'n, A>>, AllocError>
    ensures { IfOk result (λ opcodes.
        AreFirst (option_map place_in opcodes) (map (λ m. m.name) messages.now)) }
{
    if messages.len() <= FEW_MESSAGES {
        return Ok(None);
    }
    let names = message_names(alloc, messages)?;
    let opcodes = places_of(alloc, names.as_slice())?;
    Ok(Some(opcodes))
}

// The names of messages.
fn message_names<'n, A: Allocator + Clone + Drop>(
    alloc: &A,
    messages: &[WrittenMessage<'n, A>],
) -> Result<Vec<HashedName<'n>, A>, AllocError>
    ensures { IfOk result (λ names. names.items ≡ map (λ m. m.name) messages.now) }
{
    let mut names = Vec::with_capacity(alloc.clone()?, messages.len())?;
    for message in messages {
        names.push(HashedName::new(message.name))?;
    }
    Ok(names)
}

// The first line of an interface and its messages that breaks a rule.
fn interface_broken<'n, A: Allocator + Clone + Drop>(
    alloc: &A,
    places: &Places<'n, A>,
    ended: &[bool],
    here: usize,
    interface: &WrittenInterface<'n, A>,
) -> Result<Option<BrokenLine>, AllocError>
    ensures { IfOk result (λ found. option_map broken found
        ≡ interface_broken (place_in places.now) ended.now here interface.now) }
{
    let requests = side_broken(
        alloc,
        places,
        ended,
        interface,
        Side::Request,
        interface.requests.as_slice(),
    )?;
    let events = side_broken(
        alloc,
        places,
        ended,
        interface,
        Side::Event,
        interface.events.as_slice(),
    )?;
    let rule = interface_rule(places, here, interface);
    Ok(earlier(broken_at(interface.line, rule), earlier(requests, events)))
}

/// The first line among interfaces that breaks a rule; the first interface has the index `from`.
pub fn interfaces_broken<'n, A: Allocator + Clone + Drop>(
    alloc: &A,
    places: &Places<'n, A>,
    ended: &[bool],
    from: usize,
    interfaces: &[WrittenInterface<'n, A>],
) -> Result<Option<BrokenLine>, AllocError>
    requires { from ≤ max_interfaces }
    ensures { IfOk result (λ found. option_map broken found
        ≡ interfaces_broken (place_in places.now) ended.now from interfaces.now) }
{
    let mut first = None;
    for (index, interface) in interfaces.iter().enumerate() {
        let found = interface_broken(alloc, places, ended, from + index, interface)?;
        first = earlier(first, found);
    }
    Ok(first)
}
