//! What C can ask about the messages of the tables.
ghost use Rattle.std.specs.Prelude.{◌≡◌, MatchOption};
ghost use Rattle.waywire_c.specs.Messages.{destroyed_place, destroys_number, kind_of_argument};
ghost use Rattle.waywire_c.specs.Messages.{message_at, place_or_any, side_of_sender, TellsKind};
ghost use Rattle.waywire_c.specs.Messages.{TellsMessage};
ghost use Rattle.waywire_c.specs.Statuses.{find_outcome};

use crate::statuses::{NOT_FOUND, OK};
use crate::tables_handle::TablesHandle;
use crate::values::{ARRAY, FD, FIXED, INT, NEW, NEW_BY_SERVER, OBJECT, STRING, UINT, start_of};
use wl_sigs::{Destroys, Side};
use wl_wire::{Iface, Kind};

/// The index that means any interface.
const ANY: u16 = 65_535;

/// What the tables say about a message.
#[repr(C)]
#[derive(Clone, Copy)]
pub struct CMessage {
    /// The first version of its interface that has it.
    pub since: u32,
    /// 0 if it destroys nothing, 1 for its target, 2 for the object that the argument at
    /// `destroyed` names.
    pub destroys: u32,
    pub destroyed: usize,
    pub arg_count: usize,
}

/// What the tables say about an argument.
#[repr(C)]
#[derive(Clone, Copy)]
pub struct CKind {
    pub kind: u32,
    pub nullable: bool,
    /// The index of its object's interface, or the one that means any.
    pub interface: u16,
}

pub fn side_of(sender: u32) -> Option<Side>
    ensures { result ≡ side_of_sender sender }
{
    match sender {
        0 => Some(Side::Request),
        1 => Some(Side::Event),
        _ => None,
    }
}

fn destroys_number(destroys: Destroys) -> u32
    ensures { result ≡ destroys_number destroys }
{
    match destroys {
        Destroys::Nothing => 0,
        Destroys::Target => 1,
        Destroys::Arg(_) => 2,
    }
}

fn destroyed_place(destroys: Destroys) -> usize
    ensures { result ≡ destroyed_place destroys }
{
    match destroys {
        Destroys::Arg(place) => place,
        _ => 0,
    }
}

fn told(kind: u32, nullable: bool, asked: Option<Iface>) -> CKind
    ensures kind { result.kind ≡ kind }
    ensures nullable { result.nullable ≡ nullable }
    ensures interface { result.interface ≡ place_or_any asked }
{
    CKind {
        kind,
        nullable,
        interface: match asked {
            Some(iface) => iface.0,
            None => ANY,
        },
    }
}

fn kind_told(kind: Kind) -> CKind
    ensures { TellsKind kind result }
{
    match kind {
        Kind::Int => told(INT, false, None),
        Kind::Uint => told(UINT, false, None),
        Kind::Fixed => told(FIXED, false, None),
        Kind::Str { null } => told(STRING, null, None),
        Kind::Obj { null, iface } => told(OBJECT, null, iface),
        Kind::New(iface) => told(NEW, false, iface),
        Kind::NewByServer(iface) => told(NEW_BY_SERVER, false, Some(iface)),
        Kind::Array => told(ARRAY, false, None),
        Kind::Fd => told(FD, false, None),
    }
}

/// Writes to `message` what the tables say about a message, to `name` where its name begins, and to
/// `length` the name's length.
#[unsafe(no_mangle)]
pub extern "C" fn waywire_c_tables_message(
    tables: TablesHandle,
    interface: u16,
    sender: u32,
    opcode: u16,
    message: &mut CMessage,
    name: &mut *const u8,
    length: &mut usize,
) -> u32
    ensures answer { result
        ≡ find_outcome (message_at tables.held.tables interface sender opcode) }
    ensures told { MatchOption (message_at tables.held.tables interface sender opcode)
        ((message.new ≡ message.old) × (name.new ≡ name.old) × (length.new ≡ length.old))
        (λ found. TellsMessage found message.new length.new) }
{
    let tables = tables.lent();
    let Some(side) = side_of(sender) else {
        return NOT_FOUND;
    };
    match tables.message(Iface(interface), side, opcode) {
        Some(found) => {
            *message = CMessage {
                since: found.since,
                destroys: destroys_number(found.destroys),
                destroyed: destroyed_place(found.destroys),
                arg_count: found.kinds().len(),
            };
            *name = start_of(found.name());
            *length = found.name().len();
            OK
        }
        None => NOT_FOUND,
    }
}

/// Writes to `kind` what the tables say about the argument at an index of a message.
#[unsafe(no_mangle)]
pub extern "C" fn waywire_c_tables_kind(
    tables: TablesHandle,
    interface: u16,
    sender: u32,
    opcode: u16,
    place: usize,
    kind: &mut CKind,
) -> u32
    ensures answer { result
        ≡ find_outcome (kind_of_argument tables.held.tables interface sender opcode place) }
    ensures told { MatchOption (kind_of_argument tables.held.tables interface sender opcode
        place)
        (kind.new ≡ kind.old) (λ found. TellsKind found kind.new) }
{
    let tables = tables.lent();
    let Some(side) = side_of(sender) else {
        return NOT_FOUND;
    };
    let Some(message) = tables.message(Iface(interface), side, opcode) else {
        return NOT_FOUND;
    };
    match message.kinds().get(place) {
        Some(found) => {
            *kind = kind_told(*found);
            OK
        }
        None => NOT_FOUND,
    }
}
