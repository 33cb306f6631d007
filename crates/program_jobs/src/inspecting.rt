//! Judging a recording as `waywire-inspect` judges a session.
ghost use Rattle.std.specs.Prelude.{◌≡◌, ◌+◌, ◌++◌, ◌∷◌, [], ℕ, List, IfOk, OnOk, nat_eq};
ghost use Rattle.wl_wire.specs.Reading.{seen};
ghost use Rattle.wl_sigs.specs.Tables.{Interface};
ghost use Rattle.wl_recording.specs.Piece.{Piece, recorded_piece};
ghost use Rattle.wl_check.specs.Following.{place_or_none};
ghost use Rattle.wl_check.specs.Inspected.{HasPassed};
ghost use Rattle.wl_check.specs.Session.{IsVerdictOf, messages, session_of};
ghost use Rattle.wl_check.specs.Trace.{lasting};
ghost use Rattle.program_jobs.specs.Inspecting.{IsFollowing, IsInspecting, IsNoted, MayFollow};
ghost use Rattle.program_jobs.specs.Inspecting.{binds_announced, with_count, global_named};
ghost use Rattle.program_jobs.specs.Inspecting.{is_announced_as, is_error_of, is_within};
ghost use Rattle.program_jobs.specs.Inspecting.{noted_after, uint_in};
ghost use Rattle.program_jobs.specs.Hint.{seen_bound};

use crate::hint::{Bound, bound_at};
use std::alloc::{AllocError, Global};
use wl_check::{Followed, Follower, Inspector, NO_INTERFACE, Verdict};
use wl_message::Limit;
use wl_objects::{Entry, is_error};
use wl_recording::{Direction, Passed, Recording};
use wl_sigs::{Side, Tables};
use wl_wire::{ArgFault, Iface, Kind, ValueRef, read_ref};

/// The offset of the global's name in a bind: after the header.
const NAME_AT: usize = 8;

/// What is noted of a session beside its verdict.
#[derive(Clone, Copy, Debug)]
pub(crate) struct Noted {
    /// How many requests were followed.
    pub(crate) requests: usize,
    /// How many events were followed.
    pub(crate) events: usize,
    /// Whether the first message that was not judged is a bind of a global that was announced in
    /// this version or a later one.
    pub(crate) is_announced: bool,
    /// Whether a wl_display.error has ended the session.
    pub(crate) has_error: bool,
}

/// A session whose messages are judged, and followed one by one.
#[derive(Drop)]
struct Inspection<'t> {
    tables: &'t Tables,
    limit: Limit,
    inspector: Inspector<'t>,
    follower: Follower<'t>,
    noted: Noted,
}

/// The verdict on a recording, and what is noted beside it.
pub(crate) fn inspect(
    global: Global,
    tables: &Tables,
    limit: Limit,
    recording: &Recording,
) -> Result<(Verdict, Noted), AllocError>
    ensures answers { IfOk result (λ r.
        IsVerdictOf tables.now (session_of limit.bytes recording.now) r.0) }
    ensures noted { IfOk result (λ r. IsNoted limit.bytes tables.now recording.now r.1) }
{
    let mut inspection = Inspection::new(global, tables, limit)?;
    'pieces: for piece in recording.pieces() {
        inspection.pass(piece)?;
    }
    Ok((inspection.inspector.verdict(), inspection.noted))
}

impl<'t> Inspection<'t> {
    /// Before the first piece.
    fn new(global: Global, tables: &'t Tables, limit: Limit) -> Result<Self, AllocError>
        ensures { IfOk result (IsInspecting limit.bytes tables.now []) }
    {
        Ok(Inspection {
            tables,
            limit,
            inspector: Inspector::new(global, tables, limit)?,
            follower: Follower::new(global, tables, limit)?,
            noted: Noted {
                requests: 0,
                events: 0,
                is_announced: false,
                has_error: false,
            },
        })
    }

    /// Judges the messages that a piece completes, and follows them unless the session has ended.
    fn pass(&mut self, piece: &Passed) -> Result<(), AllocError>
        ensures { OnOk result ((limit : ℕ) (tables : List Interface) (pieces : List Piece)
            → IsInspecting limit tables pieces self.old
            → IsInspecting limit tables (pieces ++ recorded_piece piece.now ∷ []) self.new) }
    {
        let bytes = piece.bytes.as_slice();
        self.inspector
            .pass(piece.direction, bytes, piece.tokens as usize)?;
        if self.noted.has_error {
            return Ok(());
        }
        self.follower.feed(piece.direction, bytes)?;
        self.follow(piece.direction)
    }

    /// Passes over the messages of a direction, up to a wl_display.error.
    fn follow(&mut self, direction: Direction) -> Result<(), AllocError>
        ensures { OnOk result ((limit : ℕ) (tables : List Interface) (pieces : List Piece)
            → IsFollowing limit tables pieces direction self.old
            → IsInspecting limit tables pieces self.new) }
    {
        'messages: for _ in 0..u64::MAX {
            if !self.go_past(direction)? {
                return Ok(());
            }
        }
        Err(AllocError)
    }

    /// Passes over the next message of a direction. Returns whether there may be another one.
    fn go_past(&mut self, direction: Direction) -> Result<bool, AllocError>
        ensures { IfOk result (λ more. (limit : ℕ) (tables : List Interface) (pieces : List Piece)
            → IsFollowing limit tables pieces direction self.old
            → MayFollow more limit tables pieces direction self.new) }
    {
        let Some(message) = self.follower.ahead(direction) else {
            return Ok(false);
        };
        let noted = self.noted_after(direction, &message);
        self.follower.go_past(direction)?;
        self.noted = noted;
        Ok(!noted.has_error)
    }

    /// What is noted after this message.
    fn noted_after(&self, direction: Direction, message: &Followed<'_>) -> Noted
        ensures { (limit : ℕ) (tables : List Interface) (pieces : List Piece)
            → HasPassed limit tables pieces self.now.inspector
            → result ≡ noted_after self.now.limit.bytes self.now.tables.now
            (lasting (messages tables (session_of limit pieces))) direction
            self.now.follower.held message.now self.now.noted }
    {
        let mut noted = self.noted;
        if self.limit.allows(message.header.size) {
            noted = with_count(noted, direction, message.index);
        }
        if is_next(message.number, self.inspector.judged_count()) {
            noted.is_announced = binds_announced(self.tables, &self.follower, message.bytes);
        }
        noted.has_error = is_error_of(direction, message.target, message.header.opcode);
        noted
    }
}

/// What is noted if this is the number of a message in its direction.
fn with_count(noted: Noted, direction: Direction, index: usize) -> Noted
    ensures { result ≡ with_count direction index noted }
{
    match direction {
        Direction::ToServer => Noted {
            requests: index,
            ..noted
        },
        Direction::ToClient => Noted {
            events: index,
            ..noted
        },
    }
}

/// Whether a message with this target is a wl_display.error, even if it cannot be read.
fn is_error_of(direction: Direction, target: Option<Entry>, opcode: u16) -> bool
    ensures { result ≡ is_error_of direction target opcode }
{
    match (direction, target) {
        (Direction::ToClient, Some(entry)) => is_error(Side::Event, entry.iface, opcode),
        _ => false,
    }
}

/// Whether this number follows that of the last message that was judged.
fn is_next(number: u64, judged: u64) -> bool
    ensures { result ≡ nat_eq number (judged + 1) }
{
    match judged.checked_add(1) {
        Some(next) => number == next,
        None => false,
    }
}

/// Whether a message with these bytes, as a bind, names a global that was announced with the
/// interface and at least the version that it names. All interfaces that the tables lack count as
/// one.
fn binds_announced(tables: &Tables, follower: &Follower<'_>, bytes: &[u8]) -> bool
    ensures { result ≡ binds_announced tables.now follower.now.held bytes.now }
{
    match (global_named(bytes), bound_at(bytes, 0)) {
        (Some(name), Some(bound)) => is_announced_as(tables, follower, name, &bound),
        _ => false,
    }
}

fn is_announced_as(tables: &Tables, follower: &Follower<'_>, name: u32, bound: &Bound<'_>) -> bool
    ensures { result ≡ is_announced_as tables.now follower.now.held name (seen_bound bound.now) }
{
    let interface = interface_or_none(tables, bound.interface);
    is_within(bound.version, follower.announced_version(name, interface))
}

/// The index of the interface of this name; `NO_INTERFACE` if the tables lack it.
fn interface_or_none(tables: &Tables, name: &[u8]) -> Iface
    ensures { result ≡ place_or_none tables.now name.now }
{
    tables.interface(name).unwrap_or(NO_INTERFACE)
}

/// Whether a version is at least 1 and at most this one.
fn is_within(version: u32, most: u32) -> bool
    ensures { result ≡ is_within version most }
{
    version >= 1 && version <= most
}

/// The name of a global in a bind with these bytes.
fn global_named(bytes: &[u8]) -> Option<u32>
    ensures { result ≡ global_named bytes.now }
{
    uint_in(read_ref(Kind::Uint, &bytes[NAME_AT.min(bytes.len())..]))
}

fn uint_in(argument: Result<(ValueRef<'_>, usize), ArgFault>) -> Option<u32>
    ensures { result ≡ uint_in (seen argument.entry) }
{
    match argument {
        Ok((ValueRef::Uint(number), _)) => Some(number),
        _ => None,
    }
}
