//! Calls of an inspector.
ghost use Rattle.std.specs.Prelude.{◌≡◌, ◌≢◌, ◌↔◌, ℕ, List, IfSome, length as len};
ghost use Rattle.wl_message.specs.Cut.{IsLimit};
ghost use Rattle.wl_recording.specs.Piece.{Piece};
ghost use Rattle.wl_sigs.specs.Tables.{Interface};
ghost use Rattle.wl_check.specs.Inspected.{printed, HasPassed, PassesPiece};
ghost use Rattle.wl_check.specs.Printed.{piece_of};
ghost use Rattle.wl_check.specs.Session.{session_of};
ghost use Rattle.waywire_c.specs.Inspecting.{direction_of, is_broken, IsTried, PassEnds};
ghost use Rattle.waywire_c.specs.Inspecting.{TellsVerdict};

use crate::inspector_handle::InspectorHandle;
use crate::making;
use crate::parts::address;
use crate::statuses::{BAD_VALUE, NO_MEMORY, OK};
use crate::tables_handle::TablesHandle;
use crate::values::extent;
use std::alloc::Global;
use wl_check::{Verdict, write_verdict};
use wl_recording::Direction;

/// Makes an inspector that no piece has passed, and writes its address to `inspector`.
#[unsafe(no_mangle)]
pub extern "C" fn waywire_c_inspector_new(
    alloc: Global,
    tables: TablesHandle,
    limit: u32,
    inspector: &mut *mut u8,
) -> u32
    ensures limit { result ≢ 63 ↔ IsLimit limit }
    ensures tried { result ≢ 63 → IsTried result }
    ensures none { result ≢ 0 → inspector.new ≡ inspector.old }
{
    match making::inspector_by(alloc, tables.lent(), limit) {
        Ok(boxed) => {
            *inspector = address(boxed);
            OK
        }
        Err(status) => status,
    }
}

/// Frees an inspector, and what was borrowed from it.
#[unsafe(no_mangle)]
pub extern "C" fn waywire_c_inspector_free(inspector: InspectorHandle) {
    drop(inspector.opened());
}

/// The direction of a sender's pieces. 0 is the client, and 1 the server.
pub fn direction_of(sender: u32) -> Option<Direction>
    ensures { result ≡ direction_of sender }
{
    match sender {
        0 => Some(Direction::ToServer),
        1 => Some(Direction::ToClient),
        _ => None,
    }
}

/// Judges the messages that a sender's piece completes, and prints their lines.
#[unsafe(no_mangle)]
pub extern "C" fn waywire_c_inspector_pass(
    inspector: &mut InspectorHandle,
    sender: u32,
    bytes: &[u8],
    tokens: usize,
) -> u32
    ensures answer { PassEnds (direction_of sender) result }
    ensures passed { result ≡ 0 → IfSome (direction_of sender) (λ direction.
        (limit : ℕ) (tables : List Interface)
        → PassesPiece limit tables (piece_of direction bytes.now tokens)
        inspector.old.held.inspector inspector.new.held.inspector) }
    ensures follower { inspector.new.held.follower ≡ inspector.old.held.follower }
    ensures line { inspector.new.held.line ≡ inspector.old.held.line }
    ensures unchanged { result ≢ 0 → inspector.new.held ≡ inspector.old.held }
{
    let Some(direction) = direction_of(sender) else {
        return BAD_VALUE;
    };
    match inspector.get_mut().inspector.pass(direction, bytes, tokens) {
        Ok(()) => OK,
        Err(_) => NO_MEMORY,
    }
}

/// Writes to `lines` where the lines of the last piece begin, and their length to `length`.
#[unsafe(no_mangle)]
pub extern "C" fn waywire_c_inspector_lines(
    inspector: &mut InspectorHandle,
    lines: &mut *const u8,
    length: &mut usize,
)
    ensures length { length.new ≡ len (printed inspector.old.held.inspector) }
    ensures unchanged { inspector.new.held ≡ inspector.old.held }
{
    (*lines, *length) = extent(inspector.get_mut().inspector.lines());
}

/// Writes to `line` where the line of the verdict on all pieces so far begins, its length to
/// `length`, and whether a message breaks a rule to `broken`.
#[unsafe(no_mangle)]
pub extern "C" fn waywire_c_inspector_verdict(
    inspector: &mut InspectorHandle,
    line: &mut *const u8,
    length: &mut usize,
    broken: &mut bool,
) -> u32
    ensures answer { IsTried result }
    ensures told { result ≡ 0 → (limit : ℕ) (tables : List Interface) (ps : List Piece)
        → HasPassed limit tables ps inspector.old.held.inspector
        → TellsVerdict tables (session_of limit ps) inspector.new.held.line.items length.new
        broken.new }
    ensures untold { result ≢ 0 → (line.new ≡ line.old) × (length.new ≡ length.old)
        × (broken.new ≡ broken.old) }
    ensures unchanged { inspector.new.held.inspector ≡ inspector.old.held.inspector }
    ensures follower { inspector.new.held.follower ≡ inspector.old.held.follower }
{
    let held = inspector.get_mut();
    let verdict = held.inspector.verdict();
    held.line.clear();
    match write_verdict(&mut held.line, &verdict) {
        Ok(()) => {
            (*line, *length) = extent(held.line.as_slice());
            *broken = is_broken(&verdict);
            OK
        }
        Err(_) => NO_MEMORY,
    }
}

/// Whether a message breaks a rule, according to a verdict.
fn is_broken(verdict: &Verdict) -> bool
    ensures { result ≡ is_broken verdict.now }
{
    match verdict {
        Verdict::Lawful { .. } => false,
        Verdict::Broken { .. } => true,
    }
}
