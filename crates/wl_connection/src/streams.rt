//! Reading whole streams at an end, in pieces.
ghost use Rattle.std.specs.Prelude.{◌≡◌, ◌≤◌, true, false, [], length, map, take, Some};
ghost use Rattle.wl_message.specs.Arrived.{free_tokens};
ghost use Rattle.wl_message.specs.InStep.{part};
ghost use Rattle.wl_connection.specs.Core.{no_room};
ghost use Rattle.wl_connection.specs.Reads.{reading_of, appended, PieceIsRead, ReadsAll};
ghost use Rattle.wl_connection.specs.Reads.{WaitingIsRead};

use crate::receiver::Receiver;
use std::alloc::Allocator;
use wl_message::{Fed, Piece};
use wl_objects::NextError;

/// How far pieces of a stream were read.
#[derive(Clone, Copy, Debug, PartialEq, Eq)]
pub struct ReadAll {
    /// How many of the pieces were taken whole.
    pub pieces: usize,
    /// What was taken of the next piece: nothing, or all of its tokens and some of its bytes.
    pub part: Fed,
    /// Why reading stopped early. `None` if it reached the end, wl_display.error, or a piece whose
    /// tokens do not all fit.
    pub stop: Option<NextError>,
}

impl ReadAll {
    /// A reading that ended between two pieces.
    fn ended(pieces: usize, stop: Option<NextError>) -> ReadAll
        ensures { result ≡ record { pieces = pieces; part = no_room; stop = stop } }
    {
        ReadAll {
            pieces,
            part: Fed {
                bytes: 0,
                tokens: 0,
            },
            stop,
        }
    }
}

/// Reads pieces of a stream at an end, in order, and appends what was read to the reports.
///
/// All that waits is read before each piece and at the end. A piece is taken in as far as it fits,
/// and the rest of it after what waits was read again. Room for a report is reserved before its
/// message is read. `stop` is `Memory` if there is no memory for that room, for the report, or for
/// the object that the message makes; then the message stays at the front and can be read again.
/// The reading ends early when no message can be read, after the last report, and before a piece
/// whose tokens do not all fit; what was read before stays read. An end that has failed reads
/// nothing, even if there are no pieces.
pub fn read_all<E: Receiver, A: Allocator>(
    end: &mut E,
    pieces: &[Piece<'_>],
    reports: &mut Vec<E::Report, A>,
) -> ReadAll
    ensures reports { take (length reports.old.items) reports.new.items ≡ reports.old.items }
    ensures reads { (E.core end.old).failed ≡ false
        → ReadsAll (reading_of E.core E.with_core E.answer E.after E.is_last) end.old
        (map part pieces.now) (appended E.seen reports.old.items reports.new.items) result end.new }

    ensures answer { (E.core end.old).failed ≡ true
        → result ≡ record { pieces = 0; part = no_room; stop = Some NextError.Failed } }
    ensures failed { (E.core end.old).failed ≡ true → end.new ≡ end.old }
    ensures nothing { (E.core end.old).failed ≡ true → reports.new.items ≡ reports.old.items }
{
    if end.has_failed() {
        return ReadAll::ended(0, Some(NextError::Failed));
    }
    for (taken, piece) in pieces.iter().enumerate() {
        if let Err(stop) = read_waiting(end, reports) {
            return ReadAll::ended(taken, stop);
        }
        if end.in_room().tokens < piece.tokens.len() {
            return ReadAll::ended(taken, None);
        }
        if let Err(ended) = read_piece(end, *piece, reports) {
            return ReadAll {
                pieces: taken,
                ..ended
            };
        }
    }
    if let Err(stop) = read_waiting(end, reports) {
        return ReadAll::ended(pieces.len(), stop);
    }
    ReadAll::ended(pieces.len(), None)
}

/// Reads all that waits; or up to what stops it, or up to the last report, which is no stop.
fn read_waiting<E: Receiver, A: Allocator>(
    end: &mut E,
    reports: &mut Vec<E::Report, A>,
) -> Result<(), Option<NextError>>
    requires { (E.core end.old).failed ≡ false }
    ensures reports { take (length reports.old.items) reports.new.items ≡ reports.old.items }
    ensures reads { WaitingIsRead (reading_of E.core E.with_core E.answer E.after E.is_last) end.old
        (appended E.seen reports.old.items reports.new.items) result end.new }
{
    'messages: loop {
        if reports.reserve(1).is_err() {
            return read_without_room(end);
        }
        match end.next_owned() {
            Err(why) => return Err(Some(why)),
            Ok(None) => return Ok(()),
            Ok(Some(report)) => {
                reports.push_reserved(report);
                if end.has_failed() {
                    return Err(None);
                }
            }
        }
    }
}

/// Reads without room for a report: `Memory` if there would be a report. A fault is still found,
/// and so is an empty inbox.
fn read_without_room<E: Receiver>(end: &mut E) -> Result<(), Option<NextError>>
    requires { (E.core end.old).failed ≡ false }
    ensures { WaitingIsRead (reading_of E.core E.with_core E.answer E.after E.is_last) end.old []
        result end.new }
{
    if end.has_report() {
        return Err(Some(NextError::Memory));
    }
    match end.next_owned() {
        Err(why) => Err(Some(why)),
        Ok(_) => Ok(()),
    }
}

/// Takes in a piece whose tokens fit, and reads what waits whenever there is no room for the rest
/// of its bytes. If the reading stops early, the result counts no whole pieces.
fn read_piece<E: Receiver, A: Allocator>(
    end: &mut E,
    piece: Piece<'_>,
    reports: &mut Vec<E::Report, A>,
) -> Result<(), ReadAll>
    requires open { (E.core end.old).failed ≡ false }
    requires room { length piece.tokens.now ≤ free_tokens (E.core end.old).inbox }
    ensures reports { take (length reports.old.items) reports.new.items ≡ reports.old.items }
    ensures reads { PieceIsRead (reading_of E.core E.with_core E.answer E.after E.is_last) end.old
        (part piece.entry) (appended E.seen reports.old.items reports.new.items) result end.new }
{
    let mut part = end.feed(piece.bytes, piece.tokens);
    'rest: while part.bytes < piece.bytes.len() {
        if let Err(stop) = read_waiting(end, reports) {
            return Err(ReadAll {
                pieces: 0,
                part,
                stop,
            });
        }
        part.bytes += end.feed(&piece.bytes[part.bytes..], &[]).bytes;
    }
    Ok(())
}
