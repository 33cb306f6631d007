//! A live session, judged as its pieces pass.
ghost use Rattle.std.specs.Prelude.{◌≡◌, ℕ, List, [], OnOk, OnErr, IfOk};
ghost use Rattle.wl_recording.specs.Piece.{Piece};
ghost use Rattle.wl_sigs.specs.Tables.{Interface};
ghost use Rattle.wl_check.specs.SessionState.{AfterPieces};

use crate::deserved::UndeservedDelete;
use crate::frames::LentPiece;
use crate::overwritten::UndoList;
use crate::scanning::Scanner;
use crate::session_state::{Journal, Output, Protocol, Sink};
use crate::verdict::Verdict;
use std::alloc::{AllocError, Allocator, Global};
use wl_message::Limit;
use wl_objects::{DISPLAY, ParsedArgs};
use wl_recording::Direction;
use wl_sigs::Tables;

/// Judges a session while it goes on, piece by piece; pieces may be split anywhere.
///
/// About the pieces so far it says what [`check`](crate::check) and [`trace`](crate::trace) say
/// about a recording of them. After a message that breaks a rule, and after a wl_display.error, it
/// judges and prints nothing more, and only counts.
///
/// It keeps the objects that are held, the globals that were advertised, the bytes of started
/// messages and the lines of the last piece. So its memory grows only with open objects and started
/// messages, however long the session lasts.
#[derive(Drop)]
pub struct Inspector<'t, A: Allocator = Global> {
    tables: &'t Tables,
    limit: Limit,
    pub(crate) scanner: Scanner<A>,
    lines: Vec<u8, A>,
    ghost begun: { ∥ ((ps : List Piece)
        × AfterPieces limit.bytes tables.now ps scanner) ∥₁ },
}

impl<'t, A: Allocator + Clone> Inspector<'t, A> {
    ghost use Rattle.wl_check.specs.Inspected.{printed, HasPassed, PassesPiece};
    ghost use Rattle.wl_check.specs.Printed.{piece_of};

    /// Before the first piece. `limit` is the longest message.
    pub fn new(alloc: A, tables: &'t Tables, limit: Limit) -> Result<Self, AllocError>
        ensures passed { IfOk result (λ inspector. HasPassed limit.bytes tables.now [] inspector) }
        ensures lines { IfOk result (λ inspector. printed inspector ≡ []) }
    {
        Ok(Inspector {
            tables,
            limit,
            scanner: Scanner::new(&alloc, tables)?,
            lines: Vec::new(alloc),
        })
    }

    /// Judges the messages that a piece completes, and prints their lines.
    ///
    /// Without memory nothing changes, and the piece can be passed again.
    pub fn pass(
        &mut self,
        direction: Direction,
        bytes: &[u8],
        tokens: usize,
    ) -> Result<(), AllocError>
        ensures ok { OnOk result ((limit : ℕ) (tables : List Interface)
            → PassesPiece limit tables (piece_of direction bytes.now tokens) self.old self.new) }
        ensures err { OnErr result (self.new ≡ self.old) }
    {
        // Every call on tables says that they are valid.
        let _version = self.tables.version(DISPLAY);
        let text = Vec::new(self.lines.allocator().clone()?);
        let overwritten = Vec::new(self.lines.allocator().clone()?);
        let mut journal = Journal {
            args: ParsedArgs::new(),
            sink: Sink {
                output: Output::Lines,
                text,
            },
            undo: UndoList::On(overwritten),
        };
        let piece = LentPiece {
            direction,
            bytes,
            tokens,
        };
        let protocol = Protocol {
            tables: self.tables,
            limit: self.limit,
        };
        self.scanner.judge(&piece, &protocol, &mut journal)?;
        self.lines = journal.sink.text;
        Ok(())
    }
}

impl<'t, A: Allocator> Inspector<'t, A> {
    ghost use Rattle.wl_check.specs.Deserved.{TellsUndeserved};
    ghost use Rattle.wl_check.specs.Inspected.{printed, HasPassed};
    ghost use Rattle.wl_check.specs.Session.{messages, session_of, IsVerdictOf};
    ghost use Rattle.wl_check.specs.Trace.{lasting};

    /// The lines that the last `pass` printed, each ended by a line feed.
    pub fn lines(&self) -> &[u8]
        ensures { result.now ≡ printed self.now }
    {
        self.lines.as_slice()
    }

    /// How many messages were judged, all of them lawful: the first ones of both directions
    /// together.
    pub fn judged_count(&self) -> u64
        ensures { (limit : ℕ) (tables : List Interface) (ps : List Piece)
            → HasPassed limit tables ps self.now
            → result ≡ lasting (messages tables (session_of limit ps)) }
    {
        self.scanner.state.count
    }

    /// The first judged delete_id that nothing asked for. If there is one, a request that breaks a
    /// rule after it may be the server's fault.
    pub fn undeserved(&self) -> Option<UndeservedDelete>
        ensures { (limit : ℕ) (tables : List Interface) (ps : List Piece)
            → HasPassed limit tables ps self.now → TellsUndeserved tables (session_of limit ps)
            (lasting (messages tables (session_of limit ps))) result }
    {
        self.scanner.state.undeserved
    }

    /// The verdict on the session of the pieces so far.
    pub fn verdict(&self) -> Verdict
        ensures { (limit : ℕ) (tables : List Interface) (ps : List Piece)
            → HasPassed limit tables ps self.now → IsVerdictOf tables (session_of limit ps) result }
    {
        self.scanner.verdict()
    }
}
