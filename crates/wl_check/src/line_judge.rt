//! A recording that is judged line by line.
ghost use Rattle.std.specs.Prelude.{◌≡◌, ◌⊎◌, ◌∷◌, ℕ, Bool, false, List, []};
ghost use Rattle.std.specs.Prelude.{IfErr, IfOk, OnOk, Option, Some};
ghost use Rattle.std.specs.Str.Lines.{lines};
ghost use Rattle.wl_recording.specs.declared.recording.RecordingError.TheVariants.{BadLine, Memory};
ghost use Rattle.wl_recording.specs.Piece.{Piece};
ghost use Rattle.wl_recording.specs.Text.{IsFirstBad};
ghost use Rattle.wl_sigs.specs.Tables.{Interface};
ghost use Rattle.wl_check.specs.declared.verdict.Verdict.{Verdict};
ghost use Rattle.wl_check.specs.SessionState.{AfterPieces};

use crate::frames::append_next;
use crate::overwritten::UndoList;
use crate::scanning::Scanner;
use crate::session_state::{Journal, Output, Protocol, Sink};
use crate::verdict::Verdict;
use std::alloc::{AllocError, Allocator, Global};
use wl_message::Limit;
use wl_objects::{DISPLAY, ParsedArgs};
use wl_recording::{PieceReader, RecordingError};
use wl_sigs::Tables;

/// Judges a recording line by line.
///
/// About the lines so far it says what [`check`](crate::check) and [`trace`](crate::trace) say
/// about a recording of them. It keeps what an `Inspector` keeps, but after an error it judges no
/// more.
#[derive(Drop)]
pub struct LineJudge<'t, A: Allocator = Global> {
    tables: &'t Tables,
    limit: Limit,
    pub(crate) scanner: Scanner<A>,
    pub(crate) journal: Journal<A>,
    has_failed: bool,
    ghost begun: { has_failed ≡ false → ∥ ((ps : List Piece)
        × AfterPieces limit.bytes tables.now ps scanner) ∥₁ },
}

impl<'t, A: Allocator + Clone> LineJudge<'t, A> {
    ghost use Rattle.wl_check.specs.LinesJudged.{HasJudgedLines, JudgesOne};

    /// Before the first line. `limit` is the longest message.
    pub fn new(
        alloc: A,
        tables: &'t Tables,
        limit: Limit,
        prints_lines: bool,
    ) -> Result<Self, AllocError>
        ensures { IfOk result (HasJudgedLines prints_lines limit.bytes tables.now []) }
    {
        let output = if prints_lines {
            Output::Lines
        } else {
            Output::Nothing
        };
        Ok(LineJudge {
            tables,
            limit,
            scanner: Scanner::new(&alloc, tables)?,
            journal: Journal {
                args: ParsedArgs::new(),
                sink: Sink {
                    output,
                    text: Vec::new(alloc),
                },
                undo: UndoList::Off,
            },
            has_failed: false,
        })
    }

    /// Judges the messages that the piece of a line completes, and prints their lines if they are
    /// wanted.
    pub fn judge(&mut self, line: &[u8]) -> Result<(), RecordingError>
        ensures judged { OnOk result ((prints_lines : Bool) (limit : ℕ) (tables : List Interface)
            (pieces : List Piece) (one : List ℕ) → lines line.now ≡ one ∷ []
            → HasJudgedLines prints_lines limit tables pieces self.old
            → JudgesOne prints_lines limit tables pieces one self.new) }
        ensures bad { IfErr result
            (λ e. (e ≡ Memory) ⊎ ((n : ℕ) × (e ≡ BadLine n) × IsFirstBad line.now n)) }
    {
        if self.has_failed {
            return Err(RecordingError::Memory);
        }
        // Every call on tables says that they are valid.
        let _version = self.tables.version(DISPLAY);
        self.has_failed = true;
        self.journal.sink.text.clear();
        let mut reader = PieceReader::new(line);
        let Some(piece) = append_next(
            &mut reader,
            &mut self.scanner.to_server.bytes,
            &mut self.scanner.to_client.bytes,
        )?
        else {
            self.has_failed = false;
            return Ok(());
        };
        let protocol = Protocol {
            tables: self.tables,
            limit: self.limit,
        };
        self.scanner
            .judge_appended(&piece, &protocol, &mut self.journal)?;
        self.has_failed = false;
        Ok(())
    }
}

impl<'t, A: Allocator> LineJudge<'t, A> {
    ghost use Rattle.wl_check.specs.LinesJudged.{HasJudgedLines, line_text};
    ghost use Rattle.wl_check.specs.Session.{session_of, IsVerdictOf};

    /// The lines that the last line printed, each ended by a line feed.
    pub fn lines(&self) -> &[u8]
        ensures { result.now ≡ line_text self.now }
    {
        self.journal.sink.text.as_slice()
    }

    /// The verdict on the session of the lines so far; none after an error.
    pub fn verdict(&self) -> Option<Verdict>
        ensures { (prints_lines : Bool) (limit : ℕ) (tables : List Interface) (ps : List Piece)
            → HasJudgedLines prints_lines limit tables ps self.now
            → (verdict : Verdict) × (result ≡ Some verdict)
            × IsVerdictOf tables (session_of limit ps) verdict }
    {
        if self.has_failed {
            return None;
        }
        Some(self.scanner.verdict())
    }
}
