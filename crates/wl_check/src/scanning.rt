//! Judging a session piece by piece.
ghost use Rattle.std.specs.Prelude.{◌≡◌, ◌⊎◌, ◌∷◌, ◌++◌, ℕ, List, [], map, take, true, length};
ghost use Rattle.std.specs.Prelude.{Some};
ghost use Rattle.std.specs.Prelude.{IfErr, IfOk, OnErr, OnOk};
ghost use Rattle.wl_recording.specs.declared.recording.RecordingError.TheVariants.{BadLine, Memory};
ghost use Rattle.wl_recording.specs.Piece.{Piece, recorded_piece};
ghost use Rattle.wl_recording.specs.Text.{IsFirstBad, TextRecords};
ghost use Rattle.wl_sigs.specs.Tables.{Interface};
ghost use Rattle.wl_sigs.specs.Valid.{Valid};
ghost use Rattle.wl_check.specs.Held.{undone_by};
ghost use Rattle.wl_check.specs.SessionState.{is_going, AllJudged, JudgedAlong, CutFollows};
ghost use Rattle.wl_check.specs.SessionState.{AfterPieces};
ghost use Rattle.wl_check.specs.SessionState.{HasCome, IsReady, OthersStay};
ghost use Rattle.wl_check.specs.Passing.{piece_in};
ghost use Rattle.wl_check.specs.Printed.{PrintsOn, PrintsPiece};
ghost use Rattle.wl_check.specs.Session.{session_of, IsVerdictOf, Session};
ghost use Rattle.wl_check.specs.Trace.{trace_of, wanted};

use crate::frames::{LentPiece, Stream, WaitingBytes, append_next, empty_stream};
use crate::overwritten::UndoList;
use crate::session_state::{Journal, Output, Protocol, SessionState, SessionStatus, Sink};
use crate::verdict::Verdict;
use std::alloc::{AllocError, Allocator, Global};
use wl_message::Limit;
use wl_objects::ParsedArgs;
use wl_recording::{Appended, Direction, Passed, PieceReader, RecordingError};
use wl_sigs::Tables;

/// A session that is judged as its pieces pass. Of its bytes only those of started messages are
/// kept.
#[derive(Drop)]
pub(crate) struct Scanner<A: Allocator = Global> {
    pub state: SessionState<A>,
    pub to_server: Stream<A>,
    pub to_client: Stream<A>,
}

/// Judges the messages that a piece's bytes complete, after those that wait, and leaves what waits
/// now. Without memory, what waited before is at the front.
#[inline(always)]
fn judge_bytes<A: Allocator + Clone>(
    state: &mut SessionState<A>,
    waiting: &mut WaitingBytes<A>,
    piece: &LentPiece<'_>,
    tokens: u128,
    protocol: &Protocol<'_>,
    journal: &mut Journal<A>,
) -> Result<(), AllocError>
    requires valid { Valid protocol.now.tables.now }
    requires follows { ∥ ((s : Session) × CutFollows protocol.now.limit.bytes
        protocol.now.tables.now s state.old piece.now.direction tokens (waiting.old ++
        piece.now.bytes.now)) ∥₁ }
    ensures judged { OnOk result ((s : Session)
        → CutFollows protocol.now.limit.bytes protocol.now.tables.now s state.old
        piece.now.direction tokens (waiting.old ++ piece.now.bytes.now)
        → AllJudged protocol.now.limit.bytes protocol.now.tables.now s state.new piece.now.direction
        waiting.new) }
    ensures lines { OnOk result ((s : Session)
        → CutFollows protocol.now.limit.bytes protocol.now.tables.now s state.old
        piece.now.direction tokens (waiting.old ++ piece.now.bytes.now)
        → PrintsOn protocol.now.tables.now s journal.old.sink.output state.old.count state.new.count
        journal.old.sink.text.items journal.new.sink.text.items) }
    ensures other { OnOk result (OthersStay piece.now.direction state.old state.new) }
    ensures output { journal.new.sink.output ≡ journal.old.sink.output }
    ensures undone { undone_by journal.new.undo state.new.progress.known.held
        ≡ undone_by journal.old.undo state.old.progress.known.held }
    ensures waiting { OnErr result (take (length waiting.old) waiting.new ≡ waiting.old) }
{
    if waiting.len() == 0 {
        let place = state.judge_all(piece.bytes, piece.direction, tokens, protocol, journal)?;
        if place < piece.bytes.len() {
            waiting.append(&piece.bytes[place..])?;
        }
        return Ok(());
    }
    waiting.append(piece.bytes)?;
    let place = state.judge_all(
        waiting.as_slice(),
        piece.direction,
        tokens,
        protocol,
        journal,
    )?;
    waiting.keep_from(place);
    Ok(())
}

/// The same, but without memory nothing changes, if overwritten values were recorded.
fn judge_or_go_back<A: Allocator + Clone>(
    state: &mut SessionState<A>,
    waiting: &mut WaitingBytes<A>,
    piece: &LentPiece<'_>,
    tokens: u128,
    protocol: &Protocol<'_>,
    journal: &mut Journal<A>,
) -> Result<(), AllocError>
    requires valid { Valid protocol.now.tables.now }
    requires follows { ∥ ((s : Session) × CutFollows protocol.now.limit.bytes
        protocol.now.tables.now s state.old piece.now.direction tokens (waiting.old ++
        piece.now.bytes.now)) ∥₁ }
    ensures judged { OnOk result ((s : Session)
        → CutFollows protocol.now.limit.bytes protocol.now.tables.now s state.old
        piece.now.direction tokens (waiting.old ++ piece.now.bytes.now)
        → AllJudged protocol.now.limit.bytes protocol.now.tables.now s state.new piece.now.direction
        waiting.new) }
    ensures lines { OnOk result ((s : Session)
        → CutFollows protocol.now.limit.bytes protocol.now.tables.now s state.old
        piece.now.direction tokens (waiting.old ++ piece.now.bytes.now)
        → PrintsOn protocol.now.tables.now s journal.old.sink.output state.old.count state.new.count
        journal.old.sink.text.items journal.new.sink.text.items) }
    ensures other { OnOk result (OthersStay piece.now.direction state.old state.new) }
    ensures output { journal.new.sink.output ≡ journal.old.sink.output }
    ensures err { OnErr result (undone_by journal.old.undo state.old.progress.known.held
        ≡ Some state.old.progress.known.held → state.new ≡ state.old) }
    ensures waiting { OnErr result (waiting.new ≡ waiting.old) }
{
    let numbers = state.numbers();
    let len = waiting.len();
    match judge_bytes(state, waiting, piece, tokens, protocol, journal) {
        Ok(()) => Ok(()),
        Err(error) => {
            state.go_back(numbers, &mut journal.undo);
            waiting.go_back(len);
            Err(error)
        }
    }
}

/// Judges the messages that a piece completes in its stream. It keeps what is left, unless the
/// session has ended or a message broke a rule; then it only counts. Without memory nothing
/// changes, if overwritten values were recorded.
fn judge_piece<A: Allocator + Clone>(
    state: &mut SessionState<A>,
    stream: &mut Stream<A>,
    piece: &LentPiece<'_>,
    protocol: &Protocol<'_>,
    journal: &mut Journal<A>,
) -> Result<(), AllocError>
    requires valid { Valid protocol.now.tables.now }
    requires along { ∥ ((ps : List Piece) × JudgedAlong protocol.now.limit.bytes
        protocol.now.tables.now piece.now.direction ps state.old stream.old) ∥₁ }
    ensures along { OnOk result ((ps : List Piece)
        → JudgedAlong protocol.now.limit.bytes protocol.now.tables.now piece.now.direction ps
        state.old stream.old
        → JudgedAlong protocol.now.limit.bytes protocol.now.tables.now piece.now.direction
        (ps ++ piece_in piece.now ∷ []) state.new stream.new) }
    ensures lines { OnOk result ((ps : List Piece)
        → JudgedAlong protocol.now.limit.bytes protocol.now.tables.now piece.now.direction ps
        state.old stream.old
        → PrintsOn protocol.now.tables.now
        (session_of protocol.now.limit.bytes (ps ++ piece_in piece.now ∷ []))
        journal.old.sink.output state.old.count state.new.count journal.old.sink.text.items
        journal.new.sink.text.items) }
    ensures going { OnOk result (is_going state.new.status ≡ true
        → is_going state.old.status ≡ true) }
    ensures other { OnOk result (OthersStay piece.now.direction state.old state.new) }
    ensures output { journal.new.sink.output ≡ journal.old.sink.output }
    ensures state { OnErr result (undone_by journal.old.undo state.old.progress.known.held
        ≡ Some state.old.progress.known.held → state.new ≡ state.old) }
    ensures stream { OnErr result (undone_by journal.old.undo state.old.progress.known.held
        ≡ Some state.old.progress.known.held → stream.new ≡ stream.old) }
{
    // No memory can hold more than these numbers can count.
    let Some(len) = stream.len.checked_add(piece.bytes.len()) else {
        return Err(AllocError);
    };
    let Some(tokens) = stream.tokens.checked_add(piece.tokens as u128) else {
        return Err(AllocError);
    };
    if !state.is_open() {
        stream.len = len;
        stream.tokens = tokens;
        return Ok(());
    }
    let waiting = &mut stream.bytes;
    match journal.undo {
        // Nothing will be restored, so nothing is recorded for that.
        UndoList::Off => judge_bytes(state, waiting, piece, tokens, protocol, journal)?,
        UndoList::On(_) => judge_or_go_back(state, waiting, piece, tokens, protocol, journal)?,
    }
    stream.len = len;
    stream.tokens = tokens;
    Ok(())
}

/// The same if the piece's bytes were already appended to those that wait. Nothing is restored, and
/// the room of judged bytes is kept for the next piece.
#[inline(always)]
fn judge_waiting<A: Allocator + Clone>(
    state: &mut SessionState<A>,
    stream: &mut Stream<A>,
    piece: &Appended,
    protocol: &Protocol<'_>,
    journal: &mut Journal<A>,
) -> Result<(), AllocError>
    requires valid { Valid protocol.now.tables.now }
    requires come { ∥ ((ps : List Piece) × (p : Piece)
        × HasCome protocol.now.limit.bytes protocol.now.tables.now ps p piece.now state.old
        stream.old) ∥₁ }
    ensures along { OnOk result ((ps : List Piece) (p : Piece)
        → HasCome protocol.now.limit.bytes protocol.now.tables.now ps p piece.now state.old
        stream.old
        → JudgedAlong protocol.now.limit.bytes protocol.now.tables.now p.direction (ps ++ p ∷ [])
        state.new stream.new) }
    ensures lines { OnOk result ((ps : List Piece) (p : Piece)
        → HasCome protocol.now.limit.bytes protocol.now.tables.now ps p piece.now state.old
        stream.old
        → PrintsOn protocol.now.tables.now (session_of protocol.now.limit.bytes (ps ++ p ∷ []))
        journal.old.sink.output state.old.count state.new.count journal.old.sink.text.items
        journal.new.sink.text.items) }
    ensures going { OnOk result (is_going state.new.status ≡ true
        → is_going state.old.status ≡ true) }
    ensures other { OnOk result (OthersStay piece.now.direction state.old state.new) }
    ensures output { journal.new.sink.output ≡ journal.old.sink.output }
{
    // No memory can hold more than these numbers can count.
    let Some(len) = stream.len.checked_add(piece.len) else {
        return Err(AllocError);
    };
    let Some(tokens) = stream.tokens.checked_add(u128::from(piece.tokens)) else {
        return Err(AllocError);
    };
    stream.len = len;
    stream.tokens = tokens;
    if !state.is_open() {
        stream.bytes.remove_front(stream.bytes.len());
        return Ok(());
    }
    let waiting = stream.bytes.as_slice();
    let place = state.judge_all(waiting, piece.direction, tokens, protocol, journal)?;
    stream.bytes.remove_front(place);
    Ok(())
}

impl<A: Allocator + Clone> Scanner<A> {
    /// Before the first piece.
    pub(crate) fn new(alloc: &A, tables: &Tables) -> Result<Self, AllocError>
        ensures valid { OnOk result (Valid tables.now) }
        ensures none { IfOk result (λ s. (limit : ℕ) → AfterPieces limit tables.now [] s) }
    {
        Ok(Scanner {
            state: SessionState::new(alloc, tables)?,
            to_server: empty_stream(alloc.clone()?),
            to_client: empty_stream(alloc.clone()?),
        })
    }

    /// Judges the messages that a piece completes, and writes the wanted output for them. Without
    /// memory nothing changes, if overwritten values were recorded.
    pub(crate) fn judge(
        &mut self,
        piece: &LentPiece<'_>,
        protocol: &Protocol<'_>,
        journal: &mut Journal<A>,
    ) -> Result<(), AllocError>
        requires valid { Valid protocol.now.tables.now }
        requires after { ∥ ((ps : List Piece)
            × AfterPieces protocol.now.limit.bytes protocol.now.tables.now ps self.old) ∥₁ }
        ensures after { OnOk result ((ps : List Piece)
            → AfterPieces protocol.now.limit.bytes protocol.now.tables.now ps self.old
            → AfterPieces protocol.now.limit.bytes protocol.now.tables.now
            (ps ++ piece_in piece.now ∷ []) self.new) }
        ensures lines { OnOk result ((ps : List Piece)
            → AfterPieces protocol.now.limit.bytes protocol.now.tables.now ps self.old
            → PrintsPiece protocol.now.limit.bytes protocol.now.tables.now journal.old.sink.output
            ps (piece_in piece.now) journal.old.sink.text.items journal.new.sink.text.items) }
        ensures output { journal.new.sink.output ≡ journal.old.sink.output }
        ensures err { OnErr result (undone_by journal.old.undo self.old.state.progress.known.held
            ≡ Some self.old.state.progress.known.held → self.new ≡ self.old) }
    {
        match piece.direction {
            Direction::ToServer => {
                judge_piece(
                    &mut self.state,
                    &mut self.to_server,
                    piece,
                    protocol,
                    journal,
                )
            }
            Direction::ToClient => {
                judge_piece(
                    &mut self.state,
                    &mut self.to_client,
                    piece,
                    protocol,
                    journal,
                )
            }
        }
    }

    /// Judges the messages that a piece completes, whose bytes were appended to the stream of its
    /// direction, and writes the wanted output for them.
    #[inline(always)]
    pub(crate) fn judge_appended(
        &mut self,
        piece: &Appended,
        protocol: &Protocol<'_>,
        journal: &mut Journal<A>,
    ) -> Result<(), AllocError>
        requires valid { Valid protocol.now.tables.now }
        requires ready { ∥ ((ps : List Piece) × (p : Piece)
            × IsReady protocol.now.limit.bytes protocol.now.tables.now ps p piece.now self.old) ∥₁ }
        ensures after { OnOk result ((ps : List Piece) (p : Piece)
            → IsReady protocol.now.limit.bytes protocol.now.tables.now ps p piece.now self.old
            → AfterPieces protocol.now.limit.bytes protocol.now.tables.now (ps ++ p ∷ [])
            self.new) }
        ensures lines { OnOk result ((ps : List Piece) (p : Piece)
            → IsReady protocol.now.limit.bytes protocol.now.tables.now ps p piece.now self.old
            → PrintsPiece protocol.now.limit.bytes protocol.now.tables.now journal.old.sink.output
            ps p journal.old.sink.text.items journal.new.sink.text.items) }
        ensures output { journal.new.sink.output ≡ journal.old.sink.output }
    {
        match piece.direction {
            Direction::ToServer => {
                judge_waiting(
                    &mut self.state,
                    &mut self.to_server,
                    piece,
                    protocol,
                    journal,
                )
            }
            Direction::ToClient => {
                judge_waiting(
                    &mut self.state,
                    &mut self.to_client,
                    piece,
                    protocol,
                    journal,
                )
            }
        }
    }
}

impl<A: Allocator> Scanner<A> {
    /// The verdict on the session of all pieces so far.
    pub(crate) fn verdict(&self) -> Verdict
        requires { ∥ ((limit : ℕ) × (tables : List Interface) × (ps : List Piece)
            × AfterPieces limit tables ps self.now) ∥₁ }
        ensures { (limit : ℕ) (tables : List Interface) (ps : List Piece)
            → AfterPieces limit tables ps self.now
            → IsVerdictOf tables (session_of limit ps) result }
    {
        let progress = &self.state.progress;
        match &self.state.status {
            SessionStatus::Broken(frame, fault) => progress.broken(frame, *fault),
            SessionStatus::Open | SessionStatus::Ended => {
                progress.lawful(self.to_server.len, self.to_client.len)
            }
        }
    }
}

/// Goes through the pieces of a recording, and writes the wanted output for each message.
pub(crate) fn scan<A: Allocator + Clone>(
    alloc: &A,
    pieces: &[Passed<A>],
    tables: &Tables,
    limit: Limit,
    output: Output,
) -> Result<(Vec<u8, A>, Verdict), AllocError>
    ensures lines { IfOk result (λ r. r.0.items
        ≡ wanted output (trace_of tables.now (session_of limit.bytes
        (map recorded_piece pieces.now)))) }
    ensures verdict { IfOk result
        (λ r. IsVerdictOf tables.now (session_of limit.bytes (map recorded_piece pieces.now)) r.1) }
{
    let protocol = Protocol { tables, limit };
    let mut scanner = Scanner::new(alloc, tables)?;
    let lines = Vec::new(alloc.clone()?);
    let mut journal = Journal {
        args: ParsedArgs::new(),
        sink: Sink {
            output,
            text: lines,
        },
        undo: UndoList::Off,
    };
    'pieces: for piece in pieces {
        let lent = LentPiece {
            direction: piece.direction,
            bytes: piece.bytes.as_slice(),
            tokens: piece.tokens as usize,
        };
        scanner.judge(&lent, &protocol, &mut journal)?;
    }
    let verdict = scanner.verdict();
    Ok((journal.sink.text, verdict))
}

/// Goes through the text of a recording, keeping one piece at a time.
pub(crate) fn scan_text<A: Allocator + Clone>(
    alloc: &A,
    text: &[u8],
    tables: &Tables,
    limit: Limit,
    output: Output,
) -> Result<(Vec<u8, A>, Verdict), RecordingError>
    ensures told { IfOk result (λ r. (pieces : List Piece) × TextRecords text.now pieces
        × ((r.0.items ≡ wanted output (trace_of tables.now (session_of limit.bytes pieces)))
        × IsVerdictOf tables.now (session_of limit.bytes pieces) r.1)) }
    ensures bad { IfErr result
        (λ e. (e ≡ Memory) ⊎ ((n : ℕ) × (e ≡ BadLine n) × IsFirstBad text.now n)) }
{
    let protocol = Protocol { tables, limit };
    let mut scanner = Scanner::new(alloc, tables)?;
    let lines = Vec::new(alloc.clone()?);
    let mut journal = Journal {
        args: ParsedArgs::new(),
        sink: Sink {
            output,
            text: lines,
        },
        undo: UndoList::Off,
    };
    let mut reader = PieceReader::new(text);
    'pieces: while let Some(piece) = append_next(
        &mut reader,
        &mut scanner.to_server.bytes,
        &mut scanner.to_client.bytes,
    )? {
        scanner.judge_appended(&piece, &protocol, &mut journal)?;
    }
    let verdict = scanner.verdict();
    Ok((journal.sink.text, verdict))
}
