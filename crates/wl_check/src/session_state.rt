//! A session's messages, judged one after another.
ghost use Rattle.std.specs.Prelude.{◌≡◌, ◌≤◌, ◌<◌, true, false, drop, length, OnOk};
ghost use Rattle.std.specs.Prelude.{Some};
ghost use Rattle.std.specs.Prelude.{IfOk};
ghost use Rattle.wl_sigs.specs.Valid.{Valid};
ghost use Rattle.wl_check.specs.Held.{undone_by, Held};
ghost use Rattle.wl_check.specs.SessionState.{is_going, AllJudged, Comes, CutFollows, IsUnread};
ghost use Rattle.wl_check.specs.SessionState.{gone_back, numbers_in, IsJudged, OthersStay, WentOn};
ghost use Rattle.wl_check.specs.Printed.{PrintsOn};
ghost use Rattle.wl_check.specs.Session.{Session};

use crate::deserved::{UndeservedDelete, note_undeserved, undeserved_id};
use crate::frames::{FramedMessage, size_in_front};
use crate::judging::judge;
use crate::overwritten::UndoList;
use crate::progress::{Progress, Tally};
use std::alloc::{AllocError, Allocator, Global};
use wl_message::Limit;
use wl_objects::{Fault, ParsedArgs};
use wl_recording::Direction;
use wl_sigs::Tables;

/// The output that is wanted for a session.
#[derive(Clone, Copy, Debug)]
pub(crate) enum Output {
    Nothing,
    /// The line of each message.
    Lines,
}

/// Whether there are messages to judge.
#[derive(Clone, Copy, Debug)]
pub(crate) enum SessionStatus {
    /// No message broke a rule, and none ended the session.
    Open,
    /// The last message was wl_display.error, which ends the session.
    Ended,
    /// The next message breaks a rule: this is the first that it breaks.
    Broken(FramedMessage, Fault),
}

/// How far a session was judged.
#[derive(Drop)]
pub(crate) struct SessionState<A: Allocator = Global> {
    /// What is known after the messages that keep the rules, and the counts of them.
    pub progress: Progress<A>,
    /// How many such messages there are.
    pub count: u64,
    pub status: SessionStatus,
    /// The first delete_id among them that is not deserved.
    pub undeserved: Option<UndeservedDelete>,
}

/// The tables and the limit by which messages are judged.
#[derive(Clone, Copy)]
pub(crate) struct Protocol<'t> {
    pub tables: &'t Tables,
    pub limit: Limit,
}

/// The destination of the wanted output.
#[derive(Drop)]
pub(crate) struct Sink<A: Allocator = Global> {
    pub output: Output,
    /// The output so far.
    pub text: Vec<u8, A>,
}

/// What is written while messages are judged.
#[derive(Drop)]
pub(crate) struct Journal<A: Allocator = Global> {
    /// The arguments of the last message; those of the next are read over them.
    pub args: ParsedArgs,
    pub sink: Sink<A>,
    /// What the messages overwrite in what is known.
    pub undo: UndoList<A>,
}

/// All of a state except what is held.
#[derive(Clone, Copy)]
pub(crate) struct Numbers {
    used: u32,
    server_used: u32,
    taken_to_server: u128,
    taken_to_client: u128,
    to_server: Tally,
    to_client: Tally,
    count: u64,
    status: SessionStatus,
    undeserved: Option<UndeservedDelete>,
}

impl<A: Allocator + Clone> SessionState<A> {
    /// Before the first message.
    pub(crate) fn new(alloc: &A, tables: &Tables) -> Result<Self, AllocError>
        ensures valid { OnOk result (Valid tables.now) }
        ensures fresh { IfOk result IsUnread }
    {
        Ok(SessionState {
            progress: Progress::new(alloc, tables)?,
            count: 0,
            status: SessionStatus::Open,
            undeserved: None,
        })
    }

    /// Judges the whole messages at the front of these bytes of a direction, and returns where the
    /// next message begins. One that breaks a rule or ends the session is the last, and none
    /// follows it.
    pub(crate) fn judge_all(
        &mut self,
        bytes: &[u8],
        direction: Direction,
        tokens: u128,
        protocol: &Protocol<'_>,
        journal: &mut Journal<A>,
    ) -> Result<usize, AllocError>
        requires valid { Valid protocol.now.tables.now }
        requires follows { ∥ ((s : Session)
            × CutFollows protocol.now.limit.bytes protocol.now.tables.now s
            self.old direction tokens bytes.now) ∥₁ }
        ensures place { IfOk result (λ place. place ≤ length bytes.now) }
        ensures judged { IfOk result (λ place. (s : Session)
            → CutFollows protocol.now.limit.bytes protocol.now.tables.now s self.old direction
            tokens bytes.now
            → AllJudged protocol.now.limit.bytes protocol.now.tables.now s self.new direction
            (drop place bytes.now)) }
        ensures lines { OnOk result ((s : Session)
            → CutFollows protocol.now.limit.bytes protocol.now.tables.now s self.old direction
            tokens bytes.now
            → PrintsOn protocol.now.tables.now s journal.old.sink.output self.old.count
            self.new.count journal.old.sink.text.items journal.new.sink.text.items) }
        ensures other { OnOk result (OthersStay direction self.old self.new) }
        ensures output { journal.new.sink.output ≡ journal.old.sink.output }
        ensures undone { undone_by journal.new.undo self.new.progress.known.held
            ≡ undone_by journal.old.undo self.old.progress.known.held }
    {
        let mut place = 0;
        'messages: loop {
            let rest = &bytes[place..];
            let Some(size) = size_in_front(rest, protocol.limit) else {
                return Ok(place);
            };
            let frame = FramedMessage {
                direction,
                start: self.progress.tally(direction).end,
                size,
                tokens,
            };
            self.judge_next(rest, &frame, protocol, journal)?;
            if !self.is_open() {
                return Ok(bytes.len());
            }
            place += size as usize;
        }
    }

    /// Judges the next message, at the front of these bytes, and writes the wanted output for it.
    fn judge_next(
        &mut self,
        bytes: &[u8],
        frame: &FramedMessage,
        protocol: &Protocol<'_>,
        journal: &mut Journal<A>,
    ) -> Result<(), AllocError>
        requires valid { Valid protocol.now.tables.now }
        requires comes { ∥ ((s : Session) × Comes protocol.now.limit.bytes protocol.now.tables.now s
            self.old frame.now bytes.now) ∥₁ }
        ensures judged { OnOk result ((s : Session)
            → Comes protocol.now.limit.bytes protocol.now.tables.now s self.old frame.now bytes.now
            → IsJudged protocol.now.tables.now s self.new) }
        ensures lines { OnOk result ((s : Session)
            → Comes protocol.now.limit.bytes protocol.now.tables.now s self.old frame.now bytes.now
            → PrintsOn protocol.now.tables.now s journal.old.sink.output self.old.count
            self.new.count journal.old.sink.text.items journal.new.sink.text.items) }
        ensures on { OnOk result (is_going self.new.status ≡ true
            → WentOn protocol.now.limit.bytes frame.now self.old self.new) }
        ensures other { OnOk result (OthersStay frame.now.direction self.old self.new) }
        ensures output { journal.new.sink.output ≡ journal.old.sink.output }
        ensures undone { undone_by journal.new.undo self.new.progress.known.held
            ≡ undone_by journal.old.undo self.old.progress.known.held }
    {
        let Journal { args, sink, undo } = journal;
        let judged = judge(args, protocol, &self.progress.known, bytes, frame, sink)?;
        let changes = match judged {
            Ok(changes) => changes,
            Err(fault) => {
                self.status = SessionStatus::Broken(*frame, fault);
                return Ok(());
            }
        };
        let place = self.count + 1;
        let known = &self.progress.known;
        let taken_back = undeserved_id(protocol.tables, known, &changes);
        self.progress.advance(place, frame, &changes, undo)?;
        self.count = place;
        note_undeserved(&mut self.undeserved, place, taken_back);
        if changes.is_error {
            self.status = SessionStatus::Ended;
        }
        Ok(())
    }
}

impl<A: Allocator> SessionState<A> {
    /// Whether there are messages to judge.
    pub(crate) fn is_open(&self) -> bool
        ensures { result ≡ is_going self.now.status }
    {
        match self.status {
            SessionStatus::Open => true,
            SessionStatus::Ended | SessionStatus::Broken(..) => false,
        }
    }

    /// All of the state except what is held.
    pub(crate) fn numbers(&self) -> Numbers
        ensures { result ≡ numbers_in self.now }
    {
        let Progress {
            known,
            to_server,
            to_client,
        } = &self.progress;
        Numbers {
            used: known.used,
            server_used: known.server_used,
            taken_to_server: known.taken_to_server,
            taken_to_client: known.taken_to_client,
            to_server: *to_server,
            to_client: *to_client,
            count: self.count,
            status: self.status,
            undeserved: self.undeserved,
        }
    }

    /// Restores these numbers, and what was held before the recorded changes.
    pub(crate) fn go_back(&mut self, numbers: Numbers, undo: &mut UndoList<A>)
        ensures { (held : Held) → undone_by undo.old self.old.progress.known.held ≡ Some held
            → self.new ≡ gone_back held numbers self.old }
    {
        let known = &mut self.progress.known;
        known.held.undo(undo);
        known.used = numbers.used;
        known.server_used = numbers.server_used;
        known.taken_to_server = numbers.taken_to_server;
        known.taken_to_client = numbers.taken_to_client;
        self.progress.to_server = numbers.to_server;
        self.progress.to_client = numbers.to_client;
        self.count = numbers.count;
        self.status = numbers.status;
        self.undeserved = numbers.undeserved;
    }
}
