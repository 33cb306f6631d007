//! How far a session was examined.
ghost use Rattle.std.specs.Prelude.{◌≡◌, ◌+◌, ◌-◌, ◌^◌, ◌<◌, ◌≤◌, OnOk, IfOk};
ghost use Rattle.wl_recording.specs.declared.piece.Direction.TheVariants.{ToServer, ToClient};
ghost use Rattle.wl_check.specs.declared.verdict.Verdict.TheVariants.{Broken, Lawful};
ghost use Rattle.wl_check.specs.Held.{undone_by};
ghost use Rattle.wl_check.specs.Places.{IsFirst, IsKnownBehind};
ghost use Rattle.wl_sigs.specs.Valid.{Valid};
ghost use Rattle.wl_check.specs.Seen.{known_in, no_tally, tally_after, tally_in};

use crate::changes::MessageChanges;
use crate::frames::FramedMessage;
use crate::known::KnownState;
use crate::overwritten::UndoList;
use crate::verdict::Verdict;
use std::alloc::{AllocError, Allocator, Global};
use wl_objects::Fault;
use wl_recording::Direction;
use wl_sigs::Tables;

/// The counts of one direction.
#[derive(Clone, Copy, Debug)]
pub(crate) struct Tally {
    /// How many messages.
    pub count: usize,
    /// Where the last of them ends.
    pub end: usize,
}

/// What is known at a place, and the counts before it.
#[derive(Drop)]
pub(crate) struct Progress<A: Allocator = Global> {
    pub known: KnownState<A>,
    pub to_server: Tally,
    pub to_client: Tally,
}

fn tally_after(direction: Direction, frame: &FramedMessage, tally: Tally) -> Tally
    requires count { tally.count + 1 < 2 ^ 64 }
    requires end { frame.now.start + frame.now.size < 2 ^ 64 }
    ensures { result ≡ tally_after direction frame.now tally }
{
    if frame.direction != direction {
        return tally;
    }
    Tally {
        count: tally.count + 1,
        end: frame.start + frame.size as usize,
    }
}

impl<A: Allocator + Clone> Progress<A> {
    /// Before the first message.
    pub(crate) fn new(alloc: &A, tables: &Tables) -> Result<Self, AllocError>
        ensures valid { OnOk result (Valid tables.now) }
        ensures known { IfOk result (λ p. IsFirst (known_in p.known)) }
        ensures to_server { IfOk result (λ p. p.to_server ≡ no_tally) }
        ensures to_client { IfOk result (λ p. p.to_client ≡ no_tally) }
        ensures taken_to_server { IfOk result (λ p. p.known.taken_to_server ≡ 0) }
        ensures taken_to_client { IfOk result (λ p. p.known.taken_to_client ≡ 0) }
    {
        let none = Tally { count: 0, end: 0 };
        Ok(Progress {
            known: KnownState::new(alloc, tables)?,
            to_server: none,
            to_client: none,
        })
    }

    /// Passes over a message at a place.
    #[inline(always)]
    pub(crate) fn advance(
        &mut self,
        place: u64,
        frame: &FramedMessage,
        changes: &MessageChanges,
        undo: &mut UndoList<A>,
    ) -> Result<(), AllocError>
        requires taken_to_server { self.old.known.taken_to_server + 2 ^ 64 < 2 ^ 128 }
        requires taken_to_client { self.old.known.taken_to_client + 2 ^ 64 < 2 ^ 128 }
        requires to_server { self.old.to_server.count + 1 < 2 ^ 64 }
        requires to_client { self.old.to_client.count + 1 < 2 ^ 64 }
        requires end { frame.now.start + frame.now.size < 2 ^ 64 }
        ensures known { OnOk result
            (IsKnownBehind place changes.now (known_in self.old.known) (known_in self.new.known)) }
        ensures to_server { OnOk result
            (self.new.to_server ≡ tally_after ToServer frame.now self.old.to_server) }
        ensures to_client { OnOk result
            (self.new.to_client ≡ tally_after ToClient frame.now self.old.to_client) }
        ensures few_to_server { OnOk result
            (self.new.known.taken_to_server < self.old.known.taken_to_server + 2 ^ 64) }
        ensures few_to_client { OnOk result
            (self.new.known.taken_to_client < self.old.known.taken_to_client + 2 ^ 64) }
        ensures undone { undone_by undo.new self.new.known.held
            ≡ undone_by undo.old self.old.known.held }
    {
        self.known.apply(place, changes, undo)?;
        self.to_server = tally_after(Direction::ToServer, frame, self.to_server);
        self.to_client = tally_after(Direction::ToClient, frame, self.to_client);
        Ok(())
    }
}

impl<A: Allocator> Progress<A> {
    /// The counts of a direction.
    pub(crate) fn tally(&self, direction: Direction) -> Tally
        ensures { result ≡ tally_in self.now direction }
    {
        match direction {
            Direction::ToServer => self.to_server,
            Direction::ToClient => self.to_client,
        }
    }

    /// The verdict if no message broke a rule, given the number of bytes of each direction.
    pub(crate) fn lawful(&self, len_to_server: usize, len_to_client: usize) -> Verdict
        requires to_server { self.now.to_server.end ≤ len_to_server }
        requires to_client { self.now.to_client.end ≤ len_to_client }
        ensures { result ≡ Lawful self.now.to_server.count self.now.to_client.count
            (len_to_server - self.now.to_server.end)
            (len_to_client - self.now.to_client.end) }
    {
        Verdict::Lawful {
            requests: self.to_server.count,
            events: self.to_client.count,
            left_to_server: len_to_server - self.to_server.end,
            left_to_client: len_to_client - self.to_client.end,
        }
    }

    /// The verdict if this message breaks a rule.
    pub(crate) fn broken(&self, frame: &FramedMessage, fault: Fault) -> Verdict
        requires { (tally_in self.now frame.now.direction).count + 1 < 2 ^ 64 }
        ensures { result ≡ Broken frame.now.direction
            ((tally_in self.now frame.now.direction).count + 1) frame.now.start fault }
    {
        Verdict::Broken {
            direction: frame.direction,
            index: self.tally(frame.direction).count + 1,
            offset: frame.start,
            fault,
        }
    }
}
