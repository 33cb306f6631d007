//! Carrying from one end to the other.
ghost use Rattle.std.specs.Prelude.{◌≡◌, ◌≤◌, ◌<◌, ◌++◌, length, replicate, OnOk, OnErr};
ghost use Rattle.wl_message.specs.Outgoing.{goes};
ghost use Rattle.wl_connection.specs.Core.{feeds, with_gone, with_arrived};
ghost use Rattle.wl_recording.specs.Piece.{passed, last_len};
ghost use Rattle.wl_session.specs.Room.{filled};
ghost use Rattle.theory_connection.specs.Pair.{Does, CarryToServer, CarryToClient, carried_bytes};
ghost use Rattle.theory_connection.specs.Pair.{carried_tokens};
ghost use Rattle.wl_session.specs.Meaning.{carried_of};

use crate::moves::Carried;
use crate::pair::Pair;
use std::alloc::{AllocError, Allocator};
use wl_connection::End;
use wl_message::{Fed, Taken};
use wl_objects::Table;
use wl_recording::{Direction, Recording};

/// Makes room to record what will go: a piece with zeros in place of its bytes. It allocates
/// nothing if nothing goes.
fn prepare<A: Allocator + Clone>(
    recording: &mut Recording<A>,
    direction: Direction,
    going: Taken,
) -> Result<(), AllocError>
    requires few { going.tokens ≤ 65536 }
    requires together { going.bytes ≡ 0 → going.tokens ≡ 0 }
    ensures ok { OnOk result
        (recording.new ≡ recording.old ++ passed direction (replicate going.bytes 0) going.tokens) }
    ensures err { OnErr result (recording.new ≡ recording.old) }
    ensures some { OnErr result (0 < going.bytes) }
{
    if going.bytes == 0 {
        return Ok(());
    }
    recording.prepare(direction, going.bytes, going.tokens as u32)
}

/// Writes what went over the zeros of the last piece.
fn fill<A: Allocator + Clone>(recording: &mut Recording<A>, bytes: &[u8])
    requires { 0 < length bytes.now → length bytes.now ≡ last_len recording.old }
    ensures { recording.new ≡ filled recording.old bytes.now }
{
    if !bytes.is_empty() {
        recording.fill_last(bytes);
    }
}

/// Moves what waits at one end to the other, as much as these slices hold, and writes it into the
/// piece prepared for it.
fn hand_over<W: End, R: End, A: Allocator + Clone>(
    from: &mut W,
    to: &mut R,
    recording: &mut Recording<A>,
    bytes: &mut [u8],
    tokens: &mut [u32],
)
    requires fits { let taken = goes (W.core from.old).outbox (length bytes.old)
        (length tokens.old) in
        feeds (R.core to.old) (carried_bytes (W.core from.old) taken)
        (carried_tokens (W.core from.old) taken) ≡ taken }
    requires room { let taken = goes (W.core from.old).outbox (length bytes.old)
        (length tokens.old) in
        0 < taken.bytes → taken.bytes ≡ last_len recording.old }
    ensures from { let taken = goes (W.core from.old).outbox (length bytes.old)
        (length tokens.old) in
        from.new ≡ W.with_core from.old (with_gone (W.core from.old) taken.bytes) }
    ensures to { let taken = goes (W.core from.old).outbox (length bytes.old)
        (length tokens.old) in
        to.new ≡ R.with_core to.old
        (with_arrived (R.core to.old) (carried_bytes (W.core from.old) taken)
        (carried_tokens (W.core from.old) taken)) }
    ensures recording { let taken = goes (W.core from.old).outbox (length bytes.old)
        (length tokens.old) in
        recording.new ≡ filled recording.old (carried_bytes (W.core from.old) taken) }
{
    let taken = from.take(bytes, tokens);
    let bytes = &bytes[..taken.bytes];
    fill(recording, bytes);
    to.feed(bytes, &tokens[..taken.tokens]);
}

/// Moves what waits at one end to the other as `hand_over` does, through these buffers and within
/// this limit.
fn pass<W: End, R: End, A: Allocator + Clone>(
    from: &mut W,
    to: &mut R,
    recording: &mut Recording<A>,
    bytes: &mut Vec<u8, A>,
    tokens: &mut Vec<u32, A>,
    limit: Fed,
)
    requires places { (limit.bytes ≤ length bytes.old.items)
        × (limit.tokens ≤ length tokens.old.items) }
    requires fits { let taken = goes (W.core from.old).outbox limit.bytes limit.tokens in
        feeds (R.core to.old) (carried_bytes (W.core from.old) taken)
        (carried_tokens (W.core from.old) taken) ≡ taken }
    requires room { let taken = goes (W.core from.old).outbox limit.bytes limit.tokens in
        0 < taken.bytes → taken.bytes ≡ last_len recording.old }
    ensures from { let taken = goes (W.core from.old).outbox limit.bytes limit.tokens in
        from.new ≡ W.with_core from.old (with_gone (W.core from.old) taken.bytes) }
    ensures to { let taken = goes (W.core from.old).outbox limit.bytes limit.tokens in
        to.new ≡ R.with_core to.old
        (with_arrived (R.core to.old) (carried_bytes (W.core from.old) taken)
        (carried_tokens (W.core from.old) taken)) }
    ensures recording { let taken = goes (W.core from.old).outbox limit.bytes limit.tokens in
        recording.new ≡ filled recording.old (carried_bytes (W.core from.old) taken) }
    ensures as_many { length bytes.new.items ≡ length bytes.old.items }
    ensures as_many_tokens { length tokens.new.items ≡ length tokens.old.items }
{
    let bytes = &mut bytes[..limit.bytes];
    let tokens = &mut tokens[..limit.tokens];
    hand_over(from, to, recording, bytes, tokens);
}

impl<'t, T: Table> Pair<'t, T> {
    /// Carries what waits at the client to the server, at most `most` bytes, and records it. Room
    /// to record it is made before anything moves.
    pub(crate) fn carry_to_server(&mut self, most: usize) -> Carried
        ensures { Does self.old (CarryToServer most) (CarryToServer (carried_of result)) self.new }
    {
        let room = self.server.in_room();
        let limit = Fed {
            bytes: most.min(room.bytes),
            tokens: room.tokens,
        };
        let going = self.client.goes(limit.bytes, limit.tokens);
        if prepare(&mut self.recording, Direction::ToServer, going).is_err() {
            return Carried::Memory;
        }
        pass(
            &mut self.client,
            &mut self.server,
            &mut self.recording,
            &mut self.bytes,
            &mut self.tokens,
            limit,
        );
        Carried::Moved(going)
    }

    /// Carries what waits at the server to the client, at most `most` bytes, and records it. Room
    /// to record it is made before anything moves.
    pub(crate) fn carry_to_client(&mut self, most: usize) -> Carried
        ensures { Does self.old (CarryToClient most) (CarryToClient (carried_of result)) self.new }
    {
        let room = self.client.in_room();
        let limit = Fed {
            bytes: most.min(room.bytes),
            tokens: room.tokens,
        };
        let going = self.server.goes(limit.bytes, limit.tokens);
        if prepare(&mut self.recording, Direction::ToClient, going).is_err() {
            return Carried::Memory;
        }
        pass(
            &mut self.server,
            &mut self.client,
            &mut self.recording,
            &mut self.bytes,
            &mut self.tokens,
            limit,
        );
        Carried::Moved(going)
    }
}
