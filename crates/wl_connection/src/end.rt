//! An end of a connection, client or server.
ghost use Rattle.std.specs.Prelude.{◌≡◌, ◌≤◌, ◌⊎◌, ◌+◌, ◌++◌, [], true, Err, length, take, drop};
ghost use Rattle.std.specs.Prelude.{IfSome, min, slice_get};
ghost use Rattle.wl_message.specs.Outgoing.{goes, Peeks, waiting_bytes, waiting_tokens};
ghost use Rattle.wl_message.specs.Streams.{Flushes, bytes_written};
ghost use Rattle.wl_message.specs.declared.streams.FillError.TheVariants.{NoRoom};
ghost use Rattle.wl_sigs.specs.Rules.{has_server_objects};
ghost use Rattle.wl_object_map.specs.Ranges.{is_of_server};
ghost use Rattle.wl_connection.specs.Core.{Core as CoreState, display_object, live, in_room};
ghost use Rattle.wl_connection.specs.Core.{is_drained};
ghost use Rattle.wl_connection.specs.Core.{feeds, feeds_len, with_arrived, with_gone};
ghost use Rattle.wl_connection.specs.Reads.{IsCoreOf};
ghost use Rattle.wl_connection.specs.ServerRange.{IsRangeNewUnlessMade, NoEventEnds};
ghost use Rattle.wl_connection.specs.ServerRange.{NoEventEndsMade};
ghost use Rattle.wl_connection.specs.Transport.{EndFills, EndReceives};
ghost use Rattle.wl_connection.specs.Waiting.{waiting, waiting_count, given_up};

use crate::shared::Core;
use std::io::{Read, Write};
use wl_message::{Fed, FillError, FlushError, Peek, Taken};
use wl_object_map::DISPLAY_ID;
use wl_objects::{Object, Objects, Table};
use wl_wire::Iface;

/// A client or a server: the calls that both have.
pub trait End {
    /// The table that stores its objects.
    type Table: Table;

    ghost core: { Self → CoreState };

    ghost with_core: { Self → CoreState → Self };

    /// What it has in common with the other end.
    fn core(&self) -> &Core<'_, Self::Table>
        ensures core { result.now ≡ core self.now }
        ensures lasting { NoEventEndsMade (core self.now).tables (core self.now).view };

    /// Takes in what arrives: as many tokens as fit, and, if all of them fit, as many bytes as fit.
    /// A failed end takes nothing. Whatever waits, the inbox can hold the longest message.
    fn feed(&mut self, bytes: &[u8], tokens: &[u32]) -> Fed
        ensures fed { result ≡ feeds (core self.old) bytes.now tokens.now }
        ensures state { self.new
            ≡ with_core self.old (with_arrived (core self.old)
            (take result.bytes bytes.now) (take result.tokens tokens.now)) }
        ensures holds { (core self.old).inbox.limit.bytes ≤ (core self.old).inbox.capacity };

    /// Moves out what waits to be sent, as much as the slices hold. The tokens of a message go with
    /// its first byte.
    fn take(&mut self, bytes: &mut [u8], tokens: &mut [u32]) -> Taken
        ensures taken { result
            ≡ goes (core self.old).outbox (length bytes.old) (length tokens.old) }
        ensures bytes { bytes.new ≡ take result.bytes (waiting_bytes (core self.old).outbox)
            ++ drop result.bytes bytes.old }
        ensures tokens { tokens.new ≡ take result.tokens (waiting_tokens (core self.old).outbox)
            ++ drop result.tokens tokens.old }
        ensures state { self.new
            ≡ with_core self.old (with_gone (core self.old) result.bytes) };

    /// Takes in tokens, and the first `bytes` bytes written to `space`, as `feed` does. If the
    /// tokens do not all fit, no byte is taken in; what was written stays in `space` until this
    /// call takes it in. A failed end takes nothing.
    fn received(&mut self, bytes: usize, tokens: &[u32]) -> Fed
        ensures fed { result ≡ feeds_len (core self.old) bytes tokens.now }
        ensures state { EndReceives (core self.old) result.bytes (take result.tokens tokens.now)
            (core self.new) }
        ensures others { self.new ≡ with_core self.old (core self.new) };

    /// Removes what was sent by other means: the first `bytes` bytes, or all that wait if these are
    /// fewer, and the tokens that go with them. Returns how many of each. Works at a failed end
    /// too.
    fn sent(&mut self, bytes: usize) -> Taken
        ensures taken { result
            ≡ goes (core self.old).outbox bytes (length (waiting_tokens (core self.old).outbox)) }
        ensures bytes { result.bytes
            ≡ min bytes (length (waiting_bytes (core self.old).outbox)) }
        ensures state { self.new
            ≡ with_core self.old (with_gone (core self.old) result.bytes) };

    /// Reads once, at most 4096 bytes and at most as many as are free in the inbox, and appends
    /// what was read to the bytes that wait. Returns their number; 0 is the end of the input.
    ///
    /// If the read fails (also if it is interrupted), nothing is taken in, and the call can be made
    /// again. With `NoRoom` nothing is read. A failed end reads nothing and returns 0. Allocates
    /// nothing.
    fn fill<R: Read>(&mut self, reader: &mut R) -> Result<usize, FillError>
        ensures fills { EndFills (core self.old) (R.remaining reader.old) result (core self.new)
            (R.remaining reader.new) }
        ensures others { self.new ≡ with_core self.old (core self.new) }
        ensures unread { ((core self.old).failed ≡ true) ⊎ (result ≡ Err NoRoom)
            → reader.new ≡ reader.old };

    /// Writes the bytes that wait to be sent, and returns their number. What was written is removed
    /// from the outbox. Works at a failed end too.
    ///
    /// It sends no tokens: it stops with `NeedsTokens` before a message that is not begun and has
    /// tokens. It stops with `Io` if a write fails (also if it is interrupted) or takes no byte; it
    /// can then be called again. What was not written stays in the outbox. Allocates nothing.
    fn flush<W: Write>(&mut self, writer: &mut W) -> Result<usize, FlushError>
        ensures flushes { Flushes (core self.old).outbox (W.contents writer.old) result
            (core self.new).outbox (W.contents writer.new) }
        ensures others { self.new
            ≡ with_core self.old (with_gone (core self.old) (bytes_written result)) };

    /// Gives the end up, and takes out the tokens that wait in its queues, as many as the slice
    /// holds, so that no descriptor is lost when a connection ends.
    ///
    /// The inbox's tokens come first (those of a message at fault before the others), then the
    /// outbox's; there the tokens of a message go together. Call it until it returns 0, with a
    /// slice that holds the tokens of the longest message. Afterwards the end has failed, and what
    /// waited to be sent is dropped together with its tokens: first send what must still go, such
    /// as the error event of a failed server. Allocates nothing.
    fn take_waiting_tokens(&mut self, tokens: &mut [u32]) -> usize
        ensures count { result ≡ waiting_count (core self.old) (length tokens.old) }
        ensures tokens { tokens.new
            ≡ take result (waiting (core self.old)) ++ drop result tokens.old }
        ensures state { self.new
            ≡ with_core self.old (given_up (core self.old) (length tokens.old)) }
        ensures all { length (waiting (core self.old)) ≤ length tokens.old
            → (result ≡ length (waiting (core self.old))) × (waiting (core self.new) ≡ [])
            × (waiting_bytes (core self.new).outbox ≡ []) };

    ghost laws: { IsCoreOf core with_core };

    /// Whether the end has failed.
    final fn has_failed(&self) -> bool
        ensures { result ≡ (core self.now).failed }
    {
        self.core().failed
    }

    /// wl_display, id 1 and birth 0 at each end.
    final fn display(&self) -> Object
        ensures { result ≡ display_object }
    {
        Object {
            id: DISPLAY_ID,
            birth: 0,
        }
    }

    /// The interface and version of an object, if it is live. Works at a failed end too.
    final fn live(&self, object: Object) -> Option<(Iface, u32)>
        ensures answer { result ≡ live (core self.now) object }
        // No event destroys an object that the server made.
        ensures lasting { is_of_server object.id ≡ true
            → IfSome result (λ found. NoEventEnds (core self.now).tables found.0) }
    {
        self.core().live(object)
    }

    /// The objects, in both ranges of ids. They have a table of the server's range if and only if
    /// the signature tables have events by which the server makes objects. If not, that range stays
    /// as at a new end: none of its ids has an entry.
    final fn objects(&self) -> &Objects<Self::Table>
        ensures objects { result.now ≡ (core self.now).view }
        ensures range { (core self.now).view.has_server_range
            ≡ has_server_objects (core self.now).tables }
        ensures stays_new { IsRangeNewUnlessMade (core self.now).tables (core self.now).view }
        ensures lasting { NoEventEndsMade (core self.now).tables (core self.now).view }
    {
        self.core().objects()
    }

    /// The table of the client's range, with the objects that the client made.
    final fn table(&self) -> &Self::Table
        ensures { Self.Table.view result.now ≡ (core self.now).view.client }
    {
        self.core().objects.client()
    }

    /// The free bytes and tokens of the inbox; zero at a failed end.
    final fn in_room(&self) -> Fed
        ensures { result ≡ in_room (core self.now) }
    {
        let core = self.core();
        if core.failed {
            return Fed {
                bytes: 0,
                tokens: 0,
            };
        }
        Fed {
            bytes: core.inbox.room(),
            tokens: core.inbox.token_room(),
        }
    }

    /// Whether nothing waits in either queue.
    final fn is_drained(&self) -> bool
        ensures { result ≡ is_drained (core self.now) }
    {
        let core = self.core();
        core.inbox.is_empty() && core.outbox.is_empty()
    }

    /// How much `take` into slices of these lengths would take.
    final fn goes(&self, bytes: usize, tokens: usize) -> Taken
        ensures { result ≡ goes (core self.now).outbox bytes tokens }
    {
        self.core().outbox.goes(bytes, tokens)
    }

    /// The most bytes that can be sent at once, and how many of the waiting tokens go with them:
    /// all with the first byte, as in `take`, even if only some of the bytes are sent. `sent`
    /// removes what was sent. Works at a failed end too.
    final fn peek(&self) -> Peek<'_>
        ensures { Peeks (core self.now).outbox (result.front.now ++ result.back.now) result.tokens }
    {
        self.core().outbox.peek()
    }

    /// The token at this index, from 0, of those that wait to be sent.
    final fn token_to_go(&self, place: usize) -> Option<u32>
        ensures { result ≡ slice_get (waiting_tokens (core self.now).outbox) place }
    {
        self.core().outbox.token(place)
    }

    /// The free bytes of the inbox, in two parts, for a writer in another language: `received`
    /// takes in what it wrote, starting with the first part. Empty at a failed end.
    final fn space(&self) -> (&[u8], &[u8])
        ensures free { length result.0.now + length result.1.now ≡ (in_room (core self.now)).bytes }
        // Together they are all free bytes.
        ensures back { result.1.now ≡ [] }
    {
        let core = self.core();
        let (front, back) = core.inbox.space();
        if core.failed {
            return (&front[..0], &back[..0]);
        }
        (front, back)
    }
}
