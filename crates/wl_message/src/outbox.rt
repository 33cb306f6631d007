//! Messages that wait to go out.
ghost use Rattle.std.specs.Prelude.{◌≡◌, ◌≤◌, ◌<◌, ◌+◌, ◌↔◌, ◌⊎◌, ◌++◌, ℕ, false, [], length};
ghost use Rattle.std.specs.Prelude.{take, drop, min, slice_get, IfOk, OnOk, OnErr, IsErr};
ghost use Rattle.std.specs.Prelude.{IsTrue};
ghost use Rattle.wl_message.specs.Bounds.{max_error_len, max_queue_bytes, max_queue_tokens};
ghost use Rattle.wl_message.specs.Cut.{IsMessage};
ghost use Rattle.wl_message.specs.Outgoing.{no_messages, waiting_bytes, waiting_tokens};
ghost use Rattle.wl_message.specs.Outgoing.{ordinary_len, room_of, token_room_of, with_message};
ghost use Rattle.wl_message.specs.Outgoing.{with_error, MayGo, Goes, goes, Peeks, after_taking};
ghost use Rattle.wl_message.specs.Boundaries.{IsLeaving};
ghost use Rattle.wl_message.specs.Streams.{NextHasTokens};

use crate::amounts::{Full, Peek, Taken};
use crate::boundaries::{Boundaries, Boundary, Leaving};
use crate::limit::Limit;
use crate::queue::{copy_first, first_in_parts, first_part};
use circular_buffer::HeapCircularBuffer;
use std::alloc::{AllocError, Allocator, Global};
use std::marker::Model;
use wl_wire::{Encode, HEADER_LEN};

/// How many bytes are reserved for the error event.
const MAX_ERROR_LEN: usize = 148;

/// Messages that wait to go out, with their tokens.
///
/// `new` allocates all memory.
#[derive(Drop)]
pub struct Outbox<A: Allocator = Global> {
    // Its capacity includes room for the error event beyond the ordinary messages.
    bytes: HeapCircularBuffer<u8, A>,
    tokens: HeapCircularBuffer<u32, A>,
    // The boundaries of the messages that are not begun.
    boundaries: Boundaries<A>,
    // How many bytes are left of the message that was begun last.
    left: usize,
    // How many bytes of ordinary messages may wait.
    capacity: usize,
    limit: Limit,
    // Whether the error event was added, and its place among the bytes.
    has_error: bool,
    error_from: usize,
    error_to: usize,
}

impl<A: Allocator> Model for Outbox<A> {
    ghost use Rattle.std.specs.Prelude.{◌≡◌, ◌≤◌, ◌<◌, ◌+◌, ◌*◌};
    ghost use Rattle.wl_message.specs.Bounds.{max_error_len, max_queue_bytes, max_queue_tokens};
    ghost use Rattle.wl_message.specs.Outgoing.{Outgoing};

    ghost Value = { Outgoing };

    ghost use Rattle.wl_message.specs.Boundaries.{outgoing, AreStored};

    ghost view = { λ o. outgoing (record {
      bytes = o.bytes.items;
      tokens = o.tokens.items;
      boundaries = o.boundaries.items;
      left = o.left;
      capacity = o.capacity;
      token_capacity = o.tokens.capacity;
      limit = o.limit;
      has_error = o.has_error;
      error_from = o.error_from;
      error_to = o.error_to;
    }) };

    ghost invariant = { λ o. record {
      kept : AreStored (record {
        bytes = o.bytes.items;
        tokens = o.tokens.items;
        boundaries = o.boundaries.items;
        left = o.left;
        capacity = o.capacity;
        token_capacity = o.tokens.capacity;
        limit = o.limit;
        has_error = o.has_error;
        error_from = o.error_from;
        error_to = o.error_to;
      });
      small : o.capacity ≤ max_queue_bytes;
      few_tokens : o.tokens.capacity ≤ max_queue_tokens;
      reserved : o.bytes.capacity ≡ o.capacity + max_error_len;
      boundaries_reserved : o.bytes.capacity < 8 * (o.boundaries.capacity + 1);
    } };
}

impl<A: Allocator + Clone + Drop> Outbox<A> {
    /// An empty outbox with room for this many bytes and tokens, and for an error event beyond
    /// these, for messages within this limit.
    pub fn new(alloc: A, bytes: usize, tokens: usize, limit: Limit) -> Result<Outbox<A>, AllocError>
        requires bytes { bytes ≤ max_queue_bytes }
        requires tokens { tokens ≤ max_queue_tokens }
        ensures { IfOk result (λ o. o ≡ no_messages bytes tokens limit) }
    {
        let len = bytes + MAX_ERROR_LEN;
        Ok(Outbox {
            bytes: HeapCircularBuffer::with_capacity(alloc.clone()?, len)?,
            boundaries: Boundaries::with_capacity(alloc.clone()?, len / HEADER_LEN)?,
            tokens: HeapCircularBuffer::with_capacity(alloc, tokens)?,
            left: 0,
            capacity: bytes,
            limit,
            has_error: false,
            error_from: 0,
            error_to: 0,
        })
    }
}

impl<A: Allocator> Outbox<A> {
    /// How many bytes are free for ordinary messages. The bytes reserved for the error event, and
    /// those of the event itself, do not count.
    pub fn room(&self) -> usize
        ensures room { result ≡ room_of self.now }
        ensures within { result + ordinary_len self.now ≡ self.now.capacity }
    {
        let error = self.error_to - self.error_from;
        self.capacity - (self.bytes.len() - error)
    }

    /// How many bytes a message may have.
    pub fn limit(&self) -> Limit
        ensures { result ≡ self.now.limit }
    {
        self.limit
    }

    /// How many tokens are free. A message's tokens are gone once it is begun.
    pub fn token_room(&self) -> usize
        ensures room { result ≡ token_room_of self.now }
        ensures within { result + length (waiting_tokens self.now) ≡ self.now.token_capacity }
    {
        self.tokens.capacity() - self.tokens.len()
    }

    /// Whether no byte and no token waits.
    pub fn is_empty(&self) -> bool
        ensures waits { IsTrue result
            ↔ ((waiting_bytes self.now ≡ []) × (waiting_tokens self.now ≡ [])) }
        ensures messages { IsTrue result ↔ ((self.now.left ≡ []) × (self.now.messages ≡ [])) }
        ensures bytes { IsTrue result ↔ (waiting_bytes self.now ≡ []) }
    {
        self.bytes.is_empty()
    }

    /// Appends a whole message and its tokens, or returns `Full` if the bytes or the tokens do not
    /// fit.
    pub fn push(&mut self, message: &[u8], tokens: &[u32]) -> Result<(), Full>
        requires { IsMessage self.old.limit.bytes message.now }
        ensures ok { OnOk result (self.new ≡ with_message self.old message.now tokens.now) }
        ensures err { OnErr result (self.new ≡ self.old) }
        ensures full { IsErr result
            ↔ ((room_of self.old < length message.now)
            ⊎ (token_room_of self.old < length tokens.now)) }
    {
        if self.room() < message.len() || self.token_room() < tokens.len() {
            return Err(Full);
        }
        self.push_fitting(message, tokens);
        Ok(())
    }

    /// Appends a whole message and its tokens, which must fit.
    #[inline(always)]
    fn push_fitting(&mut self, message: &[u8], tokens: &[u32])
        requires whole { IsMessage self.old.limit.bytes message.now }
        requires bytes { length message.now ≤ room_of self.old }
        requires tokens { length tokens.now ≤ token_room_of self.old }
        ensures { self.new ≡ with_message self.old message.now tokens.now }
    {
        let boundary = Boundary {
            len: message.len(),
            tokens: tokens.len(),
        };
        self.boundaries.push(boundary);
        self.bytes.fill_from_slice(message);
        self.tokens.fill_from_slice(tokens);
    }

    /// As `push_fitting`, for a message that is first written to the front of `store`.
    #[inline(always)]
    pub fn push_encoded<E: Encode>(&mut self, message: &E, tokens: &[u32], store: &mut [u8])
        requires fits { E.fits message.now }
        requires whole { IsMessage self.old.limit.bytes (E.message message.now) }
        requires bytes { length (E.message message.now) ≤ room_of self.old }
        requires tokens { length tokens.now ≤ token_room_of self.old }
        requires store { length (E.message message.now) ≤ length store.old }
        ensures outbox { self.new ≡ with_message self.old (E.message message.now) tokens.now }
        ensures store { length store.new ≡ length store.old }
    {
        let len = message.encoded_len();
        message.encode(&mut store[..len]);
        self.push_fitting(&store[..len], tokens);
    }

    /// Appends the error event, a whole message of at most 148 bytes without tokens. It always
    /// fits. It is added at most once.
    pub fn push_error(&mut self, message: &[u8])
        requires short { length message.now ≤ max_error_len }
        requires whole { IsMessage self.old.limit.bytes message.now }
        requires first { self.old.has_error ≡ false }
        ensures { self.new ≡ with_error self.old message.now }
    {
        self.has_error = true;
        self.error_from = self.bytes.len();
        self.error_to = self.error_from + message.len();
        let boundary = Boundary {
            len: message.len(),
            tokens: 0,
        };
        self.boundaries.push(boundary);
        self.bytes.fill_from_slice(message);
    }

    /// As `push_error`, for an event that is first written to the front of `store`.
    pub fn push_encoded_error<E: Encode>(&mut self, message: &E, store: &mut [u8])
        requires fits { E.fits message.now }
        requires short { length (E.message message.now) ≤ max_error_len }
        requires whole { IsMessage self.old.limit.bytes (E.message message.now) }
        requires first { self.old.has_error ≡ false }
        requires store { length (E.message message.now) ≤ length store.old }
        ensures outbox { self.new ≡ with_error self.old (E.message message.now) }
        ensures store { length store.new ≡ length store.old }
    {
        let len = message.encoded_len();
        message.encode(&mut store[..len]);
        self.push_error(&store[..len]);
    }

    /// What goes into a room for this many bytes and tokens.
    fn leaving(&self, bytes: usize, tokens: usize) -> Leaving
        ensures longest { Goes self.now bytes tokens result.taken }
        ensures computed { result.taken ≡ goes self.now bytes tokens }
        ensures leaving { IsLeaving self.now result }
    {
        if self.bytes.len() <= bytes && self.tokens.len() <= tokens {
            return self.all_leaving();
        }
        self.some_leaving(bytes, tokens)
    }

    /// All that waits, without a look at each message.
    fn all_leaving(&self) -> Leaving
        ensures computed { (bytes tokens : ℕ) → length (waiting_bytes self.now) ≤ bytes
            → length (waiting_tokens self.now) ≤ tokens
            → result.taken ≡ goes self.now bytes tokens }
        ensures leaving { IsLeaving self.now result }
    {
        Leaving {
            taken: Taken {
                bytes: self.bytes.len(),
                tokens: self.tokens.len(),
            },
            begun: self.boundaries.len(),
            left: 0,
        }
    }

    /// As `leaving`, by how far the messages reach.
    fn some_leaving(&self, bytes: usize, tokens: usize) -> Leaving
        ensures longest { Goes self.now bytes tokens result.taken }
        ensures computed { result.taken ≡ goes self.now bytes tokens }
        ensures leaving { IsLeaving self.now result }
    {
        let first = bytes.min(self.left);
        let reach = self.boundaries.reach_into(bytes - first, tokens);
        Leaving {
            taken: Taken {
                bytes: bytes - reach.bytes,
                tokens: tokens - reach.tokens,
            },
            begun: reach.begun,
            left: self.left - first + reach.left,
        }
    }

    /// Removes what goes, and returns how much that is.
    fn remove(&mut self, leaving: Leaving) -> Taken
        requires { IsLeaving self.old leaving }
        ensures taken { result ≡ leaving.taken }
        ensures rest { self.new ≡ after_taking self.old leaving.taken.bytes }
    {
        let Leaving { taken, begun, left } = leaving;
        self.bytes.truncate_front(self.bytes.len() - taken.bytes);
        self.tokens.truncate_front(self.tokens.len() - taken.tokens);
        self.boundaries.remove_first(begun);
        self.left = left;
        self.error_from = self.error_from.saturating_sub(taken.bytes);
        self.error_to = self.error_to.saturating_sub(taken.bytes);
        taken
    }

    /// How much `take` moves into slices of these lengths.
    pub fn goes(&self, bytes: usize, tokens: usize) -> Taken
        ensures longest { Goes self.now bytes tokens result }
        ensures computed { result ≡ goes self.now bytes tokens }
    {
        self.leaving(bytes, tokens).taken
    }

    /// Moves bytes and tokens out, from the front of the messages, into the fronts of these slices,
    /// and returns how many of each.
    ///
    /// The tokens of a message go out with its first byte. `take` stops when the byte slice is
    /// full, or before a message not yet begun whose tokens do not all fit in the rest of the token
    /// slice.
    pub fn take(&mut self, bytes: &mut [u8], tokens: &mut [u32]) -> Taken
        ensures longest { Goes self.old (length bytes.old) (length tokens.old) result }
        ensures computed { result ≡ goes self.old (length bytes.old) (length tokens.old) }
        ensures bytes { bytes.new ≡ take result.bytes (waiting_bytes self.old)
            ++ drop result.bytes bytes.old }
        ensures tokens { tokens.new ≡ take result.tokens (waiting_tokens self.old)
            ++ drop result.tokens tokens.old }
        ensures rest { self.new ≡ after_taking self.old result.bytes }
    {
        let leaving = self.leaving(bytes.len(), tokens.len());
        copy_first(&self.bytes, &mut bytes[..leaving.taken.bytes]);
        copy_first(&self.tokens, &mut tokens[..leaving.taken.tokens]);
        self.remove(leaving)
    }

    /// Takes tokens out as `take` does if the byte slice has room for all that waits, and drops the
    /// bytes.
    pub fn take_tokens(&mut self, tokens: &mut [u32]) -> Taken
        ensures longest { Goes self.old (length (waiting_bytes self.old)) (length tokens.old)
            result }
        ensures computed { result
            ≡ goes self.old (length (waiting_bytes self.old)) (length tokens.old) }
        ensures tokens { tokens.new ≡ take result.tokens (waiting_tokens self.old)
            ++ drop result.tokens tokens.old }
        ensures rest { self.new ≡ after_taking self.old result.bytes }
        ensures all { length (waiting_tokens self.old) ≤ length tokens.old
            → (waiting_bytes self.new ≡ []) × (waiting_tokens self.new ≡ []) }
    {
        let leaving = self.leaving(self.bytes.len(), tokens.len());
        copy_first(&self.tokens, &mut tokens[..leaving.taken.tokens]);
        self.remove(leaving)
    }

    /// The most bytes that can be sent at once, and how many of the waiting tokens go with them:
    /// all with the first byte, as in `take`, even if only some of the bytes are sent.
    pub fn peek(&self) -> Peek<'_>
        ensures { Peeks self.now (result.front.now ++ result.back.now) result.tokens }
    {
        let tokens = self.goes(1, self.tokens.len()).tokens;
        let len = self.goes(self.bytes.len(), tokens).bytes;
        let (front, back) = first_in_parts(&self.bytes, len);
        Peek {
            front,
            back,
            tokens,
        }
    }

    /// The waiting token at this place, from 0.
    pub fn token(&self, place: usize) -> Option<u32>
        ensures { result ≡ slice_get (waiting_tokens self.now) place }
    {
        self.tokens.get(place).copied()
    }

    /// Removes what was sent by other means: the first `bytes` bytes, or all that wait if these are
    /// fewer, and the tokens that go with them. Returns how many of each.
    pub fn sent(&mut self, bytes: usize) -> Taken
        ensures longest { Goes self.old bytes (length (waiting_tokens self.old)) result }
        ensures computed { result ≡ goes self.old bytes (length (waiting_tokens self.old)) }
        ensures bytes { result.bytes ≡ min bytes (length (waiting_bytes self.old)) }
        ensures rest { self.new ≡ after_taking self.old result.bytes }
    {
        let leaving = self.leaving(bytes, self.tokens.len());
        self.remove(leaving)
    }

    /// How many of the first bytes can go without a token.
    pub(crate) fn tokenless_len(&self) -> usize
        ensures may { MayGo self.now result 0 result }
        ensures stops { (waiting_bytes (after_taking self.now result) ≡ [])
            ⊎ NextHasTokens (after_taking self.now result) }
    {
        self.goes(self.bytes.len(), 0).bytes
    }

    /// Some of the first bytes, at most `most`; empty only if none wait.
    pub(crate) fn part(&self, most: usize) -> &[u8]
        ensures front { result.now ≡ take (length result.now) (waiting_bytes self.now) }
        ensures most { length result.now ≤ most }
        ensures some { 0 < most → 0 < length (waiting_bytes self.now) → 0 < length result.now }
    {
        first_part(&self.bytes, most)
    }

    /// Removes the first n bytes, with which no token goes.
    pub(crate) fn skip(&mut self, n: usize)
        requires { MayGo self.old n 0 n }
        ensures { self.new ≡ after_taking self.old n }
    {
        let leaving = self.leaving(n, 0);
        self.remove(leaving);
    }
}
