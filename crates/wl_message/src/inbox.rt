//! Bytes and tokens that were received.
ghost use Rattle.std.specs.Prelude.{◌≡◌, ◌≤◌, ◌<◌, ◌↔◌, ◌+◌, ◌++◌, [], length, take, drop, min};
ghost use Rattle.std.specs.Prelude.{slice_get, IfOk, OnErr, IsTrue};
ghost use Rattle.std.specs.Borrow.{sem};
ghost use Rattle.std.specs.Io.BufRead.{Rests};
ghost use Rattle.std.specs.Io.KnownBytes.{Keeps};
ghost use Rattle.wl_message.specs.Bounds.{max_queue_bytes, max_queue_tokens, min_inbox_tokens};
ghost use Rattle.wl_message.specs.Cut.{HasMessage, front, front_len, message_size};
ghost use Rattle.wl_message.specs.Arrived.{nothing_arrived, free_bytes, free_tokens, fed};
ghost use Rattle.wl_message.specs.Arrived.{fed_of_len, with_more, HasReceived, without_first};
ghost use Rattle.wl_message.specs.Arrived.{without_tokens, in_front, TellsFront};
ghost use Rattle.wl_message.specs.Streams.{TakesIn};
ghost use Rattle.wl_message.specs.contracts.inbox.Inbox.{the_row};

use crate::amounts::Fed;
use crate::header::{copy_message, header_in};
use crate::limit::Limit;
use crate::queue::{copy_into, move_first, move_front};
use circular_buffer::HeapCircularBuffer;
use std::alloc::{AllocError, Allocator, Global};
use std::error::Error;
use std::fmt::{self, Display, Formatter};
use std::io::{self, Read};
use std::marker::Model;
use std::mem;
use wl_wire::{HEADER_LEN, Header};

/// The most bytes that one read takes.
const MAX_READ_LEN: usize = 4096;

/// A whole message at the front of an inbox.
#[derive(Clone, Copy, Debug)]
pub struct Frame<'a> {
    pub header: Header,
    /// The bytes after the header.
    pub body: &'a [u8],
    /// How many tokens wait, for this message and later ones.
    pub tokens: usize,
}

/// A header with a size that no message may have: below 8, not a multiple of 4, or above the limit.
#[derive(Clone, Copy, Debug, PartialEq, Eq)]
pub struct BadSize {
    /// The size in the header, in bytes.
    pub size: u16,
}

impl Display for BadSize {
    ghost use Rattle.std.specs.Prelude.{Some, ◌++◌, codes};
    ghost use Rattle.std.specs.Fmt.{decimal};

    ghost output = { λ bad. Some (codes "bad message size " ++ decimal bad.size) };

    fn fmt<W: fmt::Write>(&self, f: &mut Formatter<W>) -> fmt::Result {
        let size = self.size;
        write!(f, "bad message size {size}")
    }
}

impl Error for BadSize {}

/// How many of these bytes are known to be of the first message.
#[tactic(auto, unfolding(crate::specs::Cut::front))]
fn front_len_of<A: Allocator>(bytes: &HeapCircularBuffer<u8, A>, limit: Limit) -> usize
    ensures len { result ≡ front_len (front limit.bytes bytes.now.items) }
    ensures there { result ≤ length bytes.now.items }
    ensures within { result ≤ limit.bytes }
{
    if bytes.len() < HEADER_LEN {
        return 0;
    }
    let header = header_in(bytes);
    if !limit.allows(header.size) {
        return HEADER_LEN;
    }
    let size = header.size as usize;
    if bytes.len() < size { 0 } else { size }
}

/// Received bytes and tokens that wait to be read as messages.
///
/// `new` allocates all memory.
#[derive(Drop)]
pub struct Inbox<A: Allocator = Global> {
    bytes: HeapCircularBuffer<u8, A>,
    tokens: HeapCircularBuffer<u32, A>,
    limit: Limit,
    // Lent by `space` as memory for another language to write to; `received` appends it. Nothing
    // else writes here.
    space: Vec<u8, A>,
    // Room for one whole message, which is lent from here because it may lie in two parts of the
    // ring.
    message: Vec<u8, A>,
    // The length of the first message if `message` begins with a copy of it, else 0.
    copied_len: usize,
    // The message that was taken out last, with its header, at the front, and its length and
    // tokens. Before the first message, a header alone.
    last: Vec<u8, A>,
    last_len: usize,
    last_tokens: Vec<u32, A>,
}

impl<A: Allocator> Model for Inbox<A> {
    ghost use Rattle.std.specs.Prelude.{◌<◌, ◌≤◌, length, take, drop, vec_capacity};
    ghost use Rattle.wl_message.specs.Arrived.{Arrived, IsCopy};

    ghost Value = { Arrived };

    ghost view = { λ i. record {
      bytes = i.bytes.items;
      tokens = i.tokens.items;
      capacity = i.bytes.capacity;
      token_capacity = i.tokens.capacity;
      limit = i.limit;
      last = drop 8 (take i.last_len i.last.items);
      last_tokens = i.last_tokens.items;
    } };

    ghost invariant = { λ i. record {
      space : i.bytes.capacity ≤ length i.space.items;
      room : i.limit.bytes ≤ length i.message.items;
      last_room : i.limit.bytes ≤ length i.last.items;
      last_low : 8 ≤ i.last_len;
      last_there : i.last_len ≤ length i.last.items;
      copied : 0 < i.copied_len → IsCopy i.copied_len i.bytes.items i.message.items;
      token_room : i.tokens.capacity ≤ vec_capacity i.last_tokens;
    } };
}

impl<A: Allocator + Clone + Drop> Inbox<A> {
    /// An empty inbox for this many bytes and tokens, and for messages within this limit.
    #[tactic(auto, using(crate::proofs::Fronts::header_alone))]
    pub fn new(alloc: A, bytes: usize, tokens: usize, limit: Limit) -> Result<Inbox<A>, AllocError>
        requires bytes { (limit.bytes ≤ bytes) × (bytes ≤ max_queue_bytes) }
        requires tokens { (min_inbox_tokens ≤ tokens) × (tokens ≤ max_queue_tokens) }
        ensures { IfOk result (λ i. i ≡ nothing_arrived bytes tokens limit) }
    {
        let len = limit.bytes as usize;
        Ok(Inbox {
            bytes: HeapCircularBuffer::with_capacity(alloc.clone()?, bytes)?,
            tokens: HeapCircularBuffer::with_capacity(alloc.clone()?, tokens)?,
            limit,
            space: Vec::from_elem(alloc.clone()?, 0, bytes)?,
            message: Vec::from_elem(alloc.clone()?, 0, len)?,
            copied_len: 0,
            last: Vec::from_elem(alloc.clone()?, 0, len)?,
            last_len: HEADER_LEN,
            last_tokens: Vec::with_capacity(alloc, tokens)?,
        })
    }
}

impl<A: Allocator> Inbox<A> {
    /// How many bytes are free.
    pub fn room(&self) -> usize
        ensures { result ≡ free_bytes self.now }
    {
        self.bytes.capacity() - self.bytes.len()
    }

    /// How many tokens are free.
    pub fn token_room(&self) -> usize
        ensures { result ≡ free_tokens self.now }
    {
        self.tokens.capacity() - self.tokens.len()
    }

    /// Whether no byte and no token waits.
    pub fn is_empty(&self) -> bool
        ensures { IsTrue result ↔ ((self.now.bytes ≡ []) × (self.now.tokens ≡ [])) }
    {
        self.bytes.is_empty() && self.tokens.is_empty()
    }

    /// Takes in as many of the tokens as fit, from the first on; if all of them fit, also as many
    /// of the bytes as fit. Returns how many of each.
    pub fn feed(&mut self, bytes: &[u8], tokens: &[u32]) -> Fed
        ensures amount { result ≡ fed self.old bytes.now tokens.now }
        ensures waits { self.new
            ≡ with_more self.old (take result.bytes bytes.now) (take result.tokens tokens.now) }
    {
        // Most bytes come without tokens.
        let token_count = if tokens.is_empty() {
            0
        } else {
            self.tokens.fill_from_slice(tokens)
        };
        let bytes = if token_count < tokens.len() {
            &bytes[..0]
        } else {
            bytes
        };
        self.copied_len = 0;
        let byte_count = self.bytes.fill_from_slice(bytes);
        Fed {
            bytes: byte_count,
            tokens: token_count,
        }
    }

    /// The free bytes, in two parts, for a writer in another language: `received` takes in what it
    /// wrote, starting with the first part.
    pub fn space(&self) -> (&[u8], &[u8])
        ensures free { length result.0.now + length result.1.now ≡ free_bytes self.now }
        // Together they are all free bytes.
        ensures back { result.1.now ≡ [] }
    {
        (&self.space[..self.room()], &self.space[..0])
    }

    /// Takes in tokens, and the first `bytes` bytes written to `space`, as `feed` does. Returns how
    /// many of each. If the tokens do not all fit, no byte is taken in; what was written stays in
    /// `space` until this call takes it in.
    pub fn received(&mut self, bytes: usize, tokens: &[u32]) -> Fed
        ensures amount { result ≡ fed_of_len self.old bytes tokens.now }
        ensures waits { HasReceived self.old result.bytes (take result.tokens tokens.now) self.new }
    {
        let token_count = self.tokens.fill_from_slice(tokens);
        let bytes = if token_count < tokens.len() { 0 } else { bytes };
        self.copied_len = 0;
        let byte_count = bytes.min(self.bytes.capacity() - self.bytes.len());
        self.bytes.fill_from_slice(&self.space[..byte_count]);
        Fed {
            bytes: byte_count,
            tokens: token_count,
        }
    }

    /// Reads once, at most 4096 bytes and at most as many as are free, and takes in what was read.
    #[tactic(auto, using(std::proofs::lemmas::List::take_all))]
    pub(crate) fn read_from<R: Read>(&mut self, reader: &mut R) -> io::Result<usize>
        requires { 0 < free_bytes self.old }
        ensures ok { IfOk result
            (λ n. TakesIn self.old (R.remaining reader.old) n self.new (R.remaining reader.new)) }
        ensures err { OnErr result
            ((self.new ≡ self.old) × Keeps (R.remaining reader.old) (R.remaining reader.new)) }
    {
        let most = self.room().min(MAX_READ_LEN);
        self.copied_len = 0;
        let mut read = [0; MAX_READ_LEN];
        let n = reader.read(&mut read[..most])?;
        self.bytes.fill_from_slice(&read[..n]);
        Ok(n)
    }

    /// The first message if it is whole. It stays in the inbox.
    ///
    /// Returns `BadSize` as soon as the 8 bytes of the header are there.
    #[tactic(auto, using(crate::proofs::Judged::judged), unfolding(crate::specs::Cut::front))]
    #[inline(always)]
    pub fn frame(&mut self) -> Result<Option<Frame<'_>>, BadSize>
        ensures* stays { sem 𝓛 (Rests (the_row A.row A.Allocator) self.entry (λ i. i ≡ self.old)) }
        ensures tells { TellsFront self.old result }
    {
        let tokens = self.tokens.len();
        self.copied_len = 0;
        if self.bytes.len() < HEADER_LEN {
            return Ok(None);
        }
        let header = header_in(&self.bytes);
        if !self.limit.allows(header.size) {
            return Err(BadSize { size: header.size });
        }
        let size = header.size as usize;
        if self.bytes.len() < size {
            return Ok(None);
        }
        copy_into(&self.bytes, &mut self.message, size);
        self.copied_len = size;
        Ok(Some(Frame {
            header,
            body: &self.message[..size][HEADER_LEN..],
            tokens,
        }))
    }

    /// The body of the first message, which must be whole. It stays in the inbox. After `frame` it
    /// is not copied again.
    #[tactic(auto, using(crate::proofs::Fronts::has_message))]
    pub fn body(&mut self) -> &[u8]
        requires { HasMessage (in_front self.old) }
        ensures* stays { sem 𝓛 (Rests (the_row A.row A.Allocator) self.entry (λ i. i ≡ self.old)) }
        ensures body { result.now
            ≡ drop 8 (take (message_size (in_front self.old)) self.old.bytes) }
    {
        let size = copy_message(&self.bytes, &mut self.message, self.copied_len);
        self.copied_len = size;
        &self.message[..size][HEADER_LEN..]
    }

    /// The bytes of the first message, header included: all if it is whole, and the header alone if
    /// that has a bad size; else none. They stay in the inbox.
    pub fn front(&mut self) -> &[u8]
        ensures* stays { sem 𝓛 (Rests (the_row A.row A.Allocator) self.entry (λ i. i ≡ self.old)) }
        ensures front { result.now ≡ take (front_len (in_front self.old)) self.old.bytes }
    {
        let len = front_len_of(&self.bytes, self.limit);
        copy_into(&self.bytes, &mut self.message, len);
        self.copied_len = 0;
        &self.message[..len]
    }

    /// The waiting token at this place, from 0.
    pub fn token(&self, place: usize) -> Option<u32>
        ensures { result ≡ slice_get self.now.tokens place }
    {
        self.tokens.get(place).copied()
    }

    /// Takes out the first message and enough of the first tokens to fill the slice, in order.
    /// `last_with_tokens` lends them until the next message is taken out.
    pub fn pop(&mut self, tokens: &mut [u32])
        requires message { HasMessage (in_front self.old) }
        requires tokens { length tokens.old ≤ length self.old.tokens }
        ensures tokens { tokens.new ≡ take (length tokens.old) self.old.tokens }
        ensures rest { self.new
            ≡ without_first self.old (message_size (in_front self.old))
            (length tokens.old) }
    {
        self.pass(tokens.len());
        tokens.copy_from_slice(&self.last_tokens);
    }

    /// Takes out the first message and this many of the first tokens, as `pop` does;
    /// `last_with_tokens` lends them.
    #[tactic(auto, using(crate::proofs::Fronts::has_message))]
    #[inline(always)]
    pub fn pass(&mut self, tokens: usize)
        requires message { HasMessage (in_front self.old) }
        requires tokens { tokens ≤ length self.old.tokens }
        ensures { self.new
            ≡ without_first self.old (message_size (in_front self.old)) tokens }
    {
        let size = copy_message(&self.bytes, &mut self.message, self.copied_len);
        self.copied_len = 0;
        self.last_tokens.clear();
        if tokens > 0 {
            move_front(&mut self.tokens, &mut self.last_tokens, tokens);
        }
        self.bytes.truncate_front(self.bytes.len() - size);
        self.last_len = size;
        mem::swap(&mut self.message, &mut self.last);
    }

    /// Takes out the first waiting tokens, as many as the slice holds. The messages stay.
    pub fn take_tokens(&mut self, tokens: &mut [u32]) -> usize
        ensures count { result ≡ min (length tokens.old) (length self.old.tokens) }
        ensures tokens { tokens.new ≡ take result self.old.tokens ++ drop result tokens.old }
        ensures rest { self.new ≡ without_tokens self.old result }
    {
        let count = tokens.len().min(self.tokens.len());
        move_first(&mut self.tokens, tokens, count);
        count
    }

    /// The body of the message that was taken out last; empty before the first.
    pub fn last(&self) -> &[u8]
        ensures { result.now ≡ self.now.last }
    {
        &self.last[..self.last_len][HEADER_LEN..]
    }

    /// The body and the tokens of the message that was taken out last; both empty before the first.
    pub fn last_with_tokens(&self) -> (&[u8], &[u32])
        ensures body { result.0.now ≡ self.now.last }
        ensures tokens { result.1.now ≡ self.now.last_tokens }
    {
        (self.last(), &self.last_tokens)
    }
}
