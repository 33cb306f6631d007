//! Boundaries that separate bytes and tokens into messages.
ghost use Rattle.std.specs.Prelude.{◌≡◌, ◌≤◌, ◌<◌, ◌%◌, ◌^◌, [], ◌∷◌, ◌++◌, length, drop, map};
ghost use Rattle.std.specs.Prelude.{IfOk};
ghost use Rattle.circular_buffer.specs.Buffer.{buffer};
ghost use Rattle.wl_message.specs.Bounds.{max_queue_tokens};
ghost use Rattle.wl_message.specs.Boundaries.{reach};

use crate::amounts::Taken;
use circular_buffer::HeapCircularBuffer;
use std::alloc::{AllocError, Allocator};
use std::marker::Model;

/// A boundary is one word: `len / 4 * TOKENS_END + tokens`.
const TOKENS_END: u32 = 131_072;

/// A message's boundary: how many bytes and tokens it has.
#[derive(Clone, Copy, Debug)]
pub(crate) struct Boundary {
    pub len: usize,
    pub tokens: usize,
}

/// How far messages reach into a room for bytes and tokens.
#[derive(Clone, Copy, Debug)]
pub(crate) struct Reach {
    /// How much of the room is left, in bytes and in tokens.
    pub bytes: usize,
    pub tokens: usize,
    /// How many messages began.
    pub begun: usize,
    /// How many bytes are left of the last one that began.
    pub left: usize,
}

/// What leaves an outbox, and how it changes the messages.
#[derive(Clone, Copy, Debug)]
pub(crate) struct Leaving {
    pub taken: Taken,
    /// How many messages it begins.
    pub begun: usize,
    /// How many bytes are then left of the message begun last.
    pub left: usize,
}

/// Boundaries in a ring, four bytes each.
#[derive(Drop)]
pub(crate) struct Boundaries<A: Allocator> {
    words: HeapCircularBuffer<u32, A>,
}

impl<A: Allocator> Model for Boundaries<A> {
    ghost use Rattle.std.specs.Prelude.{map};
    ghost use Rattle.circular_buffer.specs.Buffer.{Buffer, buffer};
    ghost use Rattle.wl_message.specs.declared.boundaries.Boundary.{Boundary};
    ghost use Rattle.wl_message.specs.Boundaries.{boundary_in_word};

    ghost Value = { Buffer Boundary };

    ghost view = { λ m. buffer (map boundary_in_word m.words.items) m.words.capacity };
}

impl<A: Allocator + Drop> Boundaries<A> {
    /// No boundaries, with room for `capacity` of them.
    pub fn with_capacity(alloc: A, capacity: usize) -> Result<Boundaries<A>, AllocError>
        ensures { IfOk result (λ boundaries. boundaries ≡ buffer [] capacity) }
    {
        Ok(Boundaries {
            words: HeapCircularBuffer::with_capacity(alloc, capacity)?,
        })
    }
}

impl<A: Allocator> Boundaries<A> {
    /// How many boundaries there are.
    pub fn len(&self) -> usize
        ensures { result ≡ length self.now.items }
    {
        self.words.len()
    }

    /// Appends the boundary of a message, for which there is room.
    pub fn push(&mut self, boundary: Boundary)
        requires room { length self.old.items < self.old.capacity }
        requires len { boundary.len < 65536 }
        requires words { boundary.len % 4 ≡ 0 }
        requires tokens { boundary.tokens ≤ max_queue_tokens }
        ensures { self.new ≡ buffer (self.old.items ++ boundary ∷ []) self.old.capacity }
    {
        let word = (boundary.len / 4) as u32 * TOKENS_END + boundary.tokens as u32;
        let _ = self.words.try_push_back(word);
    }

    /// Removes the first n boundaries.
    pub fn remove_first(&mut self, n: usize)
        requires { n ≤ length self.old.items }
        ensures { self.new ≡ buffer (drop n self.old.items) self.old.capacity }
    {
        self.words.truncate_front(self.words.len() - n);
    }

    /// How far the messages, none of them begun, reach into a room. The tokens of a message go with
    /// its first byte.
    pub fn reach_into(&self, bytes: usize, tokens: usize) -> Reach
        requires { length self.now.items < 2 ^ 63 }
        ensures { result ≡ reach bytes tokens 0 self.now.items }
    {
        let mut reach = Reach {
            bytes,
            tokens,
            begun: 0,
            left: 0,
        };
        'messages: for word in self.words.iter() {
            let len = 4 * (word / TOKENS_END) as usize;
            let tokens = (word % TOKENS_END) as usize;
            if reach.bytes == 0 {
                return reach;
            }
            if reach.tokens < tokens {
                return reach;
            }
            let begun = reach.begun + 1;
            let tokens = reach.tokens - tokens;
            if reach.bytes < len {
                return Reach {
                    bytes: 0,
                    tokens,
                    begun,
                    left: len - reach.bytes,
                };
            }
            reach = Reach {
                bytes: reach.bytes - len,
                tokens,
                begun,
                left: 0,
            };
        }
        reach
    }
}
