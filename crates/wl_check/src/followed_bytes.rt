//! The bytes of a direction whose messages are followed.
ghost use Rattle.std.specs.Prelude.{◌≡◌, OnErr, OnOk};
ghost use Rattle.wl_check.specs.FollowedBytes.{no_bytes};
ghost use Rattle.wl_check.specs.Following.{bytes_behind, with_bytes};

use crate::frames::WaitingBytes;
use std::alloc::{AllocError, Allocator, Global};
use std::marker::Model;

/// The bytes of a direction, without those of messages that were passed over.
#[derive(Debug, Drop)]
pub(crate) struct FollowedStream<A: Allocator = Global> {
    bytes: WaitingBytes<A>,
    /// How many of the bytes belong to messages that were passed over. They are removed together.
    gone: usize,
    /// The number of the next message, from 1.
    index: usize,
    /// Where the last message that was passed over ends.
    end: usize,
    /// Whether it had a bad size, after which no message can be found.
    is_lost: bool,
}

impl<A: Allocator> Model for FollowedStream<A> {
    ghost use Rattle.std.specs.Prelude.{drop, length};
    ghost use Rattle.wl_check.specs.FollowedBytes.{FollowedBytes};

    ghost Value = { FollowedBytes };

    ghost view = { λ s. record {
      waiting = drop s.gone s.bytes;
      kept = length s.bytes;
      index = s.index;
      end = s.end;
      is_lost = s.is_lost;
    } };
}

impl<A: Allocator> FollowedStream<A> {
    /// Before the first byte.
    pub(crate) fn new(alloc: A) -> Self
        ensures { result ≡ no_bytes }
    {
        FollowedStream {
            bytes: WaitingBytes::new(alloc),
            gone: 0,
            index: 1,
            end: 0,
            is_lost: false,
        }
    }

    /// The bytes after the messages that were passed over.
    pub(crate) fn waiting(&self) -> &[u8]
        ensures { result.now ≡ self.now.waiting }
    {
        let bytes = self.bytes.as_slice();
        &bytes[self.gone.min(bytes.len())..]
    }

    /// The number of the next message, from 1.
    pub(crate) fn index(&self) -> usize
        ensures { result ≡ self.now.index }
    {
        self.index
    }

    /// Where the last message that was passed over ends.
    pub(crate) fn end(&self) -> usize
        ensures { result ≡ self.now.end }
    {
        self.end
    }

    /// Appends bytes to those that wait, unless no message can be found in them.
    pub(crate) fn append(&mut self, bytes: &[u8]) -> Result<(), AllocError>
        ensures ok { OnOk result (self.new ≡ with_bytes bytes.now self.old) }
        ensures err { OnErr result (self.new ≡ self.old) }
    {
        if self.is_lost {
            return Ok(());
        }
        let gone = self.gone.min(self.bytes.len());
        self.bytes.append(bytes)?;
        self.bytes.keep_from(gone);
        self.gone = 0;
        Ok(())
    }

    /// Passes over the next message, which has this size, or over all bytes if the size is bad.
    pub(crate) fn go_past(&mut self, size: u16, is_good: bool) -> Result<(), AllocError>
        ensures ok { OnOk result (self.new ≡ bytes_behind is_good size self.old) }
        ensures err { OnErr result (self.new ≡ self.old) }
    {
        // No memory can hold more than these numbers can count.
        let Some(index) = self.index.checked_add(1) else {
            return Err(AllocError);
        };
        let Some(end) = self.end.checked_add(size as usize) else {
            return Err(AllocError);
        };
        let Some(gone) = self.gone.checked_add(size as usize) else {
            return Err(AllocError);
        };
        self.index = index;
        self.end = end;
        self.is_lost = !is_good;
        if is_good {
            self.gone = gone;
        } else {
            self.gone = 0;
            self.bytes.remove_front(self.bytes.len());
        }
        Ok(())
    }
}
