//! The header at the front of a ring.
ghost use Rattle.std.specs.Prelude.{◌≡◌, ◌<◌, ◌≤◌, length, take};
ghost use Rattle.wl_wire.specs.Word.{header_bytes};
ghost use Rattle.wl_message.specs.Cut.{told_size};
ghost use Rattle.wl_message.specs.Arrived.{IsCopy};

use crate::queue::copy_first;
use circular_buffer::HeapCircularBuffer;
use std::alloc::Allocator;
use wl_wire::{HEADER_LEN, Header};

/// The header at the front of a ring.
pub(crate) fn header_in<A: Allocator>(bytes: &HeapCircularBuffer<u8, A>) -> Header
    requires { 8 ≤ length bytes.now.items }
    ensures bytes { take 8 bytes.now.items ≡ header_bytes result }
    ensures size { result.size ≡ told_size bytes.now.items }
{
    let mut header = [0; HEADER_LEN];
    copy_first(bytes, &mut header);
    Header::at_front_of(&header)
}

/// Copies the first message, which is whole, to the front of the store, unless it is there already,
/// and returns its length.
#[tactic(auto, using(std::proofs::lemmas::List::take_at))]
#[inline(always)]
pub(crate) fn copy_message<A: Allocator>(
    bytes: &HeapCircularBuffer<u8, A>,
    store: &mut [u8],
    copied_len: usize,
) -> usize
    requires header { 8 ≤ told_size bytes.now.items }
    requires whole { told_size bytes.now.items ≤ length bytes.now.items }
    requires room { told_size bytes.now.items ≤ length store.old }
    requires copied { 0 < copied_len → IsCopy copied_len bytes.now.items store.old }
    ensures size { result ≡ told_size bytes.now.items }
    ensures header { 8 ≤ result }
    ensures there { result ≤ length store.new }
    ensures copy { take result store.new ≡ take result bytes.now.items }
    ensures room { length store.new ≡ length store.old }
{
    if copied_len > 0 {
        return copied_len;
    }
    let size = header_in(bytes).size as usize;
    copy_first(bytes, &mut store[..size]);
    size
}
