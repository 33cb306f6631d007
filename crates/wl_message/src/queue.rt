//! Queues of bytes, tokens and boundaries: rings of the crate `circular_buffer`.
ghost use Rattle.std.specs.Prelude.{◌≡◌, ◌≤◌, ◌<◌, ◌+◌, ◌++◌, length, take, drop};
ghost use Rattle.std.specs.Prelude.{vec_len, vec_capacity};
ghost use Rattle.circular_buffer.specs.Buffer.{buffer};

use circular_buffer::HeapCircularBuffer;
use std::alloc::Allocator;

/// Some of the first items, at most `most`; empty only if there are none.
pub(crate) fn first_part<T, A: Allocator>(ring: &HeapCircularBuffer<T, A>, most: usize) -> &[T]
    ensures front { result.now ≡ take (length result.now) ring.now.items }
    ensures most { length result.now ≤ most }
    ensures some { 0 < most → 0 < length ring.now.items → 0 < length result.now }
{
    let (front, back) = ring.as_slices();
    if front.is_empty() {
        return &back[..back.len().min(most)];
    }
    &front[..front.len().min(most)]
}

/// The first n items, in two parts.
#[tactic(auto, using(crate::proofs::Fronts::front_in_first, crate::proofs::Fronts::front_past_first))]
pub(crate) fn first_in_parts<T, A: Allocator>(
    ring: &HeapCircularBuffer<T, A>,
    n: usize,
) -> (&[T], &[T])
    requires { n ≤ length ring.now.items }
    ensures { result.0.now ++ result.1.now ≡ take n ring.now.items }
{
    let (front, back) = ring.as_slices();
    if n <= front.len() {
        return (&front[..n], &back[..0]);
    }
    (front, &back[..n - front.len()])
}

/// Copies the first items, enough to fill the slice; at once if they are in one part of the ring.
/// They stay in the ring.
#[tactic(auto, using(crate::proofs::Fronts::front_of_first))]
pub(crate) fn copy_first<T: Copy, A: Allocator>(ring: &HeapCircularBuffer<T, A>, to: &mut [T])
    requires { length to.old ≤ length ring.now.items }
    ensures { to.new ≡ take (length to.old) ring.now.items }
{
    let n = to.len();
    let (front, _) = ring.as_slices();
    if n <= front.len() {
        to.copy_from_slice(&front[..n]);
        return;
    }
    copy_parts(ring, to);
}

/// The same if they are in two parts.
fn copy_parts<T: Copy, A: Allocator>(ring: &HeapCircularBuffer<T, A>, to: &mut [T])
    requires { length to.old ≤ length ring.now.items }
    ensures { to.new ≡ take (length to.old) ring.now.items }
{
    let (front, back) = first_in_parts(ring, to.len());
    to[..front.len()].copy_from_slice(front);
    to[front.len()..].copy_from_slice(back);
}

/// Copies the first n bytes to the front of a slice. They stay in the ring. Most messages are short
/// and in one part: these are copied without a call.
#[tactic(auto, using(std::proofs::lemmas::List::take_at, crate::proofs::Fronts::front_of_first))]
#[inline(always)]
pub(crate) fn copy_into<A: Allocator>(ring: &HeapCircularBuffer<u8, A>, to: &mut [u8], n: usize)
    requires ring { n ≤ length ring.now.items }
    requires to { n ≤ length to.old }
    ensures to { to.new ≡ take n ring.now.items ++ drop n to.old }
    ensures copy { take n to.new ≡ take n ring.now.items }
    ensures len { length to.new ≡ length to.old }
{
    let (front, _) = ring.as_slices();
    if n > front.len() || n < 8 || n > 32 {
        copy_apart(ring, &mut to[..n]);
    } else if n < 16 {
        copy_ends_of_8(&front[..n], &mut to[..n]);
    } else {
        copy_ends_of_16(&front[..n], &mut to[..n]);
    }
}

/// Copies 8 to 16 bytes: the first and the last 8.
#[tactic(auto, using(crate::proofs::Fronts::ends_joined))]
#[inline(always)]
fn copy_ends_of_8(from: &[u8], to: &mut [u8])
    requires same { length to.old ≡ length from.now }
    requires few { (8 ≤ length from.now) × (length from.now ≤ 16) }
    ensures { to.new ≡ from.now }
{
    let tail = from.len() - 8;
    let (mut first, mut last) = ([0; 8], [0; 8]);
    first.copy_from_slice(&from[..8]);
    last.copy_from_slice(&from[tail..]);
    to[..8].copy_from_slice(&first);
    to[tail..].copy_from_slice(&last);
}

/// Copies 16 to 32 bytes: the first and the last 16.
#[tactic(auto, using(crate::proofs::Fronts::ends_joined))]
#[inline(always)]
fn copy_ends_of_16(from: &[u8], to: &mut [u8])
    requires same { length to.old ≡ length from.now }
    requires few { (16 ≤ length from.now) × (length from.now ≤ 32) }
    ensures { to.new ≡ from.now }
{
    let tail = from.len() - 16;
    let (mut first, mut last) = ([0; 16], [0; 16]);
    first.copy_from_slice(&from[..16]);
    last.copy_from_slice(&from[tail..]);
    to[..16].copy_from_slice(&first);
    to[tail..].copy_from_slice(&last);
}

/// As `copy_first`; a call, so that what is short needs none.
#[inline(never)]
fn copy_apart<A: Allocator>(ring: &HeapCircularBuffer<u8, A>, to: &mut [u8])
    requires { length to.old ≤ length ring.now.items }
    ensures { to.new ≡ take (length to.old) ring.now.items }
{
    copy_first(ring, to);
}

/// Moves the first n items to the front of a slice.
pub(crate) fn move_first<T: Copy + Drop, A: Allocator>(
    ring: &mut HeapCircularBuffer<T, A>,
    to: &mut [T],
    n: usize,
)
    requires ring { n ≤ length ring.old.items }
    requires to { n ≤ length to.old }
    ensures ring { ring.new ≡ buffer (drop n ring.old.items) ring.old.capacity }
    ensures to { to.new ≡ take n ring.old.items ++ drop n to.old }
{
    if n > 0 {
        ring.read_into(&mut to[..n]);
    }
}

/// Moves the first n items into a store, replacing its contents.
pub(crate) fn move_front<T: Copy + Drop, A: Allocator>(
    ring: &mut HeapCircularBuffer<T, A>,
    to: &mut Vec<T, A>,
    n: usize,
)
    requires waiting { n ≤ length ring.old.items }
    requires room { ring.old.capacity ≤ vec_capacity to.old }
    ensures ring { ring.new ≡ buffer (drop n ring.old.items) ring.old.capacity }
    ensures items { to.new.items ≡ take n ring.old.items }
    ensures capacity { vec_capacity to.old ≤ vec_capacity to.new }
{
    let left = ring.len() - n;
    copy_front(ring, to, n);
    ring.truncate_front(left);
}

/// Copies the first n items into a store, replacing its contents. They stay in the ring.
#[tactic(auto, using(crate::proofs::Fronts::parts_len))]
fn copy_front<T: Copy + Drop, A: Allocator>(
    ring: &HeapCircularBuffer<T, A>,
    to: &mut Vec<T, A>,
    n: usize,
)
    requires waiting { n ≤ length ring.now.items }
    requires room { n ≤ vec_capacity to.old }
    ensures items { to.new.items ≡ take n ring.now.items }
    ensures capacity { vec_capacity to.old ≤ vec_capacity to.new }
{
    let (front, back) = first_in_parts(ring, n);
    to.clear();
    store(to, front);
    store(to, back);
}

/// Appends items to a store that has room for them.
fn store<T: Copy, A: Allocator>(to: &mut Vec<T, A>, items: &[T])
    requires { vec_len to.old + length items.now ≤ vec_capacity to.old }
    ensures items { to.new.items ≡ to.old.items ++ items.now }
    ensures len { vec_len to.new ≡ vec_len to.old + length items.now }
    ensures capacity { vec_capacity to.old ≤ vec_capacity to.new }
{
    let _ = to.extend_from_slice(items);
}
