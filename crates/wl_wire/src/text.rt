//! The bytes of a string.
ghost use Rattle.std.specs.Prelude.{◌≡◌, ◌≤◌, ◌+◌, length, take, drop};
ghost use Rattle.wl_wire.specs.Spelling.{has_nul};

use memchr::memchr;
use std::simd::prelude::*;

/// How many bytes one load takes.
const LANES: usize = 64;

/// How many bytes are combined before they are tested.
const BLOCK: usize = 512;

/// Whether a byte of the text is 0. A string on the wire has no 0 before its ending NUL.
pub fn has_nul(text: &[u8]) -> bool
    ensures { result ≡ has_nul text.now }
{
    if text.len() < LANES {
        memchr(0, text).is_some()
    } else if text.len() < BLOCK {
        has_nul_by_lanes(text)
    } else {
        has_nul_by_blocks(text)
    }
}

/// The same for a text of at least 64 bytes. The last 64 are always tested together.
fn has_nul_by_lanes(text: &[u8]) -> bool
    requires { 64 ≤ length text.now }
    ensures { result ≡ has_nul text.now }
{
    let last = text.len() - LANES;
    let mut at = 0;
    'lanes: while at < last {
        if has_zero(load(text, at)) {
            return true;
        }
        at += LANES;
    }
    has_zero(load(text, last))
}

/// The same for a text of at least 512 bytes. The last 512 are always tested together.
fn has_nul_by_blocks(text: &[u8]) -> bool
    requires { 512 ≤ length text.now }
    ensures { result ≡ has_nul text.now }
{
    let last = text.len() - BLOCK;
    let mut at = 0;
    'blocks: while at < last {
        if has_zero(least_of_8(text, at)) {
            return true;
        }
        at += BLOCK;
    }
    has_zero(least_of_8(text, last))
}

/// The 64 bytes from `at`.
#[inline(always)]
fn load(text: &[u8], at: usize) -> u8x64
    requires { at + 64 ≤ length text.now }
    ensures { result ≡ take 64 (drop at text.now) }
{
    u8x64::from_slice(&text[at..])
}

/// The least bytes, lane by lane, of 2 loads from `at`.
#[inline(always)]
fn least_of_2(text: &[u8], at: usize) -> u8x64
    requires { at + 128 ≤ length text.now }
    ensures nul { has_nul result ≡ has_nul (take 128 (drop at text.now)) }
    ensures len { length result ≡ 64 }
{
    load(text, at).simd_min(load(text, at + LANES))
}

/// The least bytes, lane by lane, of 4 loads from `at`.
#[inline(always)]
fn least_of_4(text: &[u8], at: usize) -> u8x64
    requires { at + 256 ≤ length text.now }
    ensures nul { has_nul result ≡ has_nul (take 256 (drop at text.now)) }
    ensures len { length result ≡ 64 }
{
    least_of_2(text, at).simd_min(least_of_2(text, at + 2 * LANES))
}

/// The least bytes, lane by lane, of 8 loads from `at`.
#[inline(always)]
fn least_of_8(text: &[u8], at: usize) -> u8x64
    requires { at + 512 ≤ length text.now }
    ensures nul { has_nul result ≡ has_nul (take 512 (drop at text.now)) }
    ensures len { length result ≡ 64 }
{
    least_of_4(text, at).simd_min(least_of_4(text, at + 4 * LANES))
}

/// Whether a lane is 0.
#[inline(always)]
fn has_zero(lanes: u8x64) -> bool
    requires { length lanes ≡ 64 }
    ensures { result ≡ has_nul lanes }
{
    lanes.simd_eq(u8x64::splat(0)).any()
}
