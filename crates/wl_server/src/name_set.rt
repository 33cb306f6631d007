//! Sets of the names of globals.
ghost use Rattle.std.specs.Prelude.{◌≡◌, ◌≤◌, ◌<◌, ◌+◌, ◌*◌, ◌/◌, ◌%◌, ◌==◌, ℕ, true, false};
ghost use Rattle.std.specs.Prelude.{replicate};
ghost use Rattle.std.specs.Int.{bit_at};
ghost use Rattle.wl_server.specs.State.{has_name, most_globals, with_name};

use std::marker::Model;

/// How many names a word has a bit for.
pub(crate) const WORD_LEN: usize = 64;

/// How many words have a bit for each of the 4,096 names.
const WORD_COUNT: usize = 64;

/// The most globals that any server adds in its lifetime.
pub const MOST_GLOBALS: usize = 4096;

/// A set of names from 1 to 4,096, with one bit for each. The bit of a name is at place `name - 1`.
#[derive(Debug, Drop)]
pub(crate) struct NameSet {
    words: [u64; WORD_COUNT],
}

impl Model for NameSet {
    ghost use Rattle.std.specs.Prelude.{List, Bool};
    ghost use Rattle.wl_server.specs.Bits.{bits};
    ghost use Rattle.wl_server.specs.State.{most_globals};

    ghost Value = { List Bool };

    ghost view = { λ m. bits most_globals 0 m.words };
}

impl NameSet {
    /// The empty set.
    pub(crate) fn new() -> NameSet
        ensures { result ≡ replicate most_globals false }
    {
        NameSet {
            words: [0; WORD_COUNT],
        }
    }

    /// Whether the set has a name.
    pub(crate) fn has(&self, name: u32) -> bool
        requires { (0 < name) × (name ≤ most_globals) }
        ensures { result ≡ has_name self.now name }
    {
        let place = name as usize - 1;
        self.words[place / WORD_LEN] >> (place % WORD_LEN) & 1 == 1
    }

    /// Adds a name.
    pub(crate) fn set(&mut self, name: u32)
        requires { (0 < name) × (name ≤ most_globals) }
        ensures set { self.new ≡ with_name self.old name }
        ensures marked { has_name self.new name ≡ true }
    {
        let place = name as usize - 1;
        self.words[place / WORD_LEN] |= 1 << (place % WORD_LEN);
    }

    /// The bits of the names `64 * word + 1` to `64 * word + 64`, the lowest name in bit 0.
    pub(crate) fn word(&self, word: usize) -> u64
        requires { word < 64 }
        ensures { (k : ℕ) → k < 64
            → (bit_at result k == 1) ≡ has_name self.now (64 * word + k + 1) }
    {
        self.words[word]
    }
}

/// The next set bit after `place` in its word; if none is set, the first place of the next word.
pub(crate) fn next_in(word: u64, place: usize) -> usize
    requires { place < most_globals }
    ensures behind { place < result }
    ensures within { result ≤ 64 * (place / 64) + 64 }
    ensures none { (k : ℕ) → place % 64 < k → 64 * (place / 64) + k < result
        → bit_at word k ≡ 0 }
{
    let passed = u64::MAX >> (WORD_LEN - 1 - place % WORD_LEN);
    let behind = word & !passed;
    place / WORD_LEN * WORD_LEN + behind.trailing_zeros() as usize
}
