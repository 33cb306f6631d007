//! The tokens of one message, seen as a list.
ghost use Rattle.std.specs.Prelude.{◌≡◌, ◌≤◌, length};
ghost use Rattle.wl_sigs.specs.Tables.{max_args};

use std::fmt::{self, Debug, Formatter};
use std::marker::Model;
use wl_connection::MAX_TOKENS;

/// Tokens of a message, in order. They need no memory.
#[derive(Drop)]
pub struct Tokens {
    items: [u32; MAX_TOKENS],
    count: usize,
}

impl Model for Tokens {
    ghost use Rattle.std.specs.Prelude.{◌≤◌, ℕ, List, take};
    ghost use Rattle.wl_sigs.specs.Tables.{max_args};

    ghost Value = { List ℕ };

    ghost view = { λ t. take t.count t.items };

    ghost invariant = { λ t. t.count ≤ max_args };
}

impl Tokens {
    /// A copy of tokens, at most as many as a message can have.
    pub(crate) fn copy_of(tokens: &[u32]) -> Self
        requires { length tokens.now ≤ max_args }
        ensures { result ≡ tokens.now }
    {
        let mut items = [0; MAX_TOKENS];
        let count = tokens.len();
        items[..count].copy_from_slice(tokens);
        Self { items, count }
    }

    /// The tokens, borrowed.
    pub fn as_slice(&self) -> &[u32]
        ensures tokens { result.now ≡ self.now }
        ensures few { length result.now ≤ max_args }
    {
        &self.items[..self.count]
    }
}

impl Debug for Tokens {
    fn fmt<W: fmt::Write>(&self, f: &mut Formatter<W>) -> fmt::Result {
        self.as_slice().fmt(f)
    }
}
