//! Numbers of bytes and tokens, and bytes and tokens that come together.

ghost use Rattle.std.specs.Prelude.{◌↔◌, IsTrue};
ghost use Rattle.wl_message.specs.Arrived.{AreSizes};

use crate::limit::Limit;
use std::error::Error;
use std::fmt::{self, Display, Formatter};

/// The most bytes that an inbox or an outbox can hold.
pub const MAX_BOX_BYTES: usize = 16_777_216;

/// The most tokens that an inbox or an outbox can hold.
pub const MAX_BOX_TOKENS: usize = 65_536;

/// The smallest token capacity of an inbox: the most tokens of one message.
const MIN_INBOX_TOKENS: usize = 20;

/// How large the queues of an end are, in bytes and in tokens, and how long its messages may be.
///
/// An outbox has at most 16,777,216 bytes and 65,536 tokens. An inbox has at least as many bytes as
/// the limit, at most 16,777,216, and 20 to 65,536 tokens. `is_allowed` tests this.
#[derive(Clone, Copy, Debug, PartialEq, Eq)]
pub struct Sizes {
    pub out_bytes: usize,
    pub out_tokens: usize,
    pub in_bytes: usize,
    pub in_tokens: usize,
    pub limit: Limit,
}

impl Sizes {
    /// Whether an end can have these sizes.
    pub fn is_allowed(&self) -> bool
        ensures { IsTrue result ↔ AreSizes self.now }
    {
        self.out_bytes <= MAX_BOX_BYTES
            && self.out_tokens <= MAX_BOX_TOKENS
            && usize::from(self.limit.bytes) <= self.in_bytes
            && self.in_bytes <= MAX_BOX_BYTES
            && MIN_INBOX_TOKENS <= self.in_tokens
            && self.in_tokens <= MAX_BOX_TOKENS
    }
}

/// A number of bytes and a number of tokens.
#[derive(Clone, Copy, Debug, PartialEq, Eq)]
pub struct Amounts {
    pub bytes: usize,
    pub tokens: usize,
}

/// How many bytes and tokens were taken in.
pub type Fed = Amounts;

/// How many bytes and tokens were taken out.
pub type Taken = Amounts;

/// The bytes or the tokens of a message do not fit.
#[derive(Clone, Copy, Debug, PartialEq, Eq)]
pub struct Full;

/// Bytes and tokens that came together.
#[derive(Clone, Copy, Debug)]
pub struct Piece<'a> {
    pub bytes: &'a [u8],
    pub tokens: &'a [u32],
}

/// What can be sent at one time, in whole or in part: bytes in two parts, one after the other, and
/// how many of the waiting tokens go with the first byte.
#[derive(Clone, Copy, Debug)]
pub struct Peek<'a> {
    pub front: &'a [u8],
    pub back: &'a [u8],
    pub tokens: usize,
}

impl Display for Full {
    ghost use Rattle.std.specs.Prelude.{Some, codes};

    ghost output = { λ _. Some (codes "outbox is full") };

    fn fmt<W: fmt::Write>(&self, f: &mut Formatter<W>) -> fmt::Result {
        f.write_str("outbox is full")
    }
}

impl Error for Full {}
