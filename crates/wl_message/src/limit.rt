//! How long a message may be.
ghost use Rattle.std.specs.Prelude.{◌≡◌, ◌↔◌, IsSome, IfSome, IsTrue};
ghost use Rattle.wl_message.specs.Cut.{IsLimit, IsMessage, is_size};

use wl_wire::{HEADER_LEN, Header, MAX_MESSAGE_LEN};

/// The greatest limit in bytes, a multiple of 4.
const GREATEST_LIMIT: u32 = 65_532;

/// The longest message in bytes, header included: a multiple of 4 from 4096 to 65,532.
///
/// Both ends must be given the same limit: it is not negotiated.
#[derive(Clone, Copy, Debug, PartialEq, Eq)]
pub struct Limit {
    pub bytes: u16,
    pub ghost in_range: { IsLimit bytes },
}

impl Limit {
    /// The default limit: 4096 bytes.
    pub const USUAL: Limit = Limit {
        bytes: MAX_MESSAGE_LEN,
    };

    /// The limit with this number of bytes; `None` if no limit has it.
    pub fn new(bytes: u32) -> Option<Limit>
        ensures some { IsSome result ↔ IsLimit bytes }
        ensures bytes { IfSome result (λ limit. limit.bytes ≡ bytes) }
    {
        if bytes < u32::from(MAX_MESSAGE_LEN) || bytes > GREATEST_LIMIT || bytes % 4 != 0 {
            return None;
        }
        Some(Limit {
            bytes: bytes as u16,
        })
    }

    /// Whether a message may have this size.
    pub fn allows(self, size: u16) -> bool
        ensures { result ≡ is_size self.bytes size }
    {
        usize::from(size) >= HEADER_LEN && size % 4 == 0 && size <= self.bytes
    }

    /// Whether these bytes are a whole message, which an outbox with this limit takes: their number
    /// is the size in their header, and a message may have that size.
    pub fn is_message(self, bytes: &[u8]) -> bool
        ensures { IsTrue result ↔ IsMessage self.bytes bytes.now }
    {
        if bytes.len() < HEADER_LEN {
            return false;
        }
        let size = Header::at_front_of(bytes).size;
        self.allows(size) && usize::from(size) == bytes.len()
    }
}
