//! What is exchanged between two ends.
ghost use Rattle.std.specs.Prelude.{◌≡◌, ◌++◌, OnOk, OnErr, IfOk};
ghost use Rattle.wl_recording.specs.declared.piece.Direction.TheVariants.{ToServer, ToClient};
ghost use Rattle.wl_recording.specs.Piece.{AreAsBefore, IsAppended, own_bytes, recorded_piece};

use std::alloc::{AllocError, Allocator, Global};
use wl_wire::Bytes;

/// The direction of a piece.
#[derive(Clone, Copy, Debug, PartialEq, Eq)]
pub enum Direction {
    /// From the client to the server. Its sign in a text is `>`.
    ToServer,
    /// From the server to the client. Its sign in a text is `<`.
    ToClient,
}

/// One piece of a recording.
#[derive(Debug, Drop)]
pub struct Passed<A: Allocator = Global> {
    /// Its direction.
    pub direction: Direction,
    /// Its bytes: any part of that direction's stream, split anywhere.
    pub bytes: Bytes<A>,
    /// How many tokens came with it, one for each file descriptor.
    pub tokens: u32,
}

/// A piece whose bytes were appended to those of its direction.
#[derive(Clone, Copy, Debug)]
pub struct Appended {
    /// Its direction.
    pub direction: Direction,
    /// How many bytes it has.
    pub len: usize,
    /// How many tokens came with it.
    pub tokens: u32,
}

impl<A: Allocator> Passed<A> {
    /// Appends its bytes to those of its direction. Without memory it appends nothing.
    pub fn append_to(
        &self,
        to_server: &mut Vec<u8, A>,
        to_client: &mut Vec<u8, A>,
    ) -> Result<Appended, AllocError>
        ensures appended { IfOk result (λ appended. IsAppended (recorded_piece self.now) appended
            to_server.old.items to_server.new.items to_client.old.items to_client.new.items) }
        ensures err { OnErr result
            (AreAsBefore to_server.old.items to_server.new.items to_client.old.items
            to_client.new.items) }
    {
        let bytes = self.bytes.as_slice();
        extend_own(self.direction, bytes, to_server, to_client)?;
        Ok(Appended {
            direction: self.direction,
            len: bytes.len(),
            tokens: self.tokens,
        })
    }
}

// Appends bytes to those of their direction.
fn extend_own<A: Allocator>(
    direction: Direction,
    bytes: &[u8],
    to_server: &mut Vec<u8, A>,
    to_client: &mut Vec<u8, A>,
) -> Result<(), AllocError>
    ensures to_server { OnOk result
        (to_server.new.items ≡ to_server.old.items ++ own_bytes ToServer direction bytes.now) }
    ensures to_client { OnOk result
        (to_client.new.items ≡ to_client.old.items ++ own_bytes ToClient direction bytes.now) }
    ensures err { OnErr result
        (AreAsBefore to_server.old.items to_server.new.items to_client.old.items
        to_client.new.items) }
{
    match direction {
        Direction::ToServer => to_server.extend_from_slice(bytes),
        Direction::ToClient => to_client.extend_from_slice(bytes),
    }
}
