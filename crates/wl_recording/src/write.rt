//! Writing the lines of a recording.
ghost use Rattle.std.specs.Prelude.{◌≡◌, [], ◌∷◌, ◌++◌, OnOk};
ghost use Rattle.wl_recording.specs.Piece.{recorded_piece};
ghost use Rattle.wl_recording.specs.Line.{bytes_text, tokens_text, line_of, sign};

use crate::piece::{Direction, Passed};
use std::alloc::{AllocError, Allocator};

/// Appends a piece's line and its line feed.
pub fn write_piece<A: Allocator + Clone>(
    text: &mut Vec<u8, A>,
    piece: &Passed<A>,
) -> Result<(), AllocError>
    ensures { OnOk result (text.new.items ≡ text.old.items
        ++ (line_of (recorded_piece piece.now) ++ 10 ∷ [])) }
{
    text.push(sign_of(piece.direction))?;
    text.push(b' ')?;
    write_bytes(text, piece.bytes.as_slice())?;
    write_tokens(text, piece.tokens)?;
    text.push(b'\n')?;
    Ok(())
}

// The sign of a direction.
fn sign_of(direction: Direction) -> u8
    ensures { result ≡ sign direction }
{
    match direction {
        Direction::ToServer => b'>',
        Direction::ToClient => b'<',
    }
}

// Appends the digits of a piece's bytes.
fn write_bytes<A: Allocator + Clone>(text: &mut Vec<u8, A>, bytes: &[u8]) -> Result<(), AllocError>
    ensures { OnOk result (text.new.items ≡ text.old.items ++ bytes_text bytes.now) }
{
    if bytes.is_empty() {
        text.push(b'-')?;
        return Ok(());
    }
    let digits = hex::encode(text.allocator().clone()?, bytes)?;
    text.extend_from_slice(digits.as_bytes())
}

// Appends the count of a piece's tokens, if there are any.
fn write_tokens<A: Allocator + Clone>(text: &mut Vec<u8, A>, tokens: u32) -> Result<(), AllocError>
    ensures { OnOk result (text.new.items ≡ text.old.items ++ tokens_text tokens) }
{
    if tokens == 0 {
        return Ok(());
    }
    text.extend_from_slice(b" +")?;
    let count = tokens.to_string(text.allocator().clone()?)?;
    text.extend_from_slice(count.as_bytes())
}
