//! Reading the lines of a recording.
ghost use Rattle.std.specs.Prelude.{◌≡◌, ◌≢◌, ℕ, List, ◌∷◌, ◌++◌, length, IfOk, OnErr};
ghost use Rattle.std.specs.Prelude.{IfSome, IfNone, MatchOption};
ghost use Rattle.wl_recording.specs.Piece.{AreAsBefore, IsAppended, Piece, own_bytes};
ghost use Rattle.wl_recording.specs.Piece.{recorded_piece};
ghost use Rattle.wl_recording.specs.declared.piece.Direction.{Direction as Way};
ghost use Rattle.wl_recording.specs.declared.piece.Direction.TheVariants.{ToServer, ToClient};
ghost use Rattle.wl_recording.specs.Line.{IsPiece, SpellsBytes, SpellsTokens, sign};

use crate::digits::append_bytes;
use crate::piece::{Appended, Direction, Passed};
use std::alloc::{AllocError, Allocator};
use wl_text::{decimal_number, split_before};
use wl_wire::Bytes;

/// The most tokens that one piece can count.
pub const MOST_TOKENS: u32 = 65_535;

/// The parts of a line.
#[derive(Clone, Copy)]
struct Parts<'a> {
    direction: Direction,
    /// The digits for the bytes.
    digits: &'a [u8],
    tokens: u32,
}

/// The piece that a line represents, if it represents one.
pub fn read_piece<A: Allocator>(alloc: A, line: &[u8]) -> Result<Option<Passed<A>>, AllocError>
    ensures { IfOk result (λ found. MatchOption found ((piece : Piece) → IsPiece line.now piece → ⊥)
        (λ kept. IsPiece line.now (recorded_piece kept))) }
{
    let Some(parts) = parts_of(line) else {
        return Ok(None);
    };
    let Some(bytes) = read_bytes(alloc, parts.digits)? else {
        return Ok(None);
    };
    Ok(Some(Passed {
        direction: parts.direction,
        bytes,
        tokens: parts.tokens,
    }))
}

/// Appends the bytes of a line's piece to those of its direction, if the line is a piece. If it is
/// not, nothing is appended or allocated; without memory, nothing is appended.
#[inline(always)]
pub fn append_piece<A: Allocator>(
    line: &[u8],
    to_server: &mut Vec<u8, A>,
    to_client: &mut Vec<u8, A>,
) -> Result<Option<Appended>, AllocError>
    ensures appended { IfOk result (λ found. MatchOption found
        ((piece : Piece) → IsPiece line.now piece → ⊥)
        (λ appended. (piece : Piece) × IsPiece line.now piece
        × IsAppended piece appended to_server.old.items to_server.new.items to_client.old.items
        to_client.new.items)) }
    ensures none { IfOk result (λ found. IfNone found
        (AreAsBefore to_server.old.items to_server.new.items to_client.old.items
        to_client.new.items)) }
    ensures err { OnErr result
        (AreAsBefore to_server.old.items to_server.new.items to_client.old.items
        to_client.new.items) }
    ensures memory { OnErr result ((piece : Piece) × IsPiece line.now piece) }
{
    let Some(parts) = parts_of(line) else {
        return Ok(None);
    };
    let Some(len) = append_parts(&parts, to_server, to_client)? else {
        return Ok(None);
    };
    Ok(Some(Appended {
        direction: parts.direction,
        len,
        tokens: parts.tokens,
    }))
}

// Appends the bytes of a line's parts to those of their direction, if the digits represent bytes,
// and returns their number; else, or without memory, it appends nothing.
fn append_parts<A: Allocator>(
    parts: &Parts<'_>,
    to_server: &mut Vec<u8, A>,
    to_client: &mut Vec<u8, A>,
) -> Result<Option<usize>, AllocError>
    ensures appended { IfOk result (λ found. MatchOption found
        ((more : List ℕ) → SpellsBytes parts.now.digits.now more → ⊥)
        (λ len. (more : List ℕ) × SpellsBytes parts.now.digits.now more × (length more ≡ len)
        × (to_server.new.items ≡ to_server.old.items ++ own_bytes ToServer parts.now.direction more)
        × (to_client.new.items
        ≡ to_client.old.items ++ own_bytes ToClient parts.now.direction more))) }
    ensures none { IfOk result (λ found. IfNone found
        (AreAsBefore to_server.old.items to_server.new.items to_client.old.items
        to_client.new.items)) }
    ensures err { OnErr result
        (AreAsBefore to_server.old.items to_server.new.items to_client.old.items
        to_client.new.items) }
    ensures memory { OnErr result
        ((more : List ℕ) × SpellsBytes parts.now.digits.now more) }
{
    match parts.direction {
        Direction::ToServer => append_digits(parts.digits, to_server),
        Direction::ToClient => append_digits(parts.digits, to_client),
    }
}

// The parts of a line, whatever its digits, unless it is no piece for another reason.
fn parts_of(line: &[u8]) -> Option<Parts<'_>>
    ensures parts { MatchOption result ((piece : Piece) → IsPiece line.now piece → ⊥)
        (λ parts. (bytes : List ℕ) → SpellsBytes parts.digits.now bytes
        → IsPiece line.now (record {
          direction = parts.direction;
          bytes = bytes;
          tokens = parts.tokens;
        })) }
    ensures only { IfSome result (λ parts. (piece : Piece) → IsPiece line.now piece
        → SpellsBytes parts.digits.now piece.bytes) }
{
    let (direction, rest) = strip_sign(line)?;
    let (digits, count) = split_before(rest, b' ');
    let tokens = read_tokens(count)?;
    Some(Parts {
        direction,
        digits,
        tokens,
    })
}

// The direction for the sign and space at the start of a line, and the rest of the line.
fn strip_sign(line: &[u8]) -> Option<(Direction, &[u8])>
    ensures { MatchOption result
        ((direction : Way) (rest : List ℕ) → line.now ≢ sign direction ∷ 32 ∷ rest)
        (λ found. line.now ≡ sign found.0 ∷ 32 ∷ found.1.now) }
{
    if let Some(rest) = line.strip_prefix(b"> ") {
        return Some((Direction::ToServer, rest));
    }
    let rest = line.strip_prefix(b"< ")?;
    Some((Direction::ToClient, rest))
}

// The number of tokens in the rest of a line.
fn read_tokens(count: &[u8]) -> Option<u32>
    ensures { MatchOption result ((tokens : ℕ) → SpellsTokens count.now tokens → ⊥)
        (λ tokens. SpellsTokens count.now tokens) }
{
    if count.is_empty() {
        return Some(0);
    }
    let digits = count.strip_prefix(b" +")?;
    if digits.len() > 5 {
        return None;
    }
    let tokens = decimal_number(digits)?;
    if tokens == 0 || tokens > MOST_TOKENS {
        return None;
    }
    Some(tokens)
}

// The bytes that these digits represent.
fn read_bytes<A: Allocator>(alloc: A, digits: &[u8]) -> Result<Option<Bytes<A>>, AllocError>
    ensures { IfOk result (λ found. MatchOption found
        ((bytes : List ℕ) → SpellsBytes digits.now bytes → ⊥)
        (λ bytes. SpellsBytes digits.now bytes)) }
{
    let mut bytes = Vec::new(alloc);
    let Some(_len) = append_digits(digits, &mut bytes)? else {
        return Ok(None);
    };
    Ok(Some(Bytes::from_vec(bytes)))
}

// Appends the bytes that these digits represent, if they represent any, and returns their number;
// else, or without memory, it appends nothing.
#[inline(always)]
fn append_digits<A: Allocator>(
    digits: &[u8],
    bytes: &mut Vec<u8, A>,
) -> Result<Option<usize>, AllocError>
    ensures appended { IfOk result (λ found. MatchOption found
        ((more : List ℕ) → SpellsBytes digits.now more → ⊥)
        (λ len. (more : List ℕ) × SpellsBytes digits.now more × (length more ≡ len)
        × (bytes.new.items ≡ bytes.old.items ++ more))) }
    ensures none { IfOk result (λ found. IfNone found (bytes.new.items ≡ bytes.old.items)) }
    ensures err { OnErr result (bytes.new.items ≡ bytes.old.items) }
    ensures memory { OnErr result ((more : List ℕ) × SpellsBytes digits.now more) }
{
    match digits {
        [] => Ok(None),
        [b'-'] => Ok(Some(0)),
        _ => {
            if append_bytes(digits, bytes)? {
                Ok(Some(digits.len() / 2))
            } else {
                Ok(None)
            }
        }
    }
}
