//! Hexadecimal digits, two for each byte.
ghost use Rattle.std.specs.Prelude.{◌≡◌, ℕ, List, ◌++◌, Ok, IsTrue, IsFalse, IfOk, OnErr};
ghost use Rattle.std.specs.List.{list_all};
ghost use Rattle.hex.specs.Hex.{decode_of, is_hex_digit};

use std::alloc::{AllocError, Allocator};

/// Appends the bytes that these digits represent, two digits of either case for each, and returns
/// true. If a byte is no digit or their number is odd, it appends nothing, allocates nothing and
/// returns false. Without memory it appends nothing.
pub fn append_bytes<A: Allocator>(digits: &[u8], bytes: &mut Vec<u8, A>) -> Result<bool, AllocError>
    ensures read { IfOk result (λ are_digits. IsTrue are_digits
        → (more : List ℕ) × (bytes.new.items ≡ bytes.old.items ++ more)
        × (decode_of digits.now ≡ Ok more)) }
    ensures whole { IfOk result (λ are_digits. (more : List ℕ)
        → decode_of digits.now ≡ Ok more → IsTrue are_digits) }
    ensures none { IfOk result (λ are_digits. IsFalse are_digits
        → bytes.new.items ≡ bytes.old.items) }
    ensures err { OnErr result (bytes.new.items ≡ bytes.old.items) }
    ensures memory { OnErr result ((more : List ℕ) × (decode_of digits.now ≡ Ok more)) }
{
    let len = bytes.len();
    let count = digits.len() / 2;
    if bytes.capacity() - len < count && !are_digits(digits) {
        return Ok(false);
    }
    bytes.resize(len + count, 0)?;
    let is_decoded = hex::decode_to_slice(digits, bytes.slice_mut(len..)).is_ok();
    if !is_decoded {
        bytes.truncate(len);
    }
    Ok(is_decoded)
}

// Whether these are digits, two for each byte.
fn are_digits(digits: &[u8]) -> bool
    ensures read { IsTrue result → (bytes : List ℕ) × (decode_of digits.now ≡ Ok bytes) }
    ensures whole { (bytes : List ℕ) → decode_of digits.now ≡ Ok bytes → IsTrue result }
{
    digits.len() % 2 == 0 && are_hex_digits(digits)
}

fn are_hex_digits(text: &[u8]) -> bool
    ensures { result ≡ list_all is_hex_digit text.now }
{
    text.iter().all(|byte| is_hex_digit(*byte))
}

fn is_hex_digit(byte: u8) -> bool
    ensures { result ≡ is_hex_digit byte }
{
    byte.is_ascii_hexdigit()
}
