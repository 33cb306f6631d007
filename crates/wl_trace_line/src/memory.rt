//! Numbers appended to bytes in memory, without a formatter.
ghost use Rattle.std.specs.Prelude.{◌≡◌, ◌++◌, ◌<◌, ◌^◌, OnOk, codes};
ghost use Rattle.std.specs.Fmt.{decimal};
ghost use Rattle.wl_wire.specs.Argument.{units};
ghost use Rattle.wl_wire.specs.Units.{decimal_to, fixed_text};

use itoa::{Buffer, Integer, write_digits};
use std::alloc::{AllocError, Allocator};
use wl_wire::Fixed;

/// Appends an `@` and the id of an object in one step.
pub(crate) fn write_id<A: Allocator>(out: &mut Vec<u8, A>, id: u32) -> Result<(), AllocError>
    ensures { OnOk result (out.new.items ≡ out.old.items ++ (codes "@" ++ decimal id)) }
{
    let mut text = [b'@'; 11];
    let digits = write_digits(u64::from(id), &mut text, 11);
    out.extend_from_slice(&text[digits - 1..])
}

/// Appends a number in decimal.
pub(crate) fn write_number<A: Allocator, I: Integer>(
    out: &mut Vec<u8, A>,
    number: I,
) -> Result<(), AllocError>
    ensures { OnOk result (out.new.items ≡ out.old.items ++ I.text number) }
{
    let mut buffer = Buffer::new();
    out.extend_from_slice(buffer.format(number).as_bytes())
}

/// Appends a fixed-point number: its sign, its whole part, a point, and its decimals.
pub(crate) fn write_fixed<A: Allocator>(
    out: &mut Vec<u8, A>,
    number: Fixed,
) -> Result<(), AllocError>
    ensures { OnOk result (out.new.items ≡ out.old.items ++ fixed_text (units number)) }
{
    let raw = number.raw();
    if raw < 0 {
        out.push(b'-')?;
    }
    let size = raw.unsigned_abs();
    write_number(out, size / 256)?;
    out.push(b'.')?;
    write_decimals(out, size % 256 * 390_625)
}

/// Appends eight decimals.
fn write_decimals<A: Allocator>(out: &mut Vec<u8, A>, number: u32) -> Result<(), AllocError>
    requires { number < 10 ^ 8 }
    ensures { OnOk result (out.new.items ≡ out.old.items ++ decimal_to 8 number) }
{
    let mut buffer = Buffer::new();
    let digits = buffer.format(number).as_bytes();
    out.extend_from_slice(&[b'0'; 8][digits.len()..])?;
    out.extend_from_slice(digits)
}
