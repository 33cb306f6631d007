//! One argument, read without a copy.
ghost use Rattle.std.specs.Prelude.{◌≡◌, ◌≤◌, ◌+◌, ℕ, length, take, IfOk, IfErr, Ok, None};
ghost use Rattle.wl_wire.specs.declared.kind.Kind.TheVariants.{Str as str_kind};
ghost use Rattle.wl_wire.specs.declared.kind.Kind.TheVariants.{New as new_kind};
ghost use Rattle.wl_wire.specs.declared.kind.Kind.TheVariants.{Array as array_kind};
ghost use Rattle.wl_wire.specs.Argument.{Argument, lent};
ghost use Rattle.wl_wire.specs.Spelling.{Spells, padded};
ghost use Rattle.wl_wire.specs.Faults.{IsFirstFault};
ghost use Rattle.wl_wire.specs.Reading.{number_at, map_found, reading, seen};
ghost use Rattle.wl_wire.specs.Reading.{text_of};

use crate::fixed::Fixed;
use crate::kind::{ArgFault, Kind};
use crate::text::has_nul;
use crate::value::ValueRef;
use crate::word::padded_len;
use byteorder::{ByteOrder, LittleEndian};

/// Reads the argument of this kind at the front of the bytes; returns it with the length of its
/// spelling. What follows it is not looked at, and padding bytes may have any value.
#[inline(always)]
pub fn read_ref<'a>(kind: Kind, bytes: &'a [u8]) -> Result<(ValueRef<'a>, usize), ArgFault>
    // What is read is spelled there.
    ensures found { IfOk result
        (λ x. (x.1 ≤ length bytes.now) × Spells kind (lent x.0) (take x.1 bytes.now)) }
    // What is spelled there is read.
    ensures only { (v : Argument) (n : ℕ) → n ≤ length bytes.now → Spells kind v (take n bytes.now)
        → seen result ≡ Ok (v, n) }
    // The fault is the first one.
    ensures fault { IfErr result (IsFirstFault kind bytes.now) }
    ensures computes { seen result ≡ reading kind bytes.now }
{
    if bytes.len() < 4 {
        return match kind {
            Kind::Fd => Ok((ValueRef::Fd, 0)),
            _ => Err(ArgFault::Short),
        };
    }
    match kind {
        Kind::Int => Ok((ValueRef::Int(LittleEndian::read_i32(bytes)), 4)),
        Kind::Uint => Ok((ValueRef::Uint(LittleEndian::read_u32(bytes)), 4)),
        Kind::Fixed => Ok((
            ValueRef::Fixed(Fixed::from_raw(LittleEndian::read_i32(bytes))),
            4,
        )),
        Kind::Str { null } => string_at(null, bytes),
        Kind::Obj { null, .. } => {
            let id = LittleEndian::read_u32(bytes);
            if id == 0 && !null {
                return Err(ArgFault::NullNotAllowed);
            }
            Ok((ValueRef::Obj(id), 4))
        }
        Kind::New(Some(_)) | Kind::NewByServer(_) => Ok((
            ValueRef::New(LittleEndian::read_u32(bytes)),
            4,
        )),
        Kind::New(None) => named_at(bytes),
        Kind::Array => array_at(bytes),
        Kind::Fd => Ok((ValueRef::Fd, 0)),
    }
}

/// The string at the front of bytes that are known to contain its length.
#[inline(always)]
fn string_at<'a>(null: bool, bytes: &'a [u8]) -> Result<(ValueRef<'a>, usize), ArgFault>
    requires { 4 ≤ length bytes.now }
    ensures { seen result ≡ reading (str_kind null) bytes.now }
{
    let len = LittleEndian::read_u32(bytes) as usize;
    let end = 4 + padded_len(len);
    if bytes.len() < end {
        return Err(ArgFault::Short);
    }
    if null && len == 0 {
        return Ok((ValueRef::Str(None), end));
    }
    match text_at(bytes) {
        Ok(text) => Ok((ValueRef::Str(Some(text)), end)),
        Err(fault) => Err(fault),
    }
}

/// The new object with its interface's name, at the front of bytes that are known to contain the
/// name's length.
fn named_at<'a>(bytes: &'a [u8]) -> Result<(ValueRef<'a>, usize), ArgFault>
    requires { 4 ≤ length bytes.now }
    ensures { seen result ≡ reading (new_kind None) bytes.now }
{
    let name = padded_len(LittleEndian::read_u32(bytes) as usize);
    if bytes.len() < 12 + name {
        return Err(ArgFault::Short);
    }
    let iface = text_at(bytes)?;
    let after = &bytes[4 + name..];
    let value = ValueRef::NewNamed {
        iface,
        version: LittleEndian::read_u32(after),
        id: LittleEndian::read_u32(&after[4..]),
    };
    Ok((value, 12 + name))
}

/// The array at the front of bytes that are known to contain its length.
#[inline(always)]
fn array_at<'a>(bytes: &'a [u8]) -> Result<(ValueRef<'a>, usize), ArgFault>
    requires { 4 ≤ length bytes.now }
    ensures { seen result ≡ reading array_kind bytes.now }
{
    let len = LittleEndian::read_u32(bytes) as usize;
    let end = 4 + padded_len(len);
    if bytes.len() < end {
        return Err(ArgFault::Short);
    }
    Ok((ValueRef::Array(&bytes[4..4 + len]), end))
}

/// The non-null string at the front, without its ending NUL.
fn text_at<'a>(bytes: &'a [u8]) -> Result<&'a [u8], ArgFault>
    requires { 4 + padded (number_at bytes.now) ≤ length bytes.now }
    ensures { map_found (λ text. text.now) result ≡ text_of (number_at bytes.now) bytes.now }
{
    let len = LittleEndian::read_u32(bytes) as usize;
    if len == 0 {
        return Err(ArgFault::NullNotAllowed);
    }
    if bytes[len + 3] != 0 {
        return Err(ArgFault::NoEndingNul);
    }
    let text = &bytes[4..len + 3];
    if has_nul(text) {
        return Err(ArgFault::InnerNul);
    }
    Ok(text)
}
