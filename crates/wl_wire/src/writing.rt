//! One argument, written.
ghost use Rattle.std.specs.Prelude.{◌≡◌, ◌<◌, ◌≤◌, ◌+◌, ◌-◌, ◌++◌, length, drop, OnOk, OnErr, IsOk};
ghost use Rattle.std.specs.Prelude.{vec_len, vec_capacity};
ghost use Rattle.wl_wire.specs.Argument.{lent};
ghost use Rattle.wl_wire.specs.Spelling.{canonical, padded, zeros, Fits, spelled_len};
ghost use Rattle.wl_wire.specs.Word.{int_word, word};

use crate::value::ValueRef;
use crate::word::padded_len;
use byteorder::{ByteOrder, LittleEndian};
use std::alloc::{AllocError, Allocator};

/// Appends the spelling of a value that `fits`, padded with zeros. It allocates nothing if the
/// vector has spare room for it.
#[inline(always)]
pub fn encode_value<A: Allocator>(
    value: ValueRef<'_>,
    out: &mut Vec<u8, A>,
) -> Result<(), AllocError>
    requires { Fits (lent value) }
    ensures ok { OnOk result (out.new.items ≡ out.old.items ++ canonical (lent value.entry)) }
    ensures len { OnOk result (vec_len out.new ≡ vec_len out.old + spelled_len (lent value.entry)) }
    ensures err { OnErr result (out.new.items ≡ out.old.items) }
    ensures room { vec_len out.old + spelled_len (lent value.entry) ≤ vec_capacity out.old
        → IsOk result }
    ensures capacity { vec_capacity out.old ≤ vec_capacity out.new }
{
    out.reserve(value.spelled_len())?;
    append_value(value, out);
    Ok(())
}

/// Appends the spelling of a value that `fits`; the vector has room for it.
#[inline(always)]
fn append_value<A: Allocator>(value: ValueRef<'_>, out: &mut Vec<u8, A>)
    requires fits { Fits (lent value) }
    requires room { vec_len out.old + spelled_len (lent value) ≤ vec_capacity out.old }
    ensures items { out.new.items ≡ out.old.items ++ canonical (lent value.entry) }
    ensures len { vec_len out.new ≡ vec_len out.old + spelled_len (lent value.entry) }
    ensures capacity { vec_capacity out.old ≤ vec_capacity out.new }
{
    match value {
        ValueRef::Int(z) => append_int(out, z),
        ValueRef::Fixed(z) => append_int(out, z.raw()),
        ValueRef::Uint(n) => append_word(out, n),
        ValueRef::Obj(id) => append_word(out, id),
        ValueRef::New(id) => append_word(out, id),
        ValueRef::Str(None) => append_word(out, 0),
        ValueRef::Str(Some(text)) => append_padded(out, text.len() as u32 + 1, text),
        ValueRef::NewNamed { iface, version, id } => {
            append_padded(out, iface.len() as u32 + 1, iface);
            append_word(out, version);
            append_word(out, id);
        }
        ValueRef::Array(bytes) => append_padded(out, bytes.len() as u32, bytes),
        ValueRef::Fd => {}
    }
}

/// Appends bytes; the vector has room for them.
#[inline(always)]
fn append<A: Allocator>(out: &mut Vec<u8, A>, bytes: &[u8])
    requires { vec_len out.old + length bytes.now ≤ vec_capacity out.old }
    ensures items { out.new.items ≡ out.old.items ++ bytes.now }
    ensures len { vec_len out.new ≡ vec_len out.old + length bytes.now }
    ensures capacity { vec_capacity out.old ≤ vec_capacity out.new }
{
    let _ = out.extend_from_slice(bytes);
}

/// Appends the word of a number.
#[inline(always)]
fn append_word<A: Allocator>(out: &mut Vec<u8, A>, n: u32)
    requires { vec_len out.old + 4 ≤ vec_capacity out.old }
    ensures items { out.new.items ≡ out.old.items ++ word n }
    ensures len { vec_len out.new ≡ vec_len out.old + 4 }
    ensures capacity { vec_capacity out.old ≤ vec_capacity out.new }
{
    let mut bytes = [0; 4];
    LittleEndian::write_u32(&mut bytes, n);
    append(out, &bytes);
}

/// Appends the word of a signed number.
#[inline(always)]
fn append_int<A: Allocator>(out: &mut Vec<u8, A>, z: i32)
    requires { vec_len out.old + 4 ≤ vec_capacity out.old }
    ensures items { out.new.items ≡ out.old.items ++ int_word z }
    ensures len { vec_len out.new ≡ vec_len out.old + 4 }
    ensures capacity { vec_capacity out.old ≤ vec_capacity out.new }
{
    let mut bytes = [0; 4];
    LittleEndian::write_i32(&mut bytes, z);
    append(out, &bytes);
}

/// Appends a length, the bytes, and zeros up to a multiple of 4.
fn append_padded<A: Allocator>(out: &mut Vec<u8, A>, len: u32, bytes: &[u8])
    requires len { (length bytes.now ≤ len) × (len ≤ length bytes.now + 1) }
    requires room { vec_len out.old + (4 + padded len) ≤ vec_capacity out.old }
    ensures items { out.new.items ≡ out.old.items
        ++ (word len ++ bytes.now ++ zeros (padded len - length bytes.now)) }
    ensures len { vec_len out.new ≡ vec_len out.old + (4 + padded len) }
    ensures capacity { vec_capacity out.old ≤ vec_capacity out.new }
{
    append_word(out, len);
    append(out, bytes);
    let extra = padded_len(len as usize) - bytes.len();
    append(out, &[0; 4][..extra]);
}

/// Writes the spelling of a value that `fits`, padded with zeros, at the front of `out`, and
/// returns its length.
#[inline(always)]
pub fn write_value(value: ValueRef<'_>, out: &mut [u8]) -> usize
    requires fits { Fits (lent value) }
    requires room { spelled_len (lent value) ≤ length out.old }
    ensures bytes { out.new ≡ canonical (lent value.entry)
        ++ drop (spelled_len (lent value.entry)) out.old }
    ensures len { result ≡ spelled_len (lent value.entry) }
{
    let word = match value {
        ValueRef::Int(z) => z.cast_unsigned(),
        ValueRef::Fixed(z) => z.raw().cast_unsigned(),
        ValueRef::Uint(word) | ValueRef::Obj(word) | ValueRef::New(word) => word,
        ValueRef::Str(None) => 0,
        ValueRef::Str(Some(text)) => return write_padded(out, text.len() as u32 + 1, text),
        ValueRef::NewNamed { iface, version, id } => {
            let len = write_padded(out, iface.len() as u32 + 1, iface);
            LittleEndian::write_u32(&mut out[len..], version);
            LittleEndian::write_u32(&mut out[len + 4..], id);
            return len + 8;
        }
        ValueRef::Array(bytes) => return write_padded(out, bytes.len() as u32, bytes),
        ValueRef::Fd => return 0,
    };
    LittleEndian::write_u32(out, word);
    4
}

/// Writes a length, the bytes, and zeros up to a multiple of 4.
fn write_padded(out: &mut [u8], len: u32, bytes: &[u8]) -> usize
    requires len { (length bytes.now ≤ len) × (len ≤ length bytes.now + 1) }
    requires room { 4 + padded len ≤ length out.old }
    ensures bytes { out.new ≡ (word len ++ bytes.now ++ zeros (padded len - length bytes.now))
        ++ drop (4 + padded len) out.old }
    ensures len { result ≡ 4 + padded len }
{
    let end = 4 + padded_len(len as usize);
    // The zeros go into the last word; the bytes may then overwrite its front.
    LittleEndian::write_u32(&mut out[end - 4..], 0);
    LittleEndian::write_u32(out, len);
    out[4..4 + bytes.len()].copy_from_slice(bytes);
    end
}
