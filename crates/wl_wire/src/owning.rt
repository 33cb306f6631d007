//! One argument, read into memory of its own.
ghost use Rattle.std.specs.Prelude.{◌≡◌, ◌≤◌, ℕ, length, take, IfOk, IfErr, MatchResult};
ghost use Rattle.wl_wire.specs.declared.kind.ReadError.TheVariants.{Memory};
ghost use Rattle.wl_wire.specs.Argument.{Argument, lent, plain};
ghost use Rattle.wl_wire.specs.Spelling.{Spells};
ghost use Rattle.wl_wire.specs.Faults.{IsReason};
ghost use Rattle.wl_wire.specs.Reading.{HoldsBytes, IsValueRead};

use crate::bytes::Bytes;
use crate::kind::{Kind, ReadError};
use crate::reading::read_ref;
use crate::value::{Value, ValueRef};
use std::alloc::{AllocError, Allocator};

/// Reads the argument of this kind at the front of the bytes; returns it with the length of its
/// spelling. Only a non-null string, an interface name and an array allocate.
pub fn read_value<A: Allocator>(
    alloc: A,
    kind: Kind,
    bytes: &[u8],
) -> Result<(Value<A>, usize), ReadError>
    // What is read is spelled there.
    ensures found { IfOk result
        (λ x. (x.1 ≤ length bytes.now) × Spells kind (plain x.0) (take x.1 bytes.now)) }
    // What is spelled there is read, unless memory runs out.
    ensures only { (v : Argument) (n : ℕ) → n ≤ length bytes.now → Spells kind v (take n bytes.now)
        → MatchResult result (λ x. (plain x.0 ≡ v) × (x.1 ≡ n)) (λ e. e ≡ Memory) }
    // The fault is the first one.
    ensures fault { IfErr result (IsReason kind bytes.now) }
    ensures computes { IsValueRead kind bytes.now result }
{
    match read_ref(kind, bytes) {
        Ok((value, len)) => match owned(alloc, value) {
            Ok(value) => Ok((value, len)),
            Err(_) => Err(ReadError::Memory),
        },
        Err(fault) => Err(ReadError::Arg(fault)),
    }
}

/// An owned copy of the value.
fn owned<A: Allocator>(alloc: A, value: ValueRef<'_>) -> Result<Value<A>, AllocError>
    ensures { MatchResult result (λ v. plain v ≡ lent value.entry)
        (λ _. HoldsBytes (lent value.entry)) }
{
    match value {
        ValueRef::Int(z) => Ok(Value::Int(z)),
        ValueRef::Uint(n) => Ok(Value::Uint(n)),
        ValueRef::Fixed(z) => Ok(Value::Fixed(z)),
        ValueRef::Str(None) => Ok(Value::Str(None)),
        ValueRef::Str(Some(text)) => Ok(Value::Str(Some(Bytes::copy_of(alloc, text)?))),
        ValueRef::Obj(id) => Ok(Value::Obj(id)),
        ValueRef::New(id) => Ok(Value::New(id)),
        ValueRef::NewNamed { iface, version, id } => Ok(Value::NewNamed {
            iface: Bytes::copy_of(alloc, iface)?,
            version,
            id,
        }),
        ValueRef::Array(bytes) => Ok(Value::Array(Bytes::copy_of(alloc, bytes)?)),
        ValueRef::Fd => Ok(Value::Fd),
    }
}
