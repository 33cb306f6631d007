//! The kind of argument that a signature asks for, and why bytes are not of that kind.

use std::error::Error;
use std::fmt::{self, Display, Formatter};

/// An interface, by its index in the signature tables, from 0.
#[derive(Clone, Copy, Debug, PartialEq, Eq)]
pub struct Iface(pub u16);

/// The kind of one argument, as a signature gives it. (Section "Wire Format".)
#[derive(Clone, Copy, Debug, PartialEq, Eq)]
pub enum Kind {
    /// A signed word, in two's complement.
    Int,
    /// An unsigned word.
    Uint,
    /// A signed word that counts 256ths.
    Fixed,
    /// A string, and whether the null string is allowed.
    Str { null: bool },
    /// The id of an object: whether 0, the null object, is allowed, and the object's interface, or
    /// `None` for any.
    Obj { null: bool, iface: Option<Iface> },
    /// The id of a new object that the client makes. Without an interface the argument is three
    /// values: the interface's name as a string, the version and the id.
    New(Option<Iface>),
    /// The id of a new object of this interface, made by the server.
    NewByServer(Iface),
    /// Bytes, preceded by their length.
    Array,
    /// A file descriptor. It takes no bytes in the stream.
    Fd,
}

/// Why bytes do not begin with a spelling of a kind. The faults are tested in this order, each over
/// the whole argument.
#[derive(Clone, Copy, Debug, PartialEq, Eq)]
pub enum ArgFault {
    /// A1: a word is incomplete, or fewer bytes are there than a length and its padding ask for.
    Short,
    /// A2: a null string or a null object where the kind does not allow it.
    NullNotAllowed,
    /// A3: the last byte that a string's length counts is not 0.
    NoEndingNul,
    /// A4: a byte of a string before the last one is 0.
    InnerNul,
}

/// Why no value was read.
#[derive(Clone, Copy, Debug, PartialEq, Eq)]
pub enum ReadError {
    /// The bytes do not begin with a spelling of the kind.
    Arg(ArgFault),
    /// Out of memory, for the value's bytes.
    Memory,
}

impl Display for ArgFault {
    ghost use Rattle.std.specs.Prelude.{Some};
    ghost use Rattle.wl_wire.specs.Errors.{arg_fault_text};

    ghost output = { λ fault. Some (arg_fault_text fault) };

    fn fmt<W: fmt::Write>(&self, f: &mut Formatter<W>) -> fmt::Result {
        f.write_str(match self {
            ArgFault::Short => "argument is cut short",
            ArgFault::NullNotAllowed => "null is not allowed",
            ArgFault::NoEndingNul => "string does not end with a NUL",
            ArgFault::InnerNul => "string has a NUL inside",
        })
    }
}

impl Error for ArgFault {}

impl Display for ReadError {
    ghost use Rattle.std.specs.Prelude.{Some};
    ghost use Rattle.wl_wire.specs.Errors.{read_error_text};

    ghost output = { λ error. Some (read_error_text error) };

    fn fmt<W: fmt::Write>(&self, f: &mut Formatter<W>) -> fmt::Result {
        match self {
            ReadError::Arg(fault) => write!(f, "{fault}"),
            ReadError::Memory => f.write_str("out of memory"),
        }
    }
}

impl Error for ReadError {}
