//! The words, headers and arguments of the Wayland wire format.
//!
//! A stream is a sequence of 32-bit words in host byte order, which is little-endian here. Each
//! message is a header of two words followed by its arguments. Arguments carry no type: the
//! message's signature gives it. This crate reads and writes one argument or header at a time, in
//! memory that the caller provides. (Chapter "Wayland Protocol and Model of Operation", section
//! "Wire Format".)
#![tactic(auto)]

mod bytes;
mod encode;
mod fixed;
mod header;
mod kind;
pub mod laws;
mod owning;
mod reading;
mod text;
mod value;
mod word;
mod writing;

pub use bytes::Bytes;
pub use encode::Encode;
pub use fixed::Fixed;
pub use header::{HEADER_LEN, Header, MAX_MESSAGE_LEN};
pub use kind::{ArgFault, Iface, Kind, ReadError};
pub use owning::read_value;
pub use reading::read_ref;
pub use text::has_nul;
pub use value::{Value, ValueRef};
pub use writing::{encode_value, write_value};
