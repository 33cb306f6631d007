//! The signatures of the messages of Wayland's core interfaces.
//!
//! Arguments have no type on the wire: the signature of a message gives it. The tables list
//! interfaces and, for each, its requests and its events, in order of opcode. (Chapter "Wayland
//! Protocol and Model of Operation", sections "Interfaces" and "Wire Format".)
#![tactic(auto)]

mod added;
mod core_interfaces;
pub mod event;
mod front;
mod interface;
mod kinds;
mod laws;
mod name;
pub mod request;
pub mod samples;
mod signature;
mod tables;

pub use kinds::is_new_object;
pub use laws::{
    first_broken_is_first, found_by_its_name, opcodes_are_of_their_names, places_and_opcodes_stay,
    texts_are_told, unbroken_where_valid, valid_where_tests_pass, without_extensions,
};
pub use signature::Signature;
pub use tables::Tables;
pub use wl_rules::{Destroys, MAX_ARGS, Side};
pub use wl_text::TableFault;
