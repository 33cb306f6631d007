//! The client's end of a Wayland connection.
#![tactic(auto)]

mod arguments;
mod bind;
mod changes;
mod client;
mod end;
mod globals;
mod laws;
mod meaning;
mod outline;
mod pending;
mod read_all;
mod receive;
mod report;
mod role;
mod send;
mod shown;
mod tokens;
mod unannounced;

pub use client::Client;
pub use laws::{
    any_cut_reads, binds_are_spelled, one_reading, replaced_objects_are_over,
    unannounced_binds_are_known, unannounced_binds_are_spelled, whole_messages_are_read,
};
pub use report::{Incoming, IncomingWithEntry, OwnedIncoming, OwnedIncomingWithEntry};
pub use shown::ShownIncoming;
pub use tokens::Tokens;
pub use wl_connection::{FirstServerObject, ReadAll};
