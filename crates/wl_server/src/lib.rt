//! The server's end of a Wayland connection: what a compositor keeps for one client.
#![tactic(auto)]

mod announce;
mod bind;
mod changes;
mod end;
mod faults;
mod globals;
mod laws;
mod name_set;
mod open_registries;
mod outline;
mod pending;
mod read_all;
mod receive;
mod registry;
mod report;
mod role;
mod send;
mod server;
mod shown;

pub use announce::Announced;
pub use globals::GlobalError;
pub use laws::{any_cut_reads, one_reading, own_messages_are_spelled, whole_messages_are_read};
pub use name_set::MOST_GLOBALS;
pub use report::{OwnedRequest, OwnedRequestWithEntry, Request, RequestWithEntry};
pub use server::Server;
pub use wl_connection::ReadAll;
