//! What the two ends of a Wayland connection have in common: the signature tables, the objects, the
//! two queues, and what is written and read through them.
//!
//! A client writes requests and reads events, a server the reverse; so a `Side` says which messages
//! are meant.
#![tactic(auto)]

mod end;
mod endpoint;
mod front;
mod laws;
mod receive;
mod receiver;
mod role;
mod send;
mod shared;
mod streams;
mod transport;
mod waiting;

pub use end::End;
pub use endpoint::Endpoint;
pub use front::first_message;
pub use laws::{found_stays, messages_are_spelled, openings_alone_need_memory, texts_extend};
pub use receive::MAX_TOKENS;
pub use receiver::Receiver;
pub use role::{Meaning, Role, read, read_owned};
pub use send::DELETE_ID_LEN;
pub use shared::{Core, FirstServerObject, MAX_GLOBALS};
pub use streams::{ReadAll, read_all};
