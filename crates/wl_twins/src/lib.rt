//! What a proxy remembers about objects. A proxy is a server to a client and a client to a
//! compositor, and each object of one end has a twin at the other.
#![tactic(auto)]

mod forward;
mod twins;

pub use twins::Twins;
