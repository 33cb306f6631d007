//! Why a server keeps the rules whoever its client is, and a client if its server takes back only
//! what was given up and replaces no open object, as definitions only: what a checker of their
//! recording knows, how that fits the one end, and the laws that each step keeps this.
//!
//! Each law is the contract of a function that does nothing.
#![tactic(auto)]

pub mod client_laws;
pub mod client_samples;
pub mod laws;
pub mod samples;
pub mod server_streams;
