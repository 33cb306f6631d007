//! What a checker may say of a session that is newer than its tables, as definitions and laws
//! alone: what stays true whatever completes the tables.
//!
//! Each law is the contract of a function that does nothing.
#![tactic(auto)]

pub mod laws;
pub mod samples;
