//! Streams that are cut into pieces, as definitions and laws alone: what waits at an end has one
//! reading, wherever its pieces are cut.
//!
//! Each law is the contract of a function that does nothing.
#![tactic(auto)]

pub mod laws;
