//! The two ends of a Wayland connection together, as definitions only: the world of births that
//! both ends describe, what each of their calls may return in it, and the laws that connect them.
//!
//! Each law is the contract of a function that does nothing.
#![tactic(auto)]

pub mod laws;
