//! The job that the words of a command line ask `waywire` for.
//!
//! The parser `clap` reads the words. Its contracts say what words mean for a given list of
//! commands and arguments; `specs/Asking.antt` is that list.
#![tactic(auto)]

mod job;
pub mod laws;
pub mod status;

pub use job::{Job, Stop, job_of};
