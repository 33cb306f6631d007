//! The jobs of the command `waywire`: what each prints, and a run of the whole program.
//!
//! A job works with any reader and any writers. Its output is complete before any of it is written,
//! except for the lines of a stream. `program_arguments` says which job the words of a command line
//! ask for.
#![tactic(auto)]

mod acting;
mod failure;
mod finding;
mod folder;
mod hint;
mod inspecting;
pub mod laws;
mod running;
mod socket;
mod streaming;
mod tables;
mod verdict;

pub use acting::{Writers, act};
pub use failure::Failure;
pub use folder::texts_among;
pub use program_arguments::{Job, Stop, job_of};
pub use running::{ExitStatus, run};
pub use socket::BoundSocket;
pub use tables::TablesFile;
