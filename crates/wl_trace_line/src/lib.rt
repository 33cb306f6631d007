//! The lines of a trace: one message of a session, as text.
//!
//! A line shows the direction of a message, its target, its name and its arguments, such as `->
//! wl_display@1.get_registry(new id wl_registry@2)`. A trace appends it to bytes, and a report
//! prints it to a formatter; both use the same functions, over a `Sink`.
#![tactic(auto)]

mod argument;
mod line;
mod memory;
mod report;
mod sink;
mod text;

pub use line::write_line;
pub use report::{MessageHead, ObjectName, Quoted, ReportLine};
