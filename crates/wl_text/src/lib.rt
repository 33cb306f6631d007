//! Texts made of lines, and tables as such a text.
//!
//! A text is cut into lines, a line into words, and some words are numbers. For tables, this crate
//! says what each line declares, without looking up any name. docs/FORMATS.md has the forms of the
//! lines. A crate above looks the names up, and tests the declared interfaces by the rules of valid
//! tables.
#![tactic(auto)]

mod fault;
mod forms;
pub mod laws;
mod lines;
mod number;
mod reading;
mod written;

pub use fault::TableFault;
pub use forms::{needs_interface, takes_interface};
pub use lines::{first_line, first_word, is_skipped, split_before};
pub use number::decimal_number;
pub use reading::read_interfaces;
pub use written::{BareKind, WrittenInterface, WrittenKind, WrittenMessage};
