//! Recordings of sessions, as values and as text.
//!
//! A recording is everything that passed between a client and a server at one point of the
//! connection, in both directions, piece by piece: the direction of a piece, its bytes, and its
//! number of tokens, which represent file descriptors. Its text has one line for each piece:
//!
//! ```text
//! # get_registry, then a token alone
//! > 0100000001000c0002000000
//! > - +1
//! ```
#![tactic(auto)]

mod digits;
mod line;
mod piece;
mod reader;
mod recording;
mod write;

pub use piece::{Appended, Direction, Passed};
pub use reader::PieceReader;
pub use recording::{Recording, RecordingError};
