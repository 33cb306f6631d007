//! Queues of messages: bytes and tokens that are received and sent, split anywhere.
//!
//! A message is a header of two words, which has the message's size, and its arguments. File
//! descriptors are not among the bytes: each is a token in a separate queue, and the caller's
//! transport carries it. (Chapter "Wayland Protocol and Model of Operation", section "Wire
//! Format".)
#![tactic(auto)]

mod amounts;
mod boundaries;
mod header;
mod inbox;
mod laws;
mod limit;
mod outbox;
mod queue;
mod script;
mod streams;

pub use amounts::{Amounts, Fed, Full, MAX_BOX_BYTES, MAX_BOX_TOKENS, Peek, Piece, Sizes, Taken};
pub use inbox::{BadSize, Frame, Inbox};
pub use laws::{
    any_cut, front_stays, headed_message, joined_messages, next_message, no_token_is_lost,
    one_amount, one_cut, pieces_in_step, reading_in_step, take_keeps_step,
};
pub use limit::Limit;
pub use outbox::Outbox;
pub use script::{ScriptReader, ScriptWriter, Step};
pub use streams::{FillError, FlushError, fill, flush};
