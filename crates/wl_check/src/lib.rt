//! Whether recorded sessions are lawful.
//!
//! A recording holds what passed between a client and a server, piece by piece. Its messages form
//! one list, and each is judged with what is known from those before it. The verdict names the
//! first message that breaks a rule.
#![tactic(auto)]

mod changes;
mod checking;
mod deserved;
mod followed_bytes;
mod following;
mod frames;
mod holdings;
mod inspector;
mod judging;
mod known;
pub mod laws;
mod line_judge;
mod overwritten;
mod progress;
pub mod samples;
mod scanning;
mod session_state;
mod tracing;
mod verdict;

pub use changes::{AdvertisedGlobal, MessageChanges};
pub use checking::{check, check_text};
pub use deserved::UndeservedDelete;
pub use following::{Followed, Follower, NO_INTERFACE};
pub use inspector::Inspector;
pub use line_judge::LineJudge;
pub use tracing::{trace, trace_text};
pub use verdict::{Verdict, write_verdict};
