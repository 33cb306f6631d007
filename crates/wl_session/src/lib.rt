//! Both ends of a Wayland connection, joined directly: the moves that can be made with them, and
//! the replies.
#![tactic(auto)]

mod agreeing;
mod calls;
mod carrying;
mod lending;
mod moves;
mod pair;
mod running;
mod tee;

pub use agreeing::{object_count, same_rows};
pub use moves::{Carried, Move, Reply, SendArg};
pub use pair::Pair;
pub use tee::Tee;
pub use wl_check::{Verdict, check, trace};
pub use wl_recording::{Direction, Passed, Recording, RecordingError};
