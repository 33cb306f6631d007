//! Recordings of any length, judged while they are read.
//!
//! A recording is read line by line, and a `LineJudge` judges each line. So the memory that this
//! takes grows with open objects and with the longest line, and not with the recording.
#![tactic(auto)]

mod error;
mod line;
mod reading;
mod stream;
mod writing;

pub use error::StreamError;
pub use stream::judge_stream;
pub use writing::{write_three, write_through, write_whole};
