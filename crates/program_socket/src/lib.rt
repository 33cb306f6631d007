//! The session of the demonstration, played over two connected streams such as the ends of a
//! socket.
#![tactic(auto)]

mod calls;
mod error;
mod session;
mod showing;
mod turn;

pub use error::SocketError;
pub use session::{SessionOutcome, socket_session};
pub use showing::socket_text;
