//! The session that the program shows: a client binds two globals, asks for a callback, and makes,
//! commits and destroys a surface. Played over a pair: what the two ends write is carried in
//! pieces. Its objects, the queues of both ends and the last line are exported, since
//! `program_socket` plays the same session.
#![tactic(auto)]

mod agreement;
mod objects;
mod playing;
mod session;
mod showing;

pub use agreement::write_agreement;
pub use objects::{CALLBACK, COMPOSITOR, DISPLAY, REGISTRY, SIZES, SURFACE};
pub use showing::demo;
