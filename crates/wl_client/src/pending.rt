//! The message at the front of a client's inbox: an event that was read and not yet applied.

use crate::changes::Change;
use crate::outline::Outline;
use wl_objects::Entry;

/// An event that was read and not yet applied: its report and its changes. It borrows nothing; its
/// arguments are at the end that read it.
#[derive(Clone, Copy, Debug)]
pub(crate) struct PendingEvent {
    pub(crate) outline: Outline,
    pub(crate) change: Change,
    /// The entry of the object that it is about.
    pub(crate) entry: Option<Entry>,
    /// The length of the message in bytes.
    pub(crate) size: u16,
    /// How many tokens it takes.
    pub(crate) tokens: usize,
}
