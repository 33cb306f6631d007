//! The message at the front of a server's inbox: a request that was read and not yet applied.
use crate::changes::Change;
use crate::outline::Outline;
use wl_objects::Entry;

/// A request that was read and not yet applied: its report and its changes. It borrows nothing; its
/// arguments are at the end that read it.
#[derive(Clone, Copy, Debug)]
pub(crate) struct PendingRequest {
    pub(crate) outline: Outline,
    pub(crate) change: Change,
    /// The entry of its target.
    pub(crate) entry: Entry,
    /// The length of the message in bytes.
    pub(crate) size: u16,
    /// How many tokens it takes.
    pub(crate) tokens: usize,
}
