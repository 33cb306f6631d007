//! The tokens that an end gives back when it is given up.
ghost use Rattle.std.specs.Prelude.{◌≡◌, ◌≤◌, ◌++◌, [], length, take, drop};
ghost use Rattle.wl_message.specs.Outgoing.{waiting_bytes};
ghost use Rattle.wl_connection.specs.Waiting.{waiting, waiting_count, given_up};

use crate::shared::Core;
use wl_objects::Table;

impl<'t, T: Table> Core<'t, T> {
    /// Takes tokens out of both queues; see `End::take_waiting_tokens`.
    pub fn take_waiting_tokens(&mut self, tokens: &mut [u32]) -> usize
        ensures count { result ≡ waiting_count self.old (length tokens.old) }
        ensures tokens { tokens.new ≡ take result (waiting self.old) ++ drop result tokens.old }
        ensures state { self.new ≡ given_up self.old (length tokens.old) }
        ensures all { length (waiting self.old) ≤ length tokens.old
            → (result ≡ length (waiting self.old)) × (waiting self.new ≡ [])
            × (waiting_bytes self.new.outbox ≡ []) }
    {
        self.failed = true;
        let unread = self.inbox.take_tokens(tokens);
        let unsent = self.outbox.take_tokens(&mut tokens[unread..]);
        unread + unsent.tokens
    }
}
