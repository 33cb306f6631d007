//! How an end reads from a stream, or takes in what was written into its inbox.
ghost use Rattle.std.specs.Prelude.{◌≡◌, ◌⊎◌, true, Err, take};
ghost use Rattle.wl_message.specs.declared.streams.FillError.TheVariants.{NoRoom};
ghost use Rattle.wl_connection.specs.Core.{feeds_len};
ghost use Rattle.wl_connection.specs.Transport.{EndFills, EndReceives};

use crate::shared::Core;
use std::io::Read;
use wl_message::{Fed, FillError};
use wl_objects::Table;

impl<'t, T: Table> Core<'t, T> {
    /// Reads once from a reader, as `wl_message::fill` does. A failed end reads nothing, and
    /// returns 0.
    pub fn fill<R: Read>(&mut self, reader: &mut R) -> Result<usize, FillError>
        ensures fills { EndFills self.old (R.remaining reader.old) result self.new
            (R.remaining reader.new) }
        ensures unread { (self.old.failed ≡ true) ⊎ (result ≡ Err NoRoom)
            → reader.new ≡ reader.old }
    {
        if self.failed {
            return Ok(0);
        }
        wl_message::fill(&mut self.inbox, reader)
    }

    /// Takes in what was written into the inbox; see `End::received`.
    pub fn received(&mut self, bytes: usize, tokens: &[u32]) -> Fed
        ensures fed { result ≡ feeds_len self.old bytes tokens.now }
        ensures state { EndReceives self.old result.bytes (take result.tokens tokens.now) self.new }
    {
        if self.failed {
            return Fed {
                bytes: 0,
                tokens: 0,
            };
        }
        self.inbox.received(bytes, tokens)
    }
}
