//! The calls of the server that both ends have.
use crate::report::OwnedRequest;
use crate::role::first_request;
use crate::server::Server;
use std::io::{Read, Write};
use wl_connection::{Core, End, Receiver};
use wl_message::{Fed, FillError, FlushError, Taken};
use wl_objects::{NextError, Table};

impl<'t, T: Table> End for Server<'t, T> {
    ghost use Rattle.std.specs.Prelude.{refl};
    ghost use Rattle.wl_server.specs.State.{with_core};

    type Table = T;

    ghost core = { λ server. server.core };

    ghost with_core = { with_core };

    fn core(&self) -> &Core<'_, T> {
        &self.end.core
    }

    fn feed(&mut self, bytes: &[u8], tokens: &[u32]) -> Fed {
        self.end.core.feed(bytes, tokens)
    }

    fn take(&mut self, bytes: &mut [u8], tokens: &mut [u32]) -> Taken {
        self.end.core.outbox.take(bytes, tokens)
    }

    fn received(&mut self, bytes: usize, tokens: &[u32]) -> Fed {
        self.end.core.received(bytes, tokens)
    }

    fn sent(&mut self, bytes: usize) -> Taken {
        self.end.core.outbox.sent(bytes)
    }

    fn fill<R: Read>(&mut self, reader: &mut R) -> Result<usize, FillError> {
        self.end.core.fill(reader)
    }

    fn flush<W: Write>(&mut self, writer: &mut W) -> Result<usize, FlushError> {
        wl_message::flush(&mut self.end.core.outbox, writer)
    }

    fn take_waiting_tokens(&mut self, tokens: &mut [u32]) -> usize {
        self.end.core.take_waiting_tokens(tokens)
    }

    ghost laws = { record {
      kept = λ server. refl;
      new = λ server core. refl;
      again = λ server core other. refl;
    } };
}

impl<'t, T: Table> Receiver for Server<'t, T> {
    ghost use Rattle.wl_server.specs.Requests.{Report as ServerReport, is_last, next_answer};
    ghost use Rattle.wl_server.specs.Requests.{after_next};
    ghost use Rattle.wl_server.specs.Seen.{report_of};

    type Report = OwnedRequest<T::Alloc>;

    ghost Seen = { ServerReport };

    ghost seen = { report_of };

    ghost answer = { next_answer };

    ghost after = { after_next };

    ghost is_last = { is_last };

    fn has_report(&mut self) -> bool {
        match first_request(&mut self.end, &self.role) {
            Ok(Some(_)) => true,
            _ => false,
        }
    }

    fn next_owned(&mut self) -> Result<Option<OwnedRequest<T::Alloc>>, NextError> {
        self.next_owned()
    }
}
