//! Reading whole streams at a client, in pieces.
ghost use Rattle.std.specs.Prelude.{◌≡◌, true, false, length, map, take, Some};
ghost use Rattle.wl_message.specs.InStep.{part};
ghost use Rattle.wl_connection.specs.Core.{no_room};
ghost use Rattle.wl_connection.specs.Reads.{appended, ReadsAll};
ghost use Rattle.wl_client.specs.Seen.{report_of};
ghost use Rattle.wl_client.specs.Streams.{client_reading};

use crate::client::Client;
use crate::report::OwnedIncoming;
use wl_connection::ReadAll;
use wl_message::Piece;
use wl_objects::{NextError, Table};

impl<'t, T: Table> Client<'t, T> {
    /// Reads pieces of a stream, in order, and appends what was read to the reports.
    ///
    /// All that waits is read before each piece and at the end. A piece is taken in as far as it
    /// fits, and the rest of it after what waits was read again. Room for a report is reserved
    /// before its message is read. `stop` is `Memory` if there is no memory for that room, for the
    /// report, or for the object that an event makes; then the message stays at the front and can
    /// be read again. The reading ends early when no message can be read, after wl_display.error,
    /// and before a piece whose tokens do not all fit; what was read before stays read.
    pub fn read_all(
        &mut self,
        pieces: &[Piece<'_>],
        reports: &mut Vec<OwnedIncoming<T::Alloc>, T::Alloc>,
    ) -> ReadAll
        ensures reports { take (length reports.old.items) reports.new.items ≡ reports.old.items }
        ensures reads { self.old.core.failed ≡ false
            → ReadsAll client_reading self.old (map part pieces.now)
            (appended report_of reports.old.items reports.new.items) result self.new }

        // A client that has failed reads nothing, even if there are no pieces.
        ensures answer { self.old.core.failed ≡ true
            → result ≡ record { pieces = 0; part = no_room; stop = Some NextError.Failed } }
        ensures failed { self.old.core.failed ≡ true → self.new ≡ self.old }
        ensures nothing { self.old.core.failed ≡ true → reports.new.items ≡ reports.old.items }
    {
        wl_connection::read_all(self, pieces, reports)
    }
}
