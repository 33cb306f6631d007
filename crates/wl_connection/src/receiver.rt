//! An end that reads messages.
ghost use Rattle.std.specs.Prelude.{◌≡◌, Bool, true, false};
ghost use Rattle.wl_connection.specs.Reads.{Answer, reading_of, HasReport, ReadsNext};

use crate::end::End;
use wl_objects::NextError;

/// An end as `read_all` sees it.
pub trait Receiver: End {
    /// The report of a message, owned.
    type Report: Drop;

    // What reports say, apart from where they lie in memory.
    ghost Seen: { Type 0 };

    ghost seen: { Self.Report → Seen };

    // What `next_owned` returns and leaves if memory is not refused.
    ghost answer: { Self → Answer Seen };

    ghost after: { Self → Self };

    // The report after which nothing more is read.
    ghost is_last: { Seen → Bool };

    /// Whether the first message can be read and reported. Nothing changes.
    fn has_report(&mut self) -> bool
        requires { (Self.core self.old).failed ≡ false }
        ensures same { self.new ≡ self.old }
        ensures yes { result ≡ true
            → HasReport (reading_of Self.core Self.with_core answer after is_last) self.old }
        ensures no { result ≡ false
            → HasReport (reading_of Self.core Self.with_core answer after is_last) self.old → ⊥ };

    /// Reads the next message if it is whole; else returns `None`.
    fn next_owned(&mut self) -> Result<Option<Self::Report>, NextError>
        requires { (Self.core self.old).failed ≡ false }
        ensures { ReadsNext (reading_of Self.core Self.with_core answer after is_last) seen
            self.old result self.new };
}
