//! Laws of what a server reads. These functions do nothing; each is called for what it ensures.
ghost use Rattle.std.specs.Prelude.{◌≡◌, ℕ, true, List};
ghost use Rattle.wl_sigs.specs.Side.TheVariants.{Request as request_side};
ghost use Rattle.theory_cuts.specs.Cuts.{AnyCutReads, HasOneReading, ReadsWhole};
ghost use Rattle.wl_sigs.specs.Tables.{Interface};
ghost use Rattle.wl_objects.specs.declared.error.Fault.{Fault};
ghost use Rattle.wl_server.specs.Announcing.{Due};
ghost use Rattle.wl_server.specs.Calls.{is_error_text};
ghost use Rattle.wl_server.specs.Requests.{fault_message};
ghost use Rattle.wl_server.specs.Spelled.{DeleteSpells, DueSpells, ErrorSpells};
ghost use Rattle.wl_server.specs.Streams.{server_reading};

/// What waits is read in only one way, also if more follows.
pub fn one_reading()
    ensures { HasOneReading server_reading }
{}

/// If pieces are in step, it does not matter how the stream is split.
pub fn any_cut_reads()
    ensures { AnyCutReads server_reading request_side }
{}

/// What is read is the front of what waits: as many whole messages as there are reports.
pub fn whole_messages_are_read()
    ensures { ReadsWhole server_reading }
{}

/// What a server writes on its own is a spelling by the tables' signature: a delete_id, the error
/// of a fault or of the compositor, and the events for registries.
pub fn own_messages_are_spelled()
    ensures delete_id { (tables : List Interface) (id : ℕ) → DeleteSpells tables id }
    ensures error { (tables : List Interface) (object code : ℕ) (text : List ℕ)
        → ErrorSpells tables object code text }
    ensures fault { (fault : Fault) → is_error_text (fault_message fault) ≡ true }
    ensures told { (tables : List Interface) (due : Due) → DueSpells tables due }
{}
