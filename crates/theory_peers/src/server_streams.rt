//! A run of a server by bytes: whatever its client writes, and however its bytes are cut into
//! pieces on their way.
ghost use Rattle.std.specs.Prelude.{◌≡◌, ◌+◌, ◌<◌, ◌∷◌, ℕ, List, [], Err, None, Ok, length};
ghost use Rattle.wl_sigs.specs.Core.{core_tables};
ghost use Rattle.wl_sigs.specs.Tables.{Interface};
ghost use Rattle.wl_sigs.specs.Valid.{Valid};
ghost use Rattle.wl_message.specs.Arrived.{in_front};
ghost use Rattle.wl_message.specs.Cut.{usual_limit, Whole};
ghost use Rattle.wl_message.specs.declared.amounts.Sizes.{Sizes};
ghost use Rattle.wl_object_map.specs.View.{max_births};
ghost use Rattle.wl_objects.specs.declared.error.Fault.{Fault as Faults};
ghost use Rattle.wl_server.specs.Requests.{request};
ghost use Rattle.wl_server.specs.State.{State};
ghost use Rattle.wl_recording.specs.declared.piece.Direction.{Direction as Way};
ghost use Rattle.wl_recording.specs.declared.piece.Direction.TheVariants.{ToServer};
ghost use Rattle.wl_recording.specs.Piece.{Piece as Pieces};
ghost use Rattle.wl_check.specs.Merged.{merged};
ghost use Rattle.wl_check.specs.Session.{IsFirstBrokenMessage, IsLawful, session_of};
ghost use Rattle.theory_peers.specs.ServerCalls.{IsSoundServer};
ghost use Rattle.theory_peers.specs.ServerEnding.{ServerEnds};
ghost use Rattle.theory_peers.specs.ServerStreams.{from_client, NoRequestBreaks, ServerPlays};
ghost use Rattle.theory_peers.specs.StreamSamples.{header_begun, registry_asked, registry_heard};

/// If the recording of a server and any client is broken, the first broken message is the client's.
/// Fewer than 2^64 - 2 messages were recorded.
pub fn a_recording_is_broken_first_by_the_client()
    ensures { (limit : ℕ) (tables : List Interface) (pieces arriving leaving : List Pieces)
        (state : State) (direction : Way) (index offset : ℕ) (fault : Faults)
        → Valid tables → ServerPlays limit tables pieces arriving leaving state
        → length (merged limit pieces) + 1 < max_births
        → IsFirstBrokenMessage tables (session_of limit pieces) direction index offset fault
        → direction ≡ ToServer }
{}

/// While none of the recorded requests breaks a rule, the whole recording is lawful, and the server
/// meets no fault, whatever it does and however the bytes are cut. Fewer than 2^64 - 2 messages
/// were recorded.
pub fn while_its_client_keeps_the_rules()
    ensures lawful { (limit : ℕ) (tables : List Interface) (pieces arriving leaving : List Pieces)
        (state : State)
        → Valid tables → ServerPlays limit tables pieces arriving leaving state
        → length (merged limit pieces) + 1 < max_births
        → NoRequestBreaks tables (session_of limit pieces)
        → IsLawful tables (session_of limit pieces) }
    ensures no_fault { (limit : ℕ) (tables : List Interface)
        (pieces arriving leaving : List Pieces) (state : State)
        → Valid tables → ServerPlays limit tables pieces arriving leaving state
        → length (merged limit pieces) + 1 < max_births
        → NoRequestBreaks tables (session_of limit pieces) → IsSoundServer state
        → (fault : Faults) → request state ≡ Err fault → ⊥ }
{}

/// After the server posted an error, too: a broken recording is broken first by the client, and
/// while no request breaks a rule, the recording is lawful. Nothing behind the error counts for
/// that. Fewer than 2^64 - 2 messages were recorded.
pub fn a_recording_stays_lawful_behind_an_error()
    ensures first { (limit : ℕ) (tables : List Interface) (pieces leaving : List Pieces)
        (state : State) (direction : Way) (index offset : ℕ) (fault : Faults)
        → Valid tables → ServerEnds limit tables pieces leaving state
        → length (merged limit pieces) + 1 < max_births
        → IsFirstBrokenMessage tables (session_of limit pieces) direction index offset fault
        → direction ≡ ToServer }
    ensures lawful { (limit : ℕ) (tables : List Interface) (pieces leaving : List Pieces)
        (state : State)
        → Valid tables → ServerEnds limit tables pieces leaving state
        → length (merged limit pieces) + 1 < max_births
        → NoRequestBreaks tables (session_of limit pieces)
        → IsLawful tables (session_of limit pieces) }
{}

/// The bytes of get_registry arrive in two pieces, cut within the header: after the first piece
/// the server has nothing to read, and after the second a message of 12 bytes.
pub fn a_piece_ends_within_a_header()
    ensures run { (sizes : Sizes) → sizes.limit.bytes ≡ usual_limit
        → ServerPlays usual_limit core_tables (from_client registry_asked 0 ∷ []) [] []
        (registry_heard sizes) }
    ensures part { (sizes : Sizes) → request (header_begun sizes) ≡ Ok None }
    ensures whole { (sizes : Sizes) → sizes.limit.bytes ≡ usual_limit
        → in_front (registry_heard sizes).core.inbox ≡ Whole 12 }
{}
