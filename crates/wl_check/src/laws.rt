//! Laws of sessions. Each is the contract of a function that does nothing: it says in words about
//! places what the definitions compute.
ghost use Rattle.std.specs.Prelude.{◌≡◌, ◌↔◌, ◌<◌, ◌≤◌, ◌+◌, ◌++◌, ℕ, List, Some, true, false};
ghost use Rattle.std.specs.Prelude.{suc, None};
ghost use Rattle.std.specs.Prelude.{length, drop, map};
ghost use Rattle.wl_sigs.specs.Tables.{Interface};
ghost use Rattle.wl_message.specs.Cut.{messages_in_stream, rest_of};
ghost use Rattle.wl_object_map.specs.Ranges.{first_server_id, is_of_server};
ghost use Rattle.wl_check.specs.Merged.{cut, stream_of};
ghost use Rattle.wl_check.specs.Deserved.{Deserved, undeserved_at};
ghost use Rattle.wl_check.specs.Places.{holder, is_ending, known, used, server_used};
ghost use Rattle.wl_check.specs.Places.{advertised_version};
ghost use Rattle.wl_check.specs.Session.{IsVerdictOf, AreWithin, Session, changes_at, examined};
ghost use Rattle.wl_check.specs.Session.{messages, session_of};
ghost use Rattle.wl_check.specs.Inspected.{HasPassed, Inspected};
ghost use Rattle.wl_check.specs.declared.inspector.Inspector.{Inspector as Inspectors};
ghost use Rattle.wl_check.specs.Trace.{lasting, trace_of};
ghost use Rattle.wl_check.specs.declared.verdict.Verdict.{Verdict as Verdicts};
ghost use Rattle.wl_recording.specs.declared.piece.Direction.{Direction as Way};
ghost use Rattle.wl_recording.specs.Piece.{Piece};
ghost use Rattle.wl_check.specs.Text.{spans_in, part_of, sound, BringsSpans, ComeInOrder, EndsWith};
ghost use Rattle.wl_check.specs.Text.{StaysHeld, IsExamined, StaysOpen, IsPrinted, WasAdvertised};
ghost use Rattle.wl_check.specs.Text.{WasUsed};

use std::alloc::Allocator;

/// The messages of a stream are those that its sizes cut off. A bad size, if there is one, comes
/// after them and is the last.
pub fn a_stream_has_its_messages()
    ensures messages { (limit : ℕ) (stream : List ℕ)
        → map (part_of stream) (sound limit (cut limit stream).spans)
        ≡ messages_in_stream limit stream }
    ensures bad_size { (limit : ℕ) (stream : List ℕ)
        → EndsWith limit stream (rest_of limit stream) (cut limit stream).spans }
{}

/// The merged list has each message of a direction once, in the order of its stream.
pub fn each_message_stands_once()
    ensures { (limit : ℕ) (pieces : List Piece) (direction : Way)
        → spans_in direction (session_of limit pieces).frames
        ≡ (cut limit (stream_of direction pieces)).spans }
{}

/// The messages of both directions are in the order of the pieces that bring their last bytes (for
/// a bad size, the last byte of its header); and a message's tokens are counted up to its own
/// piece.
pub fn messages_follow_their_pieces()
    ensures { (limit : ℕ) (pieces : List Piece)
        → ComeInOrder limit pieces 0 (length pieces) (session_of limit pieces).frames }
{}

/// A piece brings the last byte of each message that it completes; for a bad size, the last byte of
/// its header.
pub fn a_piece_brings_last_bytes()
    ensures { (limit : ℕ) (before piece : List ℕ)
        → BringsSpans limit (length before) (length (before ++ piece))
        (drop (length (cut limit before).spans) (cut limit (before ++ piece)).spans) }
{}

/// An id names the object that was made with it: in the client's range until its delete_id, in the
/// server's until an event makes the id again.
pub fn an_id_names_what_is_held()
    ensures { (tables : List Interface) (session : Session) (place birth id : ℕ)
        → (holder (changes_at tables (messages tables session)) place id ≡ Some birth)
        ↔ StaysHeld (changes_at tables (messages tables session)) place birth id }
{}

/// An object is ending if a message destroyed it.
pub fn an_object_is_open_until_destroyed()
    ensures { (tables : List Interface) (session : Session) (place birth id : ℕ)
        → (is_ending (changes_at tables (messages tables session)) birth place id ≡ false)
        ↔ StaysOpen (changes_at tables (messages tables session)) place birth id }
{}

/// The ids used before a place are, in the client's range, those from 1 to the greatest, and in the
/// server's range the first ones.
pub fn ids_are_used_in_order()
    ensures of_client { (tables : List Interface) (session : Session) (place id : ℕ)
        → is_of_server id ≡ false
        → ((0 < id) × (id ≤ used (changes_at tables (messages tables session)) place))
        ↔ WasUsed (changes_at tables (messages tables session)) place id }
    ensures of_server { (tables : List Interface) (session : Session) (place id : ℕ)
        → is_of_server id ≡ true
        → (id < first_server_id + server_used (changes_at tables (messages tables session)) place)
        ↔ WasUsed (changes_at tables (messages tables session)) place id }
{}

/// A version of a global was advertised if one event advertised the name, the interface and at
/// least this version.
pub fn one_event_advertises_a_version()
    ensures { (tables : List Interface) (session : Session) (place name iface version : ℕ)
        → 0 < version
        → (version ≤ advertised_version (changes_at tables (messages tables session)) place name
        iface)
        ↔ WasAdvertised (changes_at tables (messages tables session)) place name iface version }
{}

/// Each delete_id is deserved or not: it is if its id names an object that is ending, or one that
/// an event of its interface ends.
pub fn a_delete_id_is_deserved()
    ensures { (tables : List Interface) (session : Session) (k : ℕ)
        → (undeserved_at tables session k ≡ None)
        ↔ ((id : ℕ) → (changes_at tables (messages tables session) (suc k)).deleted ≡ Some id
        → Deserved tables (known (changes_at tables (messages tables session)) (suc k)) id) }
{}

/// A message is within the bytes of its direction; if its size is bad, its header is.
pub fn messages_lie_within_their_streams()
    ensures { (limit : ℕ) (pieces : List Piece) → AreWithin (session_of limit pieces) }
{}

/// A message is examined if no wl_display.error comes before it.
pub fn an_error_ends_a_session()
    ensures { (tables : List Interface) (session : Session) (k : ℕ)
        → (k < examined (messages tables session)) ↔ IsExamined (messages tables session) k }
{}

/// A trace has a line for each message up to the verdict's end, and for no other.
pub fn a_trace_ends_with_the_verdict()
    ensures { (tables : List Interface) (session : Session) (k : ℕ)
        → (k < lasting (messages tables session)) ↔ IsPrinted (messages tables session) k }
{}

/// A session has one verdict, so `check` and `trace` return the same.
pub fn a_session_has_one_verdict()
    ensures { (tables : List Interface) (session : Session) (one other : Verdicts)
        → IsVerdictOf tables session one → IsVerdictOf tables session other → one ≡ other }
{}

/// If the pieces of a recording pass through an inspector one by one, all that it prints, joined,
/// is what `trace` prints for the recording, and its verdict is that of `check`.
pub fn inspecting_is_checking<A: Allocator>()
    ensures lines { (limit : ℕ) (tables : List Interface) (pieces : List Piece) (text : List ℕ)
        (inspector : Inspectors A)
        → Inspected limit tables pieces text inspector
        → text ≡ trace_of tables (session_of limit pieces) }
    ensures verdict { (limit : ℕ) (tables : List Interface) (pieces : List Piece) (text : List ℕ)
        (inspector : Inspectors A) (inspected checked : Verdicts)
        → Inspected limit tables pieces text inspector
        → (HasPassed limit tables pieces inspector
        → IsVerdictOf tables (session_of limit pieces) inspected)
        → IsVerdictOf tables (session_of limit pieces) checked → inspected ≡ checked }
{}
