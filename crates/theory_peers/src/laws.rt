//! A server keeps the rules, whoever its client is.
ghost use Rattle.std.specs.Prelude.{◌≡◌, ◌≤◌, ◌+◌, ◌-◌, ◌++◌, ◌∷◌, ℕ, List, [], Ok, Some};
ghost use Rattle.std.specs.Prelude.{drop, false, length, map, take, true, None, Option};
ghost use Rattle.wl_wire.specs.declared.header.Header.{Header as Headers};
ghost use Rattle.wl_wire.specs.Word.{header_at};
ghost use Rattle.wl_sigs.specs.Side.TheVariants.{Event as event_side, Request};
ghost use Rattle.wl_sigs.specs.Tables.{Interface};
ghost use Rattle.wl_sigs.specs.Valid.{Valid};
ghost use Rattle.wl_message.specs.Arrived.{in_front};
ghost use Rattle.wl_message.specs.Cut.{Whole};
ghost use Rattle.wl_message.specs.Outgoing.{QueuedMessage};
ghost use Rattle.wl_message.specs.declared.amounts.Sizes.{Sizes};
ghost use Rattle.wl_object_map.specs.declared.object.Object.{Object as ObjectId};
ghost use Rattle.wl_object_map.specs.Objects.{Objects, ObjectsAreSound};
ghost use Rattle.wl_objects.specs.declared.error.Fault.{Fault as Faults};
ghost use Rattle.wl_objects.specs.Messages.{is_bind};
ghost use Rattle.wl_objects.specs.Writing.{Given};
ghost use Rattle.wl_connection.specs.Core.{Core};
ghost use Rattle.wl_connection.specs.Sending.{send_answer};
ghost use Rattle.wl_connection.specs.Receiving.{header_of};
ghost use Rattle.wl_server.specs.Calls.{drop_refusal};
ghost use Rattle.wl_server.specs.Registries.{HasRegistries};
ghost use Rattle.wl_server.specs.Requests.{is_good_bind, is_good_bind_of};
ghost use Rattle.wl_server.specs.State.{Global, State, most_globals, new_state};
ghost use Rattle.wl_recording.specs.declared.piece.Direction.{Direction as Way};
ghost use Rattle.wl_recording.specs.declared.piece.Direction.TheVariants.{ToClient, ToServer};
ghost use Rattle.wl_check.specs.Changes.{Call as Calls};
ghost use Rattle.wl_check.specs.Session.{IsFirstBrokenMessage, Judged, Session as Sessions};
ghost use Rattle.theory_connection.specs.Meant.{Born, Coming, Delete, Event, Known, Message};
ghost use Rattle.theory_connection.specs.Meant.{spelled_coming, wire};
ghost use Rattle.theory_connection.specs.World.{Each, Row, delete};
ghost use Rattle.theory_connection.specs.Runs.{FitsWords};
ghost use Rattle.theory_connection.specs.Stands.{IsGlobal};
ghost use Rattle.theory_connection.specs.Flight.{Rows, server_rows};
ghost use Rattle.theory_recording.specs.Follows.{AllGoOn, KnownAs, birth_places, knowledge};
ghost use Rattle.theory_peers.specs.AcceptedRequest.{IsAcceptedRequest, asked_as};
ghost use Rattle.theory_peers.specs.AnnouncedGlobals.{AnnouncesOnly};
ghost use Rattle.theory_peers.specs.Blame.{IsFromServer};
ghost use Rattle.theory_peers.specs.FollowsServer.{after_event, CanBeRead, FollowsServer};
ghost use Rattle.theory_peers.specs.FollowsServer.{IsAskedAs};
ghost use Rattle.theory_peers.specs.FollowsServer.{KeepsRules, MayBeDropped, MayBeTold, IsPlacedIn};
ghost use Rattle.theory_connection.proofs.WholeInFlight.{server_ends};
ghost use Rattle.theory_peers.specs.ReadByServer.{IsReadByServer, IsSpelledBy, ReadsAsStep};
ghost use Rattle.theory_peers.specs.ServerCalls.{MakesRun, ServerCalls};
ghost use Rattle.theory_peers.specs.ServerRun.{HasVersions, ServerRun};
ghost use Rattle.theory_peers.specs.WrittenByServer.{AnnouncesAsSteps, DropsAsStep, SendsAsStep};

/// Before the first message a checker follows a new server.
pub fn a_new_server_is_followed()
    ensures { (tables : List Interface) (sizes : Sizes) → Valid tables
        → FollowsServer tables [] [] [] (server_rows (new_state tables sizes).core.view) }
{}

/// The first message that the server wrote and that is not recorded yet keeps all rules when it is
/// recorded, whatever requests were recorded before it; and the checker still follows the server.
pub fn what_a_server_wrote_keeps_the_rules()
    ensures { (limit : ℕ) (tables : List Interface) (e : List Judged)
        (asked : List (Message Known)) (coming : Coming Known) (told : List (Coming Known))
        (server : Rows Born) (stream : List ℕ) (place tokens : ℕ)
        → Valid tables → FollowsServer tables e asked (coming ∷ told) server
        → IsPlacedIn limit stream place ((knowledge tables e).taken ToClient) tokens
        (spelled_coming coming)
        → KeepsRules limit tables stream place tokens (spelled_coming coming) e asked told server }
{}

/// A request that the checker accepts at its place keeps the rules: it fits a signature, it names
/// objects that are open to the checker, and its new object is fresh to the checker.
pub fn an_accepted_request_keeps_the_rules()
    ensures { (limit : ℕ) (tables : List Interface) (e : List Judged) (here : Rows Row)
        (call : Calls)
        → Valid tables → KnownAs (knowledge tables e) (birth_places tables e) here
        → IsAcceptedRequest limit tables e call
        → IsAskedAs tables here call (asked_as tables e call) }
{}

/// The bytes of a request that the checker accepts spell the message that it is read as, and the
/// tokens suffice.
pub fn an_accepted_request_spells_its_message()
    ensures { (limit : ℕ) (tables : List Interface) (e : List Judged) (here : Rows Row)
        (call : Calls)
        → Valid tables → KnownAs (knowledge tables e) (birth_places tables e) here
        → (accepted : IsAcceptedRequest limit tables e call)
        → IsSpelledBy tables (asked_as tables e call)
        (header_at (drop accepted.place accepted.stream))
        (take (accepted.size - 8) (drop (accepted.place + 8) accepted.stream))
        (accepted.tokens - (knowledge tables e).taken ToServer) }
{}

/// After a request that keeps the rules is recorded, the checker still follows the server.
pub fn a_recorded_request_is_followed()
    ensures { (tables : List Interface) (e : List Judged) (asked : List (Message Known))
        (told : List (Coming Known)) (server : Rows Born) (call : Calls) (m : Message Known)
        → Valid tables → (follows : FollowsServer tables e asked told server)
        → IsAskedAs tables follows.here call m
        → FollowsServer tables (e ++ Ok call ∷ []) (asked ++ m ∷ []) told server }
{}

/// The first recorded request that the server has not read yet names open objects, whatever the
/// server has written since; and the checker follows the server after it is read.
pub fn a_recorded_request_can_be_read()
    ensures { (tables : List Interface) (e : List Judged) (m : Message Known)
        (asked : List (Message Known)) (told : List (Coming Known)) (server : Rows Born)
        → FollowsServer tables e (m ∷ asked) told server
        → CanBeRead tables e m asked told server }
{}

/// The server reads the first recorded request from any bytes that spell it, without a fault, and
/// its target is the one that was meant, whatever the server has written since.
pub fn a_recorded_request_is_read()
    ensures { (tables : List Interface) (e : List Judged) (m : Message Known)
        (asked : List (Message Known)) (told : List (Coming Known)) (view : Objects)
        (header : Headers) (body : List ℕ) (waiting : ℕ)
        → Valid tables → ObjectsAreSound view
        → FollowsServer tables e (m ∷ asked) told (server_rows view)
        → IsSpelledBy tables m header body waiting
        → IsReadByServer tables view m header body waiting }
{}

/// If such bytes are at the front of what waits, and a bind is a good one, the server's read is a
/// step of a run: it finds the request, meets no fault, and then has the objects of the run.
pub fn a_read_is_a_step()
    ensures { (state : State) (e : List Judged) (m : Message Known) (asked : List (Message Known))
        (told : List (Coming Known)) (n : ℕ)
        → Valid state.core.tables → ObjectsAreSound state.core.view
        → FollowsServer state.core.tables e (m ∷ asked) told (server_rows state.core.view)
        → in_front state.core.inbox ≡ Whole n
        → IsSpelledBy state.core.tables m (header_of state.core.inbox.bytes)
        (drop 8 (take n state.core.inbox.bytes)) (length state.core.inbox.tokens)
        → (is_bind Request m.target.born.iface m.opcode ≡ true
        → is_good_bind state (map wire m.args) ≡ true)
        → ReadsAsStep state m }
{}

/// The checker follows the server after it has written an event, with the delete of an object that
/// the event ends; and after it has dropped an object.
pub fn what_a_server_writes_is_followed()
    ensures event { (tables : List Interface) (e : List Judged) (asked : List (Message Known))
        (told : List (Coming Known)) (server : Rows Born) (m : Message Known)
        → Valid tables → FollowsServer tables e asked told server → MayBeTold tables server m
        → FollowsServer tables e asked (told ++ (Event m ∷ delete m.ends)) (after_event server m) }
    ensures drop { (tables : List Interface) (e : List Judged) (asked : List (Message Known))
        (told : List (Coming Known)) (server : Rows Born) (x : Known)
        → Valid tables → FollowsServer tables e asked told server → MayBeDropped tables server x
        → FollowsServer tables e asked (told ++ Delete x ∷ []) (server_ends (Some x) server) }
{}

/// The server's `send` is a step of a run, if it accepts the call.
pub fn a_send_is_a_step()
    ensures { (core : Core) (target : ObjectId) (opcode : ℕ) (given : List Given)
        (new : Option ObjectId)
        → Valid core.tables → ObjectsAreSound core.view → core.failed ≡ false → Each FitsWords given
        → send_answer core event_side target opcode given ≡ Ok new
        → SendsAsStep core target opcode given }
{}

/// The server's `drop_object` is a step of a run, if it is not refused.
pub fn a_drop_is_a_step()
    ensures { (core : Core) (object : ObjectId)
        → drop_refusal core object ≡ None → DropsAsStep core object }
{}

/// The events that the server's `announce` writes are steps of a run, and announce only globals
/// that it added.
pub fn an_announcement_is_steps()
    ensures { (state : State) (count : ℕ)
        → Valid state.core.tables → ObjectsAreSound state.core.view
        → HasVersions (server_rows state.core.view)
        → length state.globals ≤ most_globals → Each (IsGlobal state.core.tables) state.globals
        → HasRegistries state.core.view state.registries
        → AnnouncesAsSteps state count }
{}

/// In any run of a server with any client, if the checker accepts each recorded request at its
/// place, then it accepts each recorded message of the server too, in whatever order they were
/// recorded; and the checker follows the server.
pub fn a_server_keeps_the_rules()
    ensures keeps { (limit : ℕ) (tables : List Interface) (e : List Judged)
        (asked : List (Message Known)) (told : List (Coming Known)) (server : Rows Born)
        → Valid tables → ServerRun limit tables e asked told server → AllGoOn e }
    ensures follows { (limit : ℕ) (tables : List Interface) (e : List Judged)
        (asked : List (Message Known)) (told : List (Coming Known))
        (server : Rows Born)
        → Valid tables → ServerRun limit tables e asked told server
        → FollowsServer tables e asked told server }
{}

/// In any run each object that is open at the server has a version of at least 1.
pub fn objects_have_versions()
    ensures { (limit : ℕ) (tables : List Interface) (e : List Judged)
        (asked : List (Message Known)) (told : List (Coming Known))
        (server : Rows Born)
        → Valid tables → ServerRun limit tables e asked told server → HasVersions server }
{}

/// As long as a server announces only globals that it added, it accepts each bind that the checker
/// accepts: the bind names one of these globals, its interface, and a version that it has.
pub fn an_accepted_bind_is_good()
    ensures { (limit : ℕ) (tables : List Interface) (given : List Global) (e : List Judged)
        (asked : List (Message Known)) (told : List (Coming Known)) (server : Rows Born)
        (call : Calls)
        → Valid tables → (run : ServerRun limit tables e asked told server)
        → AnnouncesOnly given run → IsAcceptedRequest limit tables e call
        → is_bind Request call.received.entry.iface call.opcode ≡ true
        → is_good_bind_of tables given call.received.values ≡ true }
{}

/// The calls of a server make a run: its reads of requests that the checker accepts, `send`,
/// `drop_object`, `announce`, and globals that it adds or withdraws. So none of the recorded
/// messages breaks a rule.
pub fn calls_make_a_run()
    ensures run { (limit : ℕ) (tables : List Interface) (e : List Judged)
        (asked : List (Message Known)) (written : List QueuedMessage) (state : State)
        → Valid tables → ServerCalls limit tables e asked written state
        → MakesRun limit tables e asked written state }
    ensures keeps { (limit : ℕ) (tables : List Interface) (e : List Judged)
        (asked : List (Message Known)) (written : List QueuedMessage)
        (state : State)
        → Valid tables → ServerCalls limit tables e asked written state → AllGoOn e }
{}

/// After any such calls, if the bytes in front spell the first request that was recorded and not
/// read yet, the server reads it as a step of a run, without a fault.
pub fn calls_read_without_a_fault()
    ensures { (limit : ℕ) (tables : List Interface) (e : List Judged) (m : Message Known)
        (asked : List (Message Known)) (written : List QueuedMessage) (state : State)
        (n : ℕ)
        → Valid tables → ServerCalls limit tables e (m ∷ asked) written state
        → ObjectsAreSound state.core.view → in_front state.core.inbox ≡ Whole n
        → IsSpelledBy state.core.tables m (header_of state.core.inbox.bytes)
        (drop 8 (take n state.core.inbox.bytes)) (length state.core.inbox.tokens)
        → ReadsAsStep state m }
{}

/// If a checker says that a session of a server and any client is broken, the first broken message
/// is the client's.
pub fn the_first_broken_message_is_the_clients()
    ensures { (tables : List Interface) (session : Sessions) (direction : Way) (index offset : ℕ)
        (fault : Faults)
        → Valid tables
        → (broken : IsFirstBrokenMessage tables session direction index offset fault)
        → IsFromServer tables session broken.place → direction ≡ ToServer }
{}
