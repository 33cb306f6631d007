//! A client keeps the rules, whoever its server is, as long as that server takes back only what was
//! given up and replaces no open object.
ghost use Rattle.std.specs.Prelude.{◌≡◌, ◌+◌, ◌-◌, ◌++◌, ◌∷◌, ℕ, List, [], Ok, drop, take};
ghost use Rattle.std.specs.Prelude.{◌<◌, ◌^◌, Option, false, length};
ghost use Rattle.wl_wire.specs.declared.header.Header.{Header as Headers};
ghost use Rattle.wl_wire.specs.Word.{header_at};
ghost use Rattle.wl_sigs.specs.Side.TheVariants.{Request};
ghost use Rattle.wl_sigs.specs.Tables.{Interface};
ghost use Rattle.wl_sigs.specs.Valid.{Valid};
ghost use Rattle.wl_message.specs.Arrived.{in_front};
ghost use Rattle.wl_message.specs.Cut.{Whole};
ghost use Rattle.wl_message.specs.Outgoing.{QueuedMessage};
ghost use Rattle.wl_message.specs.declared.amounts.Sizes.{Sizes};
ghost use Rattle.wl_object_map.specs.declared.object.Object.{Object as ObjectId};
ghost use Rattle.wl_object_map.specs.Objects.{Objects, ObjectsAreSound};
ghost use Rattle.wl_objects.specs.declared.error.Fault.{Fault as Faults};
ghost use Rattle.wl_objects.specs.Writing.{Given};
ghost use Rattle.wl_connection.specs.Receiving.{header_of};
ghost use Rattle.wl_connection.specs.Sending.{send_answer};
ghost use Rattle.wl_client.specs.declared.globals.Global.{Global};
ghost use Rattle.wl_client.specs.Calls.{bind_answer};
ghost use Rattle.wl_client.specs.State.{State, new_state};
ghost use Rattle.wl_recording.specs.declared.piece.Direction.{Direction as Way};
ghost use Rattle.wl_recording.specs.declared.piece.Direction.TheVariants.{ToClient, ToServer};
ghost use Rattle.wl_check.specs.Changes.{Call as Calls};
ghost use Rattle.wl_check.specs.Session.{IsFirstBrokenMessage, Judged, Session as Sessions};
ghost use Rattle.theory_connection.specs.Meant.{Known, Message, spelled_meant};
ghost use Rattle.theory_connection.specs.World.{Each, Row};
ghost use Rattle.theory_connection.specs.Flight.{Rows, client_rows};
ghost use Rattle.theory_connection.specs.Runs.{FitsWords};
ghost use Rattle.theory_recording.specs.Follows.{AllGoOn, KnownAs, birth_places, knowledge};
ghost use Rattle.theory_peers.specs.AcceptedEvent.{IsAcceptedEvent, ServerMessage, told_as};
ghost use Rattle.theory_peers.specs.BlameOfServer.{IsFromClient};
ghost use Rattle.theory_peers.specs.ClientCalls.{ClientCalls, MakesClientRun};
ghost use Rattle.theory_peers.specs.ClientRun.{ClientRun, HasVersionsAtClient};
ghost use Rattle.theory_peers.specs.ErrorAtClient.{IsAcceptedError, IsErrorRead};
ghost use Rattle.theory_peers.specs.FollowsClient.{ClientKeepsRules, FollowsClient, IsToldAs};
ghost use Rattle.theory_peers.specs.FollowsClient.{MayBeAsked, after_asking, after_learning};
ghost use Rattle.theory_peers.specs.FollowsClient.{after_telling};
ghost use Rattle.theory_peers.specs.FollowsServer.{IsPlacedIn};
ghost use Rattle.theory_peers.specs.ReadByClient.{IsReadByClient, ReadsAsClientStep, SpellsEvent};
ghost use Rattle.theory_peers.specs.WrittenByClient.{BindsAsStep, SendsRequestAsStep};

/// Before the first message a checker follows a new client.
pub fn a_new_client_is_followed()
    ensures { (tables : List Interface) (sizes : Sizes) → Valid tables
        → FollowsClient tables [] [] [] (client_rows (new_state tables sizes).core.view) [] }
{}

/// An event that the checker accepts at its place keeps the rules: it fits a signature, it names
/// objects that the checker has, and its new object is the server's next.
pub fn an_accepted_event_keeps_the_rules()
    ensures { (limit : ℕ) (tables : List Interface) (e : List Judged) (here : Rows Row)
        (call : Calls)
        → Valid tables → KnownAs (knowledge tables e) (birth_places tables e) here
        → IsAcceptedEvent limit tables e call
        → IsToldAs tables here call (told_as tables e call).event }
{}

/// After an event that the checker accepts is recorded, the checker still follows the client,
/// whatever requests the client has written since.
pub fn an_accepted_event_is_followed()
    ensures { (limit : ℕ) (tables : List Interface) (e : List Judged)
        (asked : List (Message Known)) (told : List ServerMessage) (client : Rows Row)
        (remembered : List Global) (call : Calls)
        → Valid tables → FollowsClient tables e asked told client remembered
        → IsAcceptedEvent limit tables e call
        → FollowsClient tables (e ++ Ok call ∷ []) asked (told ++ told_as tables e call ∷ []) client
        remembered }
{}

/// The checker follows the client after it has read the first of what came, and after it has
/// written a request.
pub fn what_a_client_does_is_followed()
    ensures read { (tables : List Interface) (e : List Judged) (asked : List (Message Known))
        (s : ServerMessage) (told : List ServerMessage) (client : Rows Row)
        (remembered : List Global)
        → Valid tables → FollowsClient tables e asked (s ∷ told) client remembered
        → FollowsClient tables e asked told (after_telling client s)
        (after_learning tables client s.event remembered) }
    ensures write { (tables : List Interface) (e : List Judged) (asked : List (Message Known))
        (told : List ServerMessage) (client : Rows Row) (remembered : List Global)
        (m : Message Known)
        → Valid tables → FollowsClient tables e asked told client remembered
        → MayBeAsked tables client remembered m
        → FollowsClient tables e (asked ++ m ∷ []) told (after_asking client m) remembered }
{}

/// The first request that the client wrote and that is not recorded yet keeps all rules when it is
/// recorded, whatever events were recorded before it; and the checker still follows the client.
pub fn what_a_client_wrote_keeps_the_rules()
    ensures { (limit : ℕ) (tables : List Interface) (e : List Judged) (m : Message Known)
        (asked : List (Message Known)) (told : List ServerMessage) (client : Rows Row)
        (remembered : List Global) (stream : List ℕ) (place tokens : ℕ)
        → Valid tables → FollowsClient tables e (m ∷ asked) told client remembered
        → IsPlacedIn limit stream place ((knowledge tables e).taken ToServer) tokens
        (spelled_meant m)
        → ClientKeepsRules limit tables stream place tokens (spelled_meant m) e asked told client
        remembered }
{}

/// In any run of a client with any server, if the checker accepts each recorded event at its place,
/// each delete_id was deserved and no event replaced an open object, then it accepts each recorded
/// message of the client too, in whatever order they were recorded; and the checker follows the
/// client.
pub fn a_client_keeps_the_rules()
    ensures keeps { (limit : ℕ) (tables : List Interface) (e : List Judged)
        (asked : List (Message Known)) (told : List ServerMessage) (client : Rows Row)
        (remembered : List Global)
        → Valid tables → ClientRun limit tables e asked told client remembered → AllGoOn e }
    ensures follows { (limit : ℕ) (tables : List Interface) (e : List Judged)
        (asked : List (Message Known)) (told : List ServerMessage) (client : Rows Row)
        (remembered : List Global)
        → Valid tables → ClientRun limit tables e asked told client remembered
        → FollowsClient tables e asked told client remembered }
{}

/// If a checker says that a session of a client and any such server is broken, the first broken
/// message is the server's.
pub fn the_first_broken_message_is_the_servers()
    ensures { (tables : List Interface) (session : Sessions) (direction : Way) (index offset : ℕ)
        (fault : Faults)
        → Valid tables
        → (broken : IsFirstBrokenMessage tables session direction index offset fault)
        → IsFromClient tables session broken.place → direction ≡ ToClient }
{}

/// The bytes of an event that the checker accepts spell the message that it is read as, and the
/// tokens suffice.
pub fn an_accepted_event_spells_its_message()
    ensures { (limit : ℕ) (tables : List Interface) (e : List Judged) (here : Rows Row)
        (call : Calls)
        → Valid tables → KnownAs (knowledge tables e) (birth_places tables e) here
        → (accepted : IsAcceptedEvent limit tables e call)
        → SpellsEvent tables (told_as tables e call).event
        (header_at (drop accepted.place accepted.stream))
        (take (accepted.size - 8) (drop (accepted.place + 8) accepted.stream))
        (accepted.tokens - (knowledge tables e).taken ToClient) }
{}

/// The client reads the first recorded event that it has not read yet from any bytes that spell it,
/// without a fault, and its objects are those that were meant, whatever the client has written
/// since.
pub fn a_recorded_event_is_read()
    ensures { (tables : List Interface) (e : List Judged) (asked : List (Message Known))
        (s : ServerMessage) (told : List ServerMessage) (view : Objects)
        (remembered : List Global) (header : Headers) (body : List ℕ) (waiting : ℕ)
        → Valid tables → FollowsClient tables e asked (s ∷ told) (client_rows view) remembered
        → SpellsEvent tables s.event header body waiting
        → IsReadByClient tables view s.event header body waiting }
{}

/// If such bytes are at the front of what waits, the client's read is a step of a run: it finds the
/// event, meets no fault, and then has the objects and the globals of the run.
pub fn a_client_read_is_a_step()
    ensures { (state : State) (e : List Judged) (asked : List (Message Known)) (s : ServerMessage)
        (told : List ServerMessage) (n : ℕ)
        → Valid state.core.tables → ObjectsAreSound state.core.view
        → FollowsClient state.core.tables e asked (s ∷ told) (client_rows state.core.view)
        state.globals
        → in_front state.core.inbox ≡ Whole n
        → SpellsEvent state.core.tables s.event (header_of state.core.inbox.bytes)
        (drop 8 (take n state.core.inbox.bytes)) (length state.core.inbox.tokens)
        → ReadsAsClientStep state s }
{}

/// The client's `send` is a step of a run, if it accepts the call.
pub fn a_client_send_is_a_step()
    ensures { (state : State) (target : ObjectId) (opcode : ℕ) (given : List Given)
        (new : Option ObjectId)
        → Valid state.core.tables → ObjectsAreSound state.core.view → state.core.failed ≡ false
        → Each FitsWords given → send_answer state.core Request target opcode given ≡ Ok new
        → SendsRequestAsStep state target opcode given }
{}

/// The client's `bind` is a step of a run, if it accepts the call.
pub fn a_bind_is_a_step()
    ensures { (state : State) (target : ObjectId) (name : ℕ) (iface : List ℕ) (version : ℕ)
        (new : Option ObjectId)
        → Valid state.core.tables → ObjectsAreSound state.core.view
        → HasVersionsAtClient (client_rows state.core.view) → state.core.failed ≡ false
        → name < 2 ^ 32 → version < 2 ^ 32 → bind_answer state target name iface version ≡ Ok new
        → BindsAsStep state target name iface version }
{}

/// In any run each object that is open at the client has a version of at least 1.
pub fn client_objects_have_versions()
    ensures { (limit : ℕ) (tables : List Interface) (e : List Judged)
        (asked : List (Message Known)) (told : List ServerMessage) (client : Rows Row)
        (remembered : List Global)
        → Valid tables → ClientRun limit tables e asked told client remembered
        → HasVersionsAtClient client }
{}

/// The calls of a client make a run: its reads of events that the checker accepts, `send` and
/// `bind`. So none of the recorded messages breaks a rule.
pub fn client_calls_make_a_run()
    ensures run { (limit : ℕ) (tables : List Interface) (e : List Judged)
        (told : List ServerMessage) (written : List QueuedMessage) (state : State)
        → Valid tables → ClientCalls limit tables e told written state
        → MakesClientRun limit tables e told written state }
    ensures keeps { (limit : ℕ) (tables : List Interface) (e : List Judged)
        (told : List ServerMessage) (written : List QueuedMessage) (state : State)
        → Valid tables → ClientCalls limit tables e told written state → AllGoOn e }
{}

/// After any such calls, if the bytes in front spell the first event that was recorded and not read
/// yet, the client reads it as a step of a run, without a fault.
pub fn client_calls_read_without_a_fault()
    ensures { (limit : ℕ) (tables : List Interface) (e : List Judged) (s : ServerMessage)
        (told : List ServerMessage) (written : List QueuedMessage) (state : State) (n : ℕ)
        → Valid tables → ClientCalls limit tables e (s ∷ told) written state
        → ObjectsAreSound state.core.view → in_front state.core.inbox ≡ Whole n
        → SpellsEvent state.core.tables s.event (header_of state.core.inbox.bytes)
        (drop 8 (take n state.core.inbox.bytes)) (length state.core.inbox.tokens)
        → ReadsAsClientStep state s }
{}

/// A client that has read all events before it reads the wl_display.error with which a session
/// ends, without a fault, as the checker did.
pub fn an_accepted_error_is_read()
    ensures { (limit : ℕ) (tables : List Interface) (e : List Judged)
        (asked : List (Message Known)) (view : Objects) (remembered : List Global) (call : Calls)
        (waiting : ℕ)
        → Valid tables → FollowsClient tables e asked [] (client_rows view) remembered
        → (accepted : IsAcceptedError limit tables e call)
        → IsErrorRead tables view call (header_at (drop accepted.place accepted.stream))
        (take (accepted.size - 8) (drop (accepted.place + 8) accepted.stream)) waiting }
{}
