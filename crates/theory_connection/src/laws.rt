//! The invariants of the two ends, whatever is done with them.
ghost use Rattle.std.specs.Prelude.{◌≡◌, ◌⊎◌, ◌↔◌, ◌<◌, ℕ, List, ◌++◌, ◌∷◌, [], true};
ghost use Rattle.std.specs.Prelude.{false, map, option_map, Some, None, Ok, Err};
ghost use Rattle.wl_sigs.specs.Tables.{Interface};
ghost use Rattle.wl_sigs.specs.Fixed.{registry};
ghost use Rattle.wl_sigs.specs.Rules.{has_server_objects};
ghost use Rattle.wl_sigs.specs.Valid.{Valid};
ghost use Rattle.wl_object_map.specs.View.{IdsOfBirths};
ghost use Rattle.wl_object_map.specs.Objects.{look};
ghost use Rattle.wl_object_map.specs.declared.object.Maker.TheVariants.{Client, Server};
ghost use Rattle.wl_message.specs.declared.amounts.Sizes.{Sizes};
ghost use Rattle.wl_objects.specs.declared.error.Fault.{Fault};
ghost use Rattle.wl_objects.specs.declared.error.NextError.TheVariants as errors;
ghost use Rattle.wl_client.specs.Reports as client_reads;
ghost use Rattle.wl_server.specs.Requests as server_reads;
ghost use Rattle.wl_connection.specs.Core.{Core, feeds};
ghost use Rattle.theory_connection.specs.Meant.{Born, Known, Message, Coming, Event, Delete};
ghost use Rattle.theory_connection.specs.Meant.{birth_of};
ghost use Rattle.theory_connection.specs.Answers.{birth_at};
ghost use Rattle.theory_connection.specs.Flight.{client_rows};
ghost use Rattle.theory_connection.specs.World.{World, opening_world, Each, IsOpen, IsEnding};
ghost use Rattle.theory_connection.specs.World.{IsThere};
ghost use Rattle.theory_connection.specs.Pair.{PairState, Move, Reply, Does, new_pair, drained};
ghost use Rattle.theory_connection.specs.Pair.{carries, carried_bytes, carried_tokens};
ghost use Rattle.theory_connection.specs.Stands.{Stands, HoldsServerObjects, by_event};
ghost use Rattle.theory_connection.specs.Runs.{Runs, DoesAll, IsMove, Agree, Keeps};
ghost use Rattle.theory_connection.specs.Samples.{CallbackLives, DeadArgument, DeadInError};
ghost use Rattle.theory_connection.specs.Samples.{DeadRegistry};
ghost use Rattle.theory_connection.specs.Samples.{ServerObjectLives};
ghost use Rattle.wl_object_map.specs.Ranges.{is_of_server};
ghost use Rattle.theory_connection.specs.Plain.{IsOfClient, IsOfServer, StandsIn, OfEach, OnTheWay};
ghost use Rattle.theory_connection.specs.Plain.{IsUnnamed, IsUnasked, IsNowhere, IsMadeFirst};
ghost use Rattle.theory_connection.specs.Plain.{EventMakes, NameComes, IsNamedInTurn, IsLastAsked};
ghost use Rattle.theory_connection.specs.Plain.{IsInOrder, news, news_told, made_by_coming};
ghost use Rattle.theory_connection.specs.Plain.{MessageNames, IsLatest, IsOnTheWay};
ghost use Rattle.theory_connection.specs.Plain.{IsHeldAtClient, IsSomewhere, DeleteComes};
ghost use Rattle.theory_connection.specs.Plain.{MakeComes, DestroyComes, IsLast, IsToldOfGlobals};
ghost use Rattle.theory_connection.specs.Plain.{IdsAreOf, BirthsAreOf, ServerIdsAreOf};
ghost use Rattle.theory_connection.specs.Plain.{ServerBirthsAreOf};

/// A new pair with one limit represents the opening world.
pub fn new_stands()
    ensures { (tables : List Interface) (client server : Sizes)
        → client.limit.bytes ≡ server.limit.bytes → Valid tables
        → Stands (new_pair tables client server) opening_world }
{}

/// Whatever one move does with a pair that represents a world, its reply is one that the world
/// allows, and the pair then represents the next world.
pub fn step_keeps()
    ensures { (pair : PairState) (world : World) → Stands pair world
        → (move : Move) (reply : Reply) (next : PairState)
        → IsMove move → Does pair move reply next → Keeps pair world move reply next }
{}

/// Whatever any list of moves does with a pair that represents a world is a run: each pair
/// represents its world, and each reply is one that the world allows.
pub fn run_keeps()
    ensures { (pair : PairState) (world : World) (moves : List Move) (replies : List Reply)
        (last : PairState)
        → Stands pair world → Each IsMove moves → DoesAll pair moves replies last
        → Runs pair world moves replies last }
{}

/// A run can continue from where it ended, with a step that its last pair and world allow.
pub fn run_more()
    ensures { (pair : PairState) (world : World) (moves : List Move) (replies : List Reply)
        (last : PairState)
        → Stands pair world → Runs pair world moves replies last
        → (here : World) × Stands last here
        × ((move : Move) (reply : Reply) (next : PairState) → Keeps last here move reply next
        → Runs pair world (moves ++ move ∷ []) (replies ++ reply ∷ []) next) }
{}

/// When nothing waits in any queue, both ends have the same objects under the same ids. At the ids
/// of the server's range that the server has freed, the client still has zombies.
pub fn drained_agree()
    ensures { (pair : PairState) (world : World) → Stands pair world → drained pair
        → Agree pair.client.core.view pair.server.core.view }
{}

/// The client of a pair that represents a world meets no fault.
pub fn client_meets_no_fault()
    ensures { (pair : PairState) (world : World) (fault : Fault) (offset : ℕ) → Stands pair world
        → client_reads.next_answer pair.client ≡ Err (errors.Fault fault offset) → ⊥ }
{}

/// The server of a pair that represents a world meets no fault.
pub fn server_meets_no_fault()
    ensures { (pair : PairState) (world : World) (fault : Fault) (offset : ℕ) → Stands pair world
        → server_reads.next_answer pair.server ≡ Err (errors.Fault fault offset) → ⊥ }
{}

/// An id of the client's range that is free at the client occurs in nothing that is on the way.
pub fn free_nowhere()
    ensures { (id : ℕ) → is_of_server id ≡ false → OnTheWay (λ pair asked told.
        look pair.client.core.view id ≡ None → IsNowhere id asked told) }
{}

/// If an id of the server's range has no row at the client, the first thing on the way to the
/// client that concerns the id makes an object there, so no event names it before. No request on
/// the way concerns it.
pub fn free_is_made_first()
    ensures events { (id : ℕ) → is_of_server id ≡ true → OnTheWay (λ pair asked told.
        look pair.client.core.view id ≡ None → IsMadeFirst id told) }
    ensures requests { (id : ℕ) → is_of_server id ≡ true → OnTheWay (λ pair asked told.
        look pair.client.core.view id ≡ None → IsUnasked id asked) }
{}

/// If the client made an object and has it, its delete is on the way, or it is open at the server,
/// or a request on the way makes it.
pub fn held_where()
    ensures { OfEach (λ pair world object. IsOfClient object
        → IsHeldAtClient world object → IsSomewhere world object) }
{}

/// The client has an object that it made if its delete is on the way, if it is open at the server,
/// or if a request on the way makes it.
pub fn held_back()
    ensures { OfEach (λ pair world object. IsOfClient object
        → IsSomewhere world object → IsHeldAtClient world object) }
{}

/// Only one of these holds for an object.
pub fn only_one()
    ensures open_or_deleted { OfEach (λ pair world object.
        IsThere world.server object → DeleteComes world object → ⊥) }
    ensures made_or_deleted { OfEach (λ pair world object.
        MakeComes world object → DeleteComes world object → ⊥) }
    ensures made_or_open { OfEach (λ pair world object.
        MakeComes world object → IsThere world.server object → ⊥) }
{}

/// If the client made an object and it is ending there, either its destroying request or its delete
/// is on the way, never both. If it is open there, no destroying request is on the way, and its
/// delete is only if its interface has a destroying event. If the server made an object and it is
/// ending at the client, it is open at the server if and only if its destroying request is on the
/// way.
pub fn ending_where()
    ensures ending { OfEach (λ pair world object. IsOfClient object → IsEnding world.client object
        → DeleteComes world object ⊎ DestroyComes world object) }
    ensures one { OfEach (λ pair world object.
        DeleteComes world object → DestroyComes world object → ⊥) }
    ensures is_open { OfEach (λ pair world object.
        IsOpen world.client object → DestroyComes world object → ⊥) }
    ensures event { OfEach (λ pair world object. IsOpen world.client object
        → DeleteComes world object → by_event pair.server.core.tables object ≡ true) }
    ensures of_server { OfEach (λ pair world object. IsOfServer object
        → IsEnding world.client object
        → (IsThere world.server object ↔ DestroyComes world object)) }
{}

/// A request on the way makes an object of the client, an event an object of the server, and a
/// delete is of an object of the client.
pub fn made_by_whom()
    ensures request { OfEach (λ pair world object. MakeComes world object → IsOfClient object) }
    ensures event { OfEach (λ pair world object. EventMakes world object → IsOfServer object) }
    ensures deleted { OfEach (λ pair world object. DeleteComes world object → IsOfClient object) }
{}

/// An object that the server made is open there if and only if an event on the way makes it, or it
/// is open at the client, or a request on the way destroys it. Only one of the three holds (for the
/// last two by `ending_where`). What a request on the way destroys is ending at the client, whoever
/// made it.
pub fn open_where()
    ensures there { OfEach (λ pair world object. IsOfServer object → IsThere world.server object
        ↔ (EventMakes world object ⊎ IsOpen world.client object ⊎ DestroyComes world object)) }
    ensures made_or_open { OfEach (λ pair world object.
        EventMakes world object → IsOpen world.client object → ⊥) }
    ensures made_or_destroyed { OfEach (λ pair world object.
        EventMakes world object → DestroyComes world object → ⊥) }
    ensures destroyed { OfEach (λ pair world object.
        DestroyComes world object → IsEnding world.client object) }
{}

/// Of the server's objects the client has exactly those that it has counted, open or ending. Their
/// births begin at 1.
pub fn counted_is_held()
    ensures { (pair : PairState) (world : World) → StandsIn pair world
        → HoldsServerObjects pair.client.core.view.server.births world.client }
{}

/// If an event on the way names an object, the client has it, or an earlier event makes it. An
/// object of the server whose id was used again counts as one that the client has, since the world
/// has no ids; `ids_are_named_in_turn` says that no event names it.
pub fn named_in_turn()
    ensures { OfEach (λ pair world object. IsNamedInTurn world object) }
{}

/// If an event on the way names an object, the client has that object at its id when the event's
/// turn comes: it is the last one that an earlier event makes at the id or, if none does, the one
/// that the client has there. So no event names an object whose id was used again before the event.
pub fn ids_are_named_in_turn()
    ensures { (object : Known) (before after : List (Coming Known)) (event : Message Known)
        → OnTheWay (λ pair asked told. told ≡ before ++ Event event ∷ after
        → MessageNames object event
        → IsLatest (client_rows pair.client.core.view) object (news_told before)) }
{}

/// What the client says that a message made (`Client::made`) is what the server meant it to make,
/// even if the report is `Discarded`. It replaces no live object.
pub fn made_is_meant()
    ensures made { (pair : PairState) (world : World) (coming : Coming Born)
        (rest : List (Coming Born)) (report : client_reads.Report) → StandsIn pair world
        → world.events ≡ coming ∷ rest
        → client_reads.next_answer pair.client ≡ Ok (Some report)
        → option_map birth_at (client_reads.after_next pair.client).made
        ≡ option_map birth_of (made_by_coming coming) }
    ensures replaced { (pair : PairState) (world : World) (report : client_reads.Report)
        → StandsIn pair world → client_reads.next_answer pair.client ≡ Ok (Some report)
        → (client_reads.after_next pair.client).replaced ≡ None }
{}

/// If a request on the way names an object that the server made, the object is open at the server,
/// and the client has it.
pub fn named_is_open()
    ensures { OfEach (λ pair world object. IsOfServer object → NameComes world object
        → IsThere world.server object × IsHeldAtClient world object) }
{}

/// No request after one that destroys an object names that object or destroys it again.
pub fn destroyed_last()
    ensures { OfEach (λ pair world object. IsLastAsked world object) }
{}

/// No request after one that destroys an object concerns its id, not even for a later object.
pub fn ids_are_destroyed_last()
    ensures { (object : Known) (before after : List (Message Known)) (request : Message Known)
        → OnTheWay (λ pair asked told. asked ≡ before ++ request ∷ after
        → request.ends ≡ Some object → IsUnasked object.id after) }
{}

/// Nothing after a delete on the way names its object.
pub fn deleted_last()
    ensures { OfEach (λ pair world object. IsLast world object) }
{}

/// Nothing after a delete on the way names the id of its object, not even for a later object.
pub fn ids_are_deleted_last()
    ensures { (object : Known) (before after : List (Coming Known)) → OnTheWay (λ pair asked told.
        told ≡ before ++ Delete object ∷ after → IsUnnamed object.id after) }
{}

/// What a request on the way makes has a birth that the server has not counted.
pub fn made_is_not_counted()
    ensures { OfEach (λ pair world object. MakeComes world object
        → object.birth.number < pair.server.core.view.client.births → ⊥) }
{}

/// What an event on the way makes has a birth that the client has not counted.
pub fn told_is_not_counted()
    ensures { OfEach (λ pair world object. EventMakes world object
        → object.birth.number < pair.client.core.view.server.births → ⊥) }
{}

/// In the client's range, the ids used at the client are those used at the server and those of the
/// objects that requests on the way make; the same holds for the births counted. In the server's
/// range the roles are reversed: the ids used at the server are those used at the client and those
/// of the objects that events on the way make; the same holds for the births.
pub fn counted_where()
    ensures ids { OnTheWay (λ pair asked told. IdsAreOf pair asked) }
    ensures births { (pair : PairState) (world : World)
        → StandsIn pair world → BirthsAreOf pair world }
    ensures server_ids { OnTheWay (λ pair asked told. ServerIdsAreOf pair told) }
    ensures server_births { (pair : PairState) (world : World)
        → StandsIn pair world → ServerBirthsAreOf pair world }
{}

/// The requests on the way make, in order, the client's births from the server's count of them up
/// to the client's. The events on the way make, in order, the server's births from the client's
/// count of them up to the server's.
pub fn made_in_order()
    ensures requests { (pair : PairState) (world : World) → StandsIn pair world
        → IsInOrder Client pair.server.core.view.client.births pair.client.core.view.client.births
        (map birth_of (news world.requests)) }
    ensures events { (pair : PairState) (world : World) → StandsIn pair world
        → IsInOrder Server pair.client.core.view.server.births pair.server.core.view.server.births
        (map birth_of (news_told world.events)) }
{}

/// The ids used at each end, in either range, are those of its births: each birth counted there has
/// one of them, and each of them belongs to such a birth.
pub fn ids_are_of_births()
    ensures client { (pair : PairState) (world : World)
        → StandsIn pair world → IdsOfBirths pair.client.core.view.client }
    ensures server { (pair : PairState) (world : World)
        → StandsIn pair world → IdsOfBirths pair.server.core.view.client }
    ensures server_range_at_client { (pair : PairState) (world : World)
        → StandsIn pair world → IdsOfBirths pair.client.core.view.server }
    ensures server_range_at_server { (pair : PairState) (world : World)
        → StandsIn pair world → IdsOfBirths pair.server.core.view.server }
{}

/// If no event of the tables makes an object, neither end has an object of the server, and no
/// message on the way makes or names one. Then what `free_nowhere`, `held_where`, `held_back` and
/// the clause `ending` of `ending_where` say about the client's ids and objects holds for all.
pub fn without_server_objects()
    ensures none_of_server { OfEach (λ pair world object.
        has_server_objects pair.server.core.tables ≡ false → IsOfServer object
        → IsHeldAtClient world object ⊎ IsThere world.server object ⊎ IsOnTheWay world object
        → ⊥) }
    ensures free_nowhere { (id : ℕ) → OnTheWay (λ pair asked told.
        has_server_objects pair.server.core.tables ≡ false
        → look pair.client.core.view id ≡ None → IsNowhere id asked told) }
    ensures held_where { OfEach (λ pair world object.
        has_server_objects pair.server.core.tables ≡ false
        → IsHeldAtClient world object → IsSomewhere world object) }
    ensures held_back { OfEach (λ pair world object.
        has_server_objects pair.server.core.tables ≡ false
        → IsSomewhere world object → IsHeldAtClient world object) }
    ensures ending { OfEach (λ pair world object.
        has_server_objects pair.server.core.tables ≡ false
        → IsEnding world.client object → DeleteComes world object ⊎ DestroyComes world object) }
{}

/// Each registry that is open at the server is one to which globals are announced.
pub fn registries_are_told()
    ensures { OfEach (λ pair world object.
        IsThere world.server object → object.iface ≡ registry → IsToldOfGlobals world object) }
{}

/// What a carry takes out of one end fits into the other end, which takes in all of it.
pub fn carry_is_whole()
    ensures { (from to : Core) (most : ℕ)
        → feeds to (carried_bytes from (carries from to most))
        (carried_tokens from (carries from to most)) ≡ carries from to most }
{}

/// An example history: a callback is made, done, and forgotten.
pub fn callback_lives()
    ensures { (tables : List Interface) → CallbackLives tables }
{}

/// An example history: an event names an object that its reader has destroyed, and is reported with
/// the object dead.
pub fn dead_argument()
    ensures { (tables : List Interface) → DeadArgument tables }
{}

/// An example history: the server posts an error about an object that the client has destroyed. The
/// client reads an earlier event, then the error, with the object dead. The server does not read
/// the request that destroys the object.
pub fn dead_in_error()
    ensures { (tables : List Interface) → DeadInError tables }
{}

/// An example history: a registry is destroyed through wl_fixes while a `global` is on its way to
/// it. The event is discarded and the client learns nothing, the registry is then owed nothing, and
/// its delete follows.
pub fn dead_registry()
    ensures { (tables : List Interface) → DeadRegistry tables }
{}

/// An example history: an event makes an object, the client destroys it, and an event that names it
/// is reported with the object dead. The server reads the destroying request, writes no delete, and
/// makes another object. Last, an event is discarded because the client has destroyed its target,
/// and the object that it makes still opens.
pub fn server_object_lives()
    ensures { (tables : List Interface) → ServerObjectLives tables }
{}
