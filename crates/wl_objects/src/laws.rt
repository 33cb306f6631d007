//! Laws of arguments and messages. Each is the contract of a function that does nothing.
ghost use Rattle.std.specs.Prelude.{◌≡◌, ◌≢◌, ◌↔◌, ◌^◌, ◌<◌, ◌≤◌, ◌%◌, ℕ, List, [], Option, Some};
ghost use Rattle.std.specs.Prelude.{None, Ok, Err, false, length, map, option_map};
ghost use Rattle.std.specs.List.{All};
ghost use Rattle.wl_wire.specs.declared.kind.Kind.{Kind as SpecKind};
ghost use Rattle.wl_wire.specs.Argument.{Argument, Obj};
ghost use Rattle.wl_sigs.specs.Side.{Side as SpecSide};
ghost use Rattle.wl_sigs.specs.Tables.{Interface, MessageSignature};
ghost use Rattle.wl_objects.specs.declared.argument.Arg.{Arg as SpecArg};
ghost use Rattle.wl_objects.specs.declared.error.Fault.{Fault as SpecFault};
ghost use Rattle.wl_objects.specs.declared.error.SendError.TheVariants.{BadObject, WrongArgs};
ghost use Rattle.wl_object_map.specs.declared.object.Entry.{Entry as SpecEntry};
ghost use Rattle.wl_object_map.specs.declared.object.Object.{Object as SpecObject};
ghost use Rattle.wl_object_map.specs.Objects.{Objects, look};
ghost use Rattle.wl_objects.specs.Reading.{Reader, arguments_at, forgiving_kind};
ghost use Rattle.wl_objects.specs.Spelling.{MeetsKinds, FirstFault, SpellsAll};
ghost use Rattle.wl_objects.specs.Writing.{Given, call_makes, given, message_bytes, message_len};
ghost use Rattle.wl_objects.specs.Writing.{lost_place, on_wire, spelled, tokens_of, wired};
ghost use Rattle.wl_objects.specs.Writing.{wrong_place};
ghost use Rattle.wl_objects.specs.Messages.{checked, made, received};
ghost use Rattle.wl_objects.specs.Carried.{AreExpected, AreWritten, Arrive, InRange, IsTarget};
ghost use Rattle.wl_objects.specs.Carried.{CallPasses, received_as_meant};
ghost use Rattle.wl_objects.specs.Places.{IsFirstLost, IsFirstWrong, ReachesArguments, SuitsAt};

/// What one end writes arrives at the other. The arguments suit the message, name live objects of
/// the writer, and are spelled with the new id n. Then any reader reads them that has each named
/// object under its id, with its birth and interface, live or a zombie, and for which n is free.
pub fn what_is_written_arrives()
    ensures { (writer : ℕ → Option SpecEntry) (reader : Reader) (kinds : List SpecKind) (n : ℕ)
        (list : List Given)
        → n < 2 ^ 32 → reader.forgives ≡ false → AreWritten writer kinds list
        → AreExpected writer reader n kinds list
        → Arrive reader kinds n list }
{}

/// The arguments at the front of a message's body are read if and only if they are what the reader
/// expects.
pub fn what_meets_is_read()
    ensures { (reader : Reader) (place : ℕ) (kinds : List SpecKind) (bytes : List ℕ)
        (values : List Argument) (rest : List ℕ)
        → All (λ b. b < 256) bytes
        → (arguments_at reader place kinds bytes ≡ Ok (values, rest))
        ↔ MeetsKinds reader place kinds bytes values rest }
{}

/// The fault of a message's arguments is the first that applies.
pub fn first_fault()
    ensures { (reader : Reader) (place : ℕ) (kinds : List SpecKind) (bytes : List ℕ)
        (fault : SpecFault)
        → All (λ b. b < 256) bytes
        → (arguments_at reader place kinds bytes ≡ Err fault)
        ↔ FirstFault reader place kinds bytes fault }
{}

/// The object that a call makes has the interface in the message's signature.
pub fn call_makes_its_object()
    ensures { (tables : List Interface) (version id : ℕ) (kinds : List SpecKind)
        (list : List SpecArg)
        → wrong_place 0 kinds (given list) ≡ None
        → made tables version kinds (on_wire id list)
        ≡ option_map (λ iface. record { id = id; iface = iface; version = version })
        (call_makes kinds) }
{}

/// A call passes its checks if and only if no refusal applies.
pub fn a_call_passes()
    ensures { (limit : ℕ) (tables : List Interface) (side : SpecSide) (view : Objects)
        (target : SpecObject) (opcode : ℕ) (list : List Given) (signature : MessageSignature)
        → (checked limit tables side view target opcode list ≡ Ok signature)
        ↔ CallPasses limit tables side view target opcode list signature }
{}

/// For arguments that do not suit, a call returns the first: all before it suit, and it does not,
/// or is missing, or is one too many. So if the numbers of arguments differ and all before suit,
/// the index is the smaller number. It returns none if and only if there is an argument for each
/// kind and all suit.
pub fn first_wrong_argument()
    ensures place { (kinds : List SpecKind) (list : List Given) (place : ℕ)
        → (wrong_place 0 kinds list ≡ Some place) ↔ IsFirstWrong kinds list place }
    ensures none { (kinds : List SpecKind) (list : List Given)
        → (wrong_place 0 kinds list ≡ None) ↔ ((length list ≡ length kinds)
        × ((k : ℕ) → k < length kinds → SuitsAt kinds list k)) }
{}

/// For objects that cannot be named, a call returns the first: all before it can, and it is not
/// live with its birth, or has another interface.
pub fn first_lost_object()
    ensures { (rows : ℕ → Option SpecEntry) (kinds : List SpecKind) (list : List Given) (place : ℕ)
        → (lost_place rows 0 kinds list ≡ Some place) ↔ IsFirstLost rows kinds list place }
{}

/// A call is refused for an argument if and only if the checks get to its arguments and one is
/// wrong: S5 for the first that does not suit, and S6 for the first object that cannot be named,
/// which is looked for only if all arguments suit.
pub fn a_call_is_refused_for_an_argument()
    ensures wrong { (limit : ℕ) (tables : List Interface) (side : SpecSide) (view : Objects)
        (target : SpecObject) (opcode : ℕ) (list : List Given) (place : ℕ)
        → (checked limit tables side view target opcode list ≡ Err (WrongArgs place))
        ↔ ((signature : MessageSignature) × ReachesArguments tables side view target opcode
        signature
        × IsFirstWrong signature.kinds list place) }
    ensures lost { (limit : ℕ) (tables : List Interface) (side : SpecSide) (view : Objects)
        (target : SpecObject) (opcode : ℕ) (list : List Given) (place : ℕ)
        → (checked limit tables side view target opcode list ≡ Err (BadObject place))
        ↔ ((signature : MessageSignature) × ReachesArguments tables side view target opcode
        signature
        × (length list ≡ length signature.kinds)
        × ((k : ℕ) → k < length signature.kinds → SuitsAt signature.kinds list k)
        × IsFirstLost (look view) signature.kinds list place) }
{}

/// A whole message arrives: what passed its checks at one end is received at the other, if the
/// reader has the target and each named object, live or a zombie, and the new id is free.
pub fn a_message_arrives()
    ensures { (limit : ℕ) (tables : List Interface) (side : SpecSide) (view : Objects)
        (reader : Reader) (target : SpecObject) (opcode size n waiting : ℕ) (list : List Given)
        (signature : MessageSignature) → (passes : CallPasses limit tables side view target opcode
        list signature)
        → (held : IsTarget passes.entry reader target)
        → reader.forgives ≡ false → n < 2 ^ 32 → All InRange list
        → AreExpected (look view) reader n signature.kinds list
        → length (tokens_of list) ≤ waiting
        → received tables side reader (record { object = target.id; size = size; opcode = opcode })
        (spelled (map (wired n) list)) waiting
        ≡ Ok (received_as_meant target held.row signature (map (wired n) list)) }
{}

/// A message is a sequence of whole words, as many bytes as its header says.
pub fn a_message_has_its_size()
    ensures len { (object opcode : ℕ) (values : List Argument)
        → length (message_bytes object opcode values) ≡ message_len values }
    ensures words { (values : List Argument) → message_len values % 4 ≡ 0 }
    ensures header { (values : List Argument) → 8 ≤ message_len values }
{}

/// A message that was read whole is a spelling of the values that were read; the object of
/// wl_display.error may be null.
pub fn what_is_read_is_spelled()
    ensures { (reader : Reader) (kinds : List SpecKind) (bytes : List ℕ) (values : List Argument)
        → All (λ b. b < 256) bytes
        → arguments_at reader 0 kinds bytes ≡ Ok (values, [])
        → SpellsAll (map (forgiving_kind reader.forgives) kinds) values bytes }
{}

/// A written message is a spelling of its values, if no object has the id 0.
pub fn what_is_written_is_spelled()
    ensures { (kinds : List SpecKind) (n : ℕ) (list : List Given) → n < 2 ^ 32
        → wrong_place 0 kinds list ≡ None → All InRange list
        → ((object : SpecObject) → All (λ x. x ≡ Obj (Some object) → object.id ≢ 0) list)
        → SpellsAll kinds (map (wired n) list) (spelled (map (wired n) list)) }
{}
