//! Laws of what an end reads. These functions do nothing; each is called for what it ensures.
ghost use Rattle.std.specs.Prelude.{◌≡◌, ◌<◌, ℕ, false, List, [], length};
ghost use Rattle.std.specs.declared.option.Option.{Option};
ghost use Rattle.std.specs.declared.option.Option.TheVariants.{None, Some};
ghost use Rattle.std.specs.declared.result.Result.{Result};
ghost use Rattle.std.specs.declared.result.Result.TheVariants.{Ok, Err};
ghost use Rattle.wl_sigs.specs.Side.{Side};
ghost use Rattle.wl_sigs.specs.Side.TheVariants.{Event as event_side};
ghost use Rattle.wl_sigs.specs.Tables.{Interface, MessageSignature};
ghost use Rattle.wl_sigs.specs.Rules.{has_server_objects};
ghost use Rattle.wl_sigs.specs.Outcome.{outcome};
ghost use Rattle.wl_sigs.specs.Valid.{Valid};
ghost use Rattle.wl_object_map.specs.declared.object.Object.{Object};
ghost use Rattle.wl_object_map.specs.Objects.{Objects};
ghost use Rattle.wl_objects.specs.declared.error.Fault.{Fault};
ghost use Rattle.wl_objects.specs.declared.error.Fault.TheVariants as faults;
ghost use Rattle.wl_objects.specs.declared.error.SendError.{SendError};
ghost use Rattle.wl_objects.specs.Messages.{checked};
ghost use Rattle.wl_objects.specs.Writing.{Given};
ghost use Rattle.wl_connection.specs.Core.{Core, with_arrived};
ghost use Rattle.wl_connection.specs.MoreTables.{Extend};
ghost use Rattle.wl_connection.specs.Receiving.{Found, found, reported, past_found};
ghost use Rattle.wl_connection.specs.Sending.{IsSendAnswer, OpensNothing, opens_object};
ghost use Rattle.wl_connection.specs.Spelled.{CallsSpell, FoundSpells};

use wl_sigs::places_and_opcodes_stay;

/// A message at the front is found there whatever follows it: it is reported with the same tokens,
/// and what follows remains. The same holds for a fault, except for missing descriptors, which may
/// still come.
pub fn found_stays()
    ensures message { (core : Core) (side : Side) (f : Found) (bytes tokens : List ℕ)
        → found core side ≡ Ok (Some f)
        → found (with_arrived core bytes tokens) side ≡ Ok (Some f) }
    ensures report { (core : Core) (side : Side) (f : Found) (bytes tokens : List ℕ)
        → found core side ≡ Ok (Some f)
        → reported (with_arrived core bytes tokens) side f.message
        ≡ reported core side f.message }
    ensures behind { (core : Core) (side : Side) (f : Found) (bytes tokens : List ℕ)
        → found core side ≡ Ok (Some f)
        → past_found (with_arrived core bytes tokens) f
        ≡ with_arrived (past_found core f) bytes tokens }
    ensures fault { (core : Core) (side : Side) (what : Fault) (bytes tokens : List ℕ)
        → found core side ≡ Err what → (what ≡ faults.MissingDescriptor → tokens ≡ [])
        → found (with_arrived core bytes tokens) side ≡ Err what }
    ensures short { (core : Core) (side : Side) → found core side ≡ Ok None
        → length core.inbox.bytes < core.inbox.limit.bytes }
{}

/// A message is a spelling of its values, both if a call wrote it after passing its checks, and if
/// it is found at the front of what waits. In wl_display.error the object may be null.
pub fn messages_are_spelled()
    ensures written { (core : Core) (side : Side) (target : Object) (opcode : ℕ)
        (given : List Given) (signature : MessageSignature)
        → CallsSpell core side target opcode given signature }
    ensures read { (core : Core) (side : Side) (f : Found) → FoundSpells core side f }
{}

/// A call that opens no object returns none if it is accepted, and neither S10 nor S11. An event
/// opens none if the tables have no events by which the server makes objects.
pub fn openings_alone_need_memory()
    ensures nothing { (core : Core) (side : Side) (target : Object) (opcode : ℕ)
        (given : List Given) (result : Result (Option Object) SendError)
        → IsSendAnswer core side target opcode given result
        → opens_object
        (checked core.outbox.limit.bytes core.tables side core.view target opcode given)
        ≡ false → OpensNothing result }
    ensures event { (limit : ℕ) (tables : List Interface) (view : Objects) (target : Object)
        (opcode : ℕ) (given : List Given)
        → Valid tables → has_server_objects tables ≡ false
        → opens_object (checked limit tables event_side view target opcode given) ≡ false }
{}

/// The tables read from a text over given tables extend these.
pub fn texts_extend()
    ensures { (tables more : List Interface) (text : List ℕ) → outcome tables text ≡ Ok more
        → Extend tables more }
{
    places_and_opcodes_stay();
}
