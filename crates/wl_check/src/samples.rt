//! Messages by which the server makes objects, and what comes after them, worked out by hand. Each
//! is the contract of a function that does nothing.
ghost use Rattle.std.specs.Prelude.{◌≡◌, ◌++◌, [], ◌∷◌, codes, Some, None, Ok, Err};
ghost use Rattle.wl_object_map.specs.declared.object.State.TheVariants.{Live, Zombie};
ghost use Rattle.wl_wire.specs.Word.{word};
ghost use Rattle.wl_objects.specs.declared.error.Fault.TheVariants.{BadNewId, BadObject};
ghost use Rattle.wl_objects.specs.declared.error.Fault.TheVariants.{UnknownObject};
ghost use Rattle.wl_objects.specs.declared.lookup.NewId.TheVariants.{Free, Wrong, TooMany};
ghost use Rattle.wl_recording.specs.declared.piece.Direction.TheVariants.{ToServer, ToClient};
ghost use Rattle.wl_check.specs.Samples.{a_buffer, a_mode, an_offer, buffer_place, comes_behind};
ghost use Rattle.wl_check.specs.Samples.{did_delete, did_destroy, did_make, did_nothing, first_id};
ghost use Rattle.wl_check.specs.Samples.{its_destruction, line_behind, mode, named_behind};
ghost use Rattle.wl_check.specs.Samples.{new_server_id, offer_place, own_buffer, spelled_message};
ghost use Rattle.wl_check.specs.Samples.{taken_back, with_device, with_params};
ghost use Rattle.wl_sigs.specs.Fixed.{callback};

/// The bytes of an event that makes an offer, of the request that destroys it, and of an event that
/// shows it; then an event with the same bytes makes the next offer, with the same id.
pub fn an_offer_and_the_next()
    ensures made { comes_behind (with_device 3) ToClient
        (3 ∷ 0 ∷ 0 ∷ 0 ∷ 0 ∷ 0 ∷ 12 ∷ 0 ∷ 0 ∷ 0 ∷ 0 ∷ 255 ∷ [])
        ≡ Ok an_offer }
    ensures destroyed { comes_behind (with_device 3 ++ an_offer ∷ []) ToServer
        (0 ∷ 0 ∷ 0 ∷ 255 ∷ 0 ∷ 0 ∷ 8 ∷ 0 ∷ [])
        ≡ Ok its_destruction }
    ensures shown { comes_behind (with_device 3 ++ an_offer ∷ its_destruction ∷ []) ToClient
        (3 ∷ 0 ∷ 0 ∷ 0 ∷ 1 ∷ 0 ∷ 12 ∷ 0 ∷ 0 ∷ 0 ∷ 0 ∷ 255 ∷ [])
        ≡ Ok (did_nothing ToClient) }
    ensures again { comes_behind
        (with_device 3 ++ an_offer ∷ its_destruction ∷ did_nothing ToClient ∷ [])
        ToClient (3 ∷ 0 ∷ 0 ∷ 0 ∷ 0 ∷ 0 ∷ 12 ∷ 0 ∷ 0 ∷ 0 ∷ 0 ∷ 255 ∷ [])
        ≡ Ok an_offer }
    ensures open { named_behind (with_device 3 ++ an_offer ∷ []) first_id
        ≡ Some (record { birth = 3; iface = offer_place; version = 3; state = Live }) }
    ensures ending { named_behind
        (with_device 3 ++ an_offer ∷ its_destruction ∷ did_nothing ToClient ∷ []) first_id
        ≡ Some (record { birth = 3; iface = offer_place; version = 3; state = Zombie }) }
    ensures born_again { named_behind
        (with_device 3 ++ an_offer ∷ its_destruction ∷ did_nothing ToClient ∷ an_offer ∷ [])
        first_id
        ≡ Some (record { birth = 6; iface = offer_place; version = 3; state = Live }) }
    ensures line { line_behind (with_device 3) ToClient (spelled_message 3 0 (word first_id))
        ≡ codes "<- device@3.made(new id offer@4278190080)\n" }
    ensures shown_line { line_behind (with_device 3 ++ an_offer ∷ its_destruction ∷ []) ToClient
        (spelled_message 3 1 (word first_id))
        ≡ codes "<- device@3.show(offer@4278190080)\n" }
{}

/// An event for an offer that has ended, before and after its id is used again; a request for it;
/// and its delete_id, which changes nothing.
pub fn offers_that_ended()
    ensures before { comes_behind (with_device 3 ++ an_offer ∷ its_destruction ∷ []) ToClient
        (spelled_message first_id 0 (word 9))
        ≡ Ok (did_nothing ToClient) }
    ensures after { comes_behind (with_device 3 ++ an_offer ∷ its_destruction ∷ an_offer ∷ [])
        ToClient (spelled_message first_id 0 (word 9))
        ≡ Ok (did_nothing ToClient) }
    ensures request { comes_behind (with_device 3 ++ an_offer ∷ its_destruction ∷ []) ToServer
        (spelled_message first_id 0 [])
        ≡ Err UnknownObject }
    ensures delete_id { comes_behind (with_device 3 ++ an_offer ∷ []) ToClient
        (spelled_message 1 1 (word first_id))
        ≡ Ok (did_delete first_id) }
    ensures kept { named_behind (with_device 3 ++ an_offer ∷ did_delete first_id ∷ []) first_id
        ≡ Some (record { birth = 3; iface = offer_place; version = 3; state = Live }) }
{}

/// A device that was destroyed still makes an offer: it can be shown and destroyed, and its id is
/// used.
pub fn an_offer_of_an_ended_device()
    ensures made { comes_behind (with_device 3 ++ did_destroy ToServer 3 ∷ []) ToClient
        (spelled_message 3 0 (word first_id))
        ≡ Ok an_offer }
    ensures open { named_behind (with_device 3 ++ did_destroy ToServer 3 ∷ an_offer ∷ []) first_id
        ≡ Some (record { birth = 4; iface = offer_place; version = 3; state = Live }) }
    ensures shown { comes_behind (with_device 3 ++ did_destroy ToServer 3 ∷ an_offer ∷ []) ToClient
        (spelled_message 3 1 (word first_id))
        ≡ Ok (did_nothing ToClient) }
    ensures destroyed { comes_behind (with_device 3 ++ did_destroy ToServer 3 ∷ an_offer ∷ [])
        ToServer (spelled_message first_id 0 [])
        ≡ Ok its_destruction }
    ensures next { comes_behind (with_device 3 ++ did_destroy ToServer 3 ∷ an_offer ∷ []) ToClient
        (spelled_message 3 0 (word 4278190081))
        ≡ Ok (did_make ToClient 4278190081 offer_place 3) }
{}

/// A buffer made by a request, and one made by an event: the same request destroys either, and a
/// delete_id frees only the id of the first.
pub fn buffers_made_both_ways()
    ensures by_request { comes_behind with_params ToServer (spelled_message 3 1 (word 4))
        ≡ Ok own_buffer }
    ensures by_event { comes_behind (with_params ++ own_buffer ∷ []) ToClient
        (spelled_message 3 0 (word first_id))
        ≡ Ok a_buffer }
    ensures destroyed { comes_behind (with_params ++ own_buffer ∷ a_buffer ∷ []) ToServer
        (spelled_message 4 0 [])
        ≡ Ok (did_destroy ToServer 4) }
    ensures destroyed_too { comes_behind (with_params ++ own_buffer ∷ a_buffer ∷ []) ToServer
        (spelled_message first_id 0 [])
        ≡ Ok its_destruction }
    ensures freed { named_behind (with_params ++ own_buffer ∷ a_buffer ∷ did_destroy ToServer 4
        ∷ its_destruction ∷ did_delete 4 ∷ did_delete first_id ∷ []) 4
        ≡ None }
    ensures kept { named_behind (with_params ++ own_buffer ∷ a_buffer ∷ did_destroy ToServer 4
        ∷ its_destruction ∷ did_delete 4 ∷ did_delete first_id ∷ []) first_id
        ≡ Some (record { birth = 4; iface = buffer_place; version = 1; state = Zombie }) }
{}

/// A delete_id of a live buffer, of the live offer of a server, of wl_display, and of an id without
/// an object: the id that it takes back undeserved. One of a destroyed buffer, of an ended offer,
/// and of a callback, which an event ends: none.
pub fn delete_ids_that_nothing_asked_for()
    ensures live { taken_back (with_params ++ own_buffer ∷ []) 4 ≡ Some 4 }
    ensures of_server { taken_back (with_device 3 ++ an_offer ∷ []) first_id ≡ Some first_id }
    ensures display { taken_back [] 1 ≡ Some 1 }
    ensures without_object { taken_back [] 2 ≡ Some 2 }
    ensures freed { taken_back
        (with_params ++ own_buffer ∷ did_destroy ToServer 4 ∷ did_delete 4 ∷ []) 4
        ≡ Some 4 }
    ensures destroyed { taken_back (with_params ++ own_buffer ∷ did_destroy ToServer 4 ∷ []) 4
        ≡ None }
    ensures ended { taken_back (with_device 3 ++ an_offer ∷ its_destruction ∷ []) first_id ≡ None }
    ensures by_event { taken_back (did_make ToServer 2 callback 1 ∷ []) 2 ≡ None }
{}

/// F6: an id below the server's range, 0, one that is neither used nor next, and that of an open
/// offer; and in a request an id of the server's range, next or used. F5: an offer that was not
/// made.
pub fn wrong_ids()
    ensures below { comes_behind (with_device 3) ToClient (spelled_message 3 0 (word 4))
        ≡ Err (BadNewId 0) }
    ensures null { comes_behind (with_device 3) ToClient (spelled_message 3 0 (word 0))
        ≡ Err (BadNewId 0) }
    ensures past { comes_behind (with_device 3) ToClient (spelled_message 3 0 (word 4278190081))
        ≡ Err (BadNewId 0) }
    ensures open { comes_behind (with_device 3 ++ an_offer ∷ []) ToClient
        (spelled_message 3 0 (word first_id))
        ≡ Err (BadNewId 0) }
    ensures next_in_request { comes_behind with_params ToServer
        (spelled_message 3 1 (word first_id))
        ≡ Err (BadNewId 0) }
    ensures used_in_request { comes_behind (with_params ++ a_buffer ∷ its_destruction ∷ []) ToServer
        (spelled_message 3 1 (word first_id))
        ≡ Err (BadNewId 0) }
    ensures not_made { comes_behind (with_device 3) ToClient (spelled_message 3 1 (word first_id))
        ≡ Err (BadObject 0) }
{}

/// The last id of the server's range is free if it is the next. If all ids of the range were used,
/// the id after the last is F10, and the one after that F6.
pub fn the_last_id()
    ensures last { new_server_id 1048574 4279238654 ≡ Free }
    ensures past { new_server_id 1048575 4279238655 ≡ TooMany }
    ensures wrong { new_server_id 1048575 4279238656 ≡ Wrong }
{}

/// A mode that no request can end at its version is replaced by the next one; a mode that a request
/// can end is not.
pub fn modes_that_end_alone()
    ensures replaced { comes_behind (with_device 2 ++ a_mode 2 ∷ []) ToClient
        (spelled_message 3 2 (word first_id))
        ≡ Ok (a_mode 2) }
    ensures born { named_behind (with_device 2 ++ a_mode 2 ∷ a_mode 2 ∷ []) first_id
        ≡ Some (record { birth = 4; iface = mode; version = 2; state = Live }) }
    ensures kept { comes_behind (with_device 3 ++ a_mode 3 ∷ []) ToClient
        (spelled_message 3 2 (word first_id))
        ≡ Err (BadNewId 0) }
{}
