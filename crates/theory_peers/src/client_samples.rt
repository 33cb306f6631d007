//! Events of a server, the messages that a checker reads them as, and the client's requests after
//! them, worked out by hand. Each is the contract of a function that does nothing.
ghost use Rattle.std.specs.Prelude.{◌≡◌, ◌∷◌, [], Some, None, true, false};
ghost use Rattle.wl_wire.specs.Argument.{New, Uint};
ghost use Rattle.wl_wire.specs.Word.{word};
ghost use Rattle.wl_objects.specs.declared.error.Fault.TheVariants.{BadObject, UnknownObject};
ghost use Rattle.wl_recording.specs.declared.piece.Direction.TheVariants.{ToClient, ToServer};
ghost use Rattle.wl_sigs.specs.Fixed.{display};
ghost use Rattle.wl_check.specs.Samples.{first_id, mode, offer_place, spelled_message};
ghost use Rattle.theory_peers.specs.ClientSamples.{attach_nothing, binds_compositor};
ghost use Rattle.theory_peers.specs.ClientSamples.{broken_rule, delete_surface, made_known};
ghost use Rattle.theory_peers.specs.ClientSamples.{mode_made, mode_replaced, offer_given_up};
ghost use Rattle.theory_peers.specs.ClientSamples.{screen_at, screen_bound, screen_next};
ghost use Rattle.theory_peers.specs.ClientSamples.{screen_told, surface_lost, told_after};
ghost use Rattle.theory_peers.specs.ClientSamples.{undeserved_next, use_mode};
ghost use Rattle.theory_peers.specs.Samples.{judged_next, known_as, surface_at, surface_made};

/// A client binds a global that was announced with version 5 at versions 1 to 5. The tables have
/// version 6.
pub fn binds_between_the_bounds()
    ensures none { binds_compositor 0 ≡ false }
    ensures first { binds_compositor 1 ≡ true }
    ensures last { binds_compositor 5 ≡ true }
    ensures later { binds_compositor 6 ≡ false }
{}

/// The server makes an offer at the id of one that the client has destroyed: it is the server's
/// second object.
pub fn a_server_uses_an_id_again()
    ensures offer { screen_told screen_bound (spelled_message 3 1 (word first_id))
        ≡ Some (record {
          event = record {
            target = known_as 3 2 screen_at 2;
            opcode = 1;
            args = New (made_known first_id 1 offer_place 2) ∷ [];
            ends = None;
          };
          takes_back = None;
        }) }
    ensures again { screen_told offer_given_up (spelled_message 3 1 (word first_id))
        ≡ Some (record {
          event = record {
            target = known_as 3 2 screen_at 2;
            opcode = 1;
            args = New (made_known first_id 2 offer_place 2) ∷ [];
            ends = None;
          };
          takes_back = None;
        }) }
{}

/// Nobody asked for the delete_id of an open surface, so it is not deserved. The rules allow it,
/// and after it the client's next request for the surface breaks one.
pub fn a_delete_id_that_nobody_asked_for()
    ensures undeserved { undeserved_next surface_made delete_surface ≡ Some 4 }
    ensures allowed { broken_rule (judged_next surface_made ToClient delete_surface) ≡ None }
    ensures taken { told_after surface_made delete_surface
        ≡ Some (record {
          event = record {
            target = known_as 1 0 display 1;
            opcode = 1;
            args = Uint 4 ∷ [];
            ends = None;
          };
          takes_back = Some (known_as 4 3 surface_at 4);
        }) }
    ensures before { broken_rule (judged_next surface_made ToServer attach_nothing) ≡ None }
    ensures after { broken_rule (judged_next surface_lost ToServer attach_nothing)
        ≡ Some UnknownObject }
{}

/// The rules let an event replace an open mode, which no request can end. After that, the client's
/// request that names the mode breaks a rule.
pub fn a_mode_is_replaced()
    ensures before { broken_rule (screen_next mode_made ToServer use_mode) ≡ None }
    ensures replaced { broken_rule (screen_next mode_made ToClient
        (spelled_message 3 1 (word first_id))) ≡ None }
    ensures after { broken_rule (screen_next mode_replaced ToServer use_mode)
        ≡ Some (BadObject 0) }
{}
