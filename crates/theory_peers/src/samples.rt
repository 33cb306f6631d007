//! Requests of a client, and the messages that a checker reads them as, worked out by hand. Each is
//! the contract of a function that does nothing.
ghost use Rattle.std.specs.Prelude.{◌≡◌, ◌∷◌, ◌++◌, [], codes, pos, Some, None};
ghost use Rattle.wl_wire.specs.Argument.{Int, New, NewNamed, Obj, Uint};
ghost use Rattle.wl_wire.specs.Word.{word};
ghost use Rattle.wl_sigs.specs.Fixed.{registry};
ghost use Rattle.wl_check.specs.Samples.{spelled_message};
ghost use Rattle.theory_peers.specs.Samples.{compositor_announced, asked_after, bind_bytes, bound};
ghost use Rattle.theory_peers.specs.Samples.{compositor_at, known_as, surface_at};
ghost use Rattle.theory_peers.specs.Samples.{surface_made, surface_taken_back};

/// A client binds wl_compositor and makes a surface, its third object after wl_display.
pub fn a_surface_is_made()
    ensures bind { asked_after compositor_announced (bind_bytes 4)
        ≡ Some (record {
          target = known_as 2 1 registry 1;
          opcode = 0;
          args = Uint 7 ∷ NewNamed (codes "wl_compositor") 4 (known_as 3 2 compositor_at 4) ∷ [];
          ends = None;
        }) }
    ensures last_version { asked_after compositor_announced (bind_bytes 5)
        ≡ Some (record {
          target = known_as 2 1 registry 1;
          opcode = 0;
          args = Uint 7 ∷ NewNamed (codes "wl_compositor") 5 (known_as 3 2 compositor_at 5) ∷ [];
          ends = None;
        }) }
    ensures later_version { asked_after compositor_announced (bind_bytes 6) ≡ None }
    ensures no_version { asked_after compositor_announced (bind_bytes 0) ≡ None }
    ensures surface { asked_after bound (spelled_message 3 0 (word 4))
        ≡ Some (record {
          target = known_as 3 2 compositor_at 4;
          opcode = 0;
          args = New (known_as 4 3 surface_at 4) ∷ [];
          ends = None;
        }) }
    ensures unknown { asked_after compositor_announced (spelled_message 3 0 (word 4)) ≡ None }
    ensures null { asked_after surface_made (spelled_message 4 1 (word 0 ++ word 5 ++ word 6))
        ≡ Some (record {
          target = known_as 4 3 surface_at 4;
          opcode = 1;
          args = Obj None ∷ Int (pos 5) ∷ Int (pos 6) ∷ [];
          ends = None;
        }) }
    ensures destroyed { asked_after surface_made (spelled_message 4 0 [])
        ≡ Some (record {
          target = known_as 4 3 surface_at 4;
          opcode = 0;
          args = [];
          ends = Some (known_as 4 3 surface_at 4);
        }) }
{}

/// The id is used again: the next surface is another object.
pub fn an_id_is_used_again()
    ensures { asked_after surface_taken_back (spelled_message 3 0 (word 4))
        ≡ Some (record {
          target = known_as 3 2 compositor_at 4;
          opcode = 0;
          args = New (known_as 4 4 surface_at 4) ∷ [];
          ends = None;
        }) }
{}
