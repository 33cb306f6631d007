//! The meaning of some messages, worked out by hand. Each is the contract of a function that does
//! nothing.
ghost use Rattle.std.specs.Prelude.{◌≡◌, [], ◌∷◌, codes, Ok, Err};
ghost use Rattle.wl_wire.specs.declared.kind.ArgFault.TheVariants.{NoEndingNul};
ghost use Rattle.wl_wire.specs.Argument.{Uint, Obj, New, NewNamed};
ghost use Rattle.wl_objects.specs.declared.error.Fault.TheVariants.{UnknownObject, UnknownMessage};
ghost use Rattle.wl_objects.specs.declared.error.Fault.TheVariants.{BadArgument, BadObject};
ghost use Rattle.wl_objects.specs.declared.error.Fault.TheVariants.{BadNewId, TrailingBytes};
ghost use Rattle.wl_objects.specs.declared.error.Fault.TheVariants.{MissingDescriptor};
ghost use Rattle.wl_objects.specs.declared.error.Fault.TheVariants.{TooManyObjects};
ghost use Rattle.wl_objects.specs.Samples.{sample_request, request_to, full, fresh};
ghost use Rattle.wl_objects.specs.Samples.{sample_registry, with_callback, with_shm, with_surface};
ghost use Rattle.wl_objects.specs.Samples.{bind_body};

/// At a server that has read nothing: wl_display.get_registry with id 2 and wl_display.sync with id
/// 3. At one that has a registry at id 2: get_registry with id 2, which is in use.
#[tactic(auto, unfolding(wl_sigs::specs::Core::core_tables))]
pub fn new_objects()
    ensures registry { sample_request fresh 1 1 (2 ∷ 0 ∷ 0 ∷ 0 ∷ []) ≡ Ok (New 2 ∷ []) }
    ensures past { sample_request fresh 1 0 (3 ∷ 0 ∷ 0 ∷ 0 ∷ []) ≡ Err (BadNewId 0) }
    ensures sync { sample_request sample_registry 1 0 (3 ∷ 0 ∷ 0 ∷ 0 ∷ []) ≡ Ok (New 3 ∷ []) }
    ensures in_use { sample_request sample_registry 1 0 (2 ∷ 0 ∷ 0 ∷ 0 ∷ []) ≡ Err (BadNewId 0) }
{}

/// wl_registry.bind of a compositor, version 6, at id 4; the same with a length that is one too
/// small, so that the last byte counted is not NUL.
#[tactic(auto, unfolding(wl_sigs::specs::Core::core_tables))]
pub fn bind()
    ensures bound { sample_request with_callback 2 0 (bind_body 14)
        ≡ Ok (Uint 1 ∷ NewNamed (codes "wl_compositor") 6 4 ∷ []) }
    ensures no_nul { sample_request with_callback 2 0 (bind_body 13)
        ≡ Err (BadArgument 1 NoEndingNul) }
{}

/// An unknown object, an unknown opcode, bytes left over, and a wl_shm.create_pool without its
/// descriptor.
#[tactic(auto, unfolding(wl_sigs::specs::Core::core_tables))]
pub fn faults()
    ensures object { sample_request fresh 9 0 [] ≡ Err UnknownObject }
    ensures message { sample_request fresh 1 2 [] ≡ Err UnknownMessage }
    ensures bytes { sample_request fresh 1 0 (2 ∷ 0 ∷ 0 ∷ 0 ∷ 0 ∷ 0 ∷ 0 ∷ 0 ∷ [])
        ≡ Err TrailingBytes }
    ensures descriptor { sample_request with_shm 3 0 (4 ∷ 0 ∷ 0 ∷ 0 ∷ 16 ∷ 0 ∷ 0 ∷ 0 ∷ [])
        ≡ Err MissingDescriptor }
{}

/// wl_surface.set_opaque_region with null; with the registry, which is no wl_region; and with an id
/// that names no object. Then wl_display.sync with the next id, while there is no room for an
/// object.
#[tactic(auto, unfolding(wl_sigs::specs::Core::core_tables))]
pub fn object_faults()
    ensures null { sample_request with_surface 3 4 (0 ∷ 0 ∷ 0 ∷ 0 ∷ []) ≡ Ok (Obj 0 ∷ []) }
    ensures other { sample_request with_surface 3 4 (2 ∷ 0 ∷ 0 ∷ 0 ∷ []) ≡ Err (BadObject 0) }
    ensures unknown { sample_request with_surface 3 4 (9 ∷ 0 ∷ 0 ∷ 0 ∷ []) ≡ Err (BadObject 0) }
    ensures full { request_to (full sample_registry) 1 0 (3 ∷ 0 ∷ 0 ∷ 0 ∷ []) ≡ Err TooManyObjects }
{}
