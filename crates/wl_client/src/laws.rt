//! Laws of what a client reads. These functions do nothing; each is called for what it ensures.
ghost use Rattle.std.specs.Prelude.{◌≡◌, ◌↔◌, ℕ, true, false, List, Option, Some, Ok, Err};
ghost use Rattle.wl_sigs.specs.Side.TheVariants.{Event as event_side};
ghost use Rattle.theory_cuts.specs.Cuts.{AnyCutReads, HasOneReading, ReadsWhole};
ghost use Rattle.wl_sigs.specs.Fixed.{registry};
ghost use Rattle.wl_sigs.specs.Valid.{Valid};
ghost use Rattle.wl_object_map.specs.declared.object.Object.{Object};
ghost use Rattle.wl_object_map.specs.declared.object.Entry.{Entry};
ghost use Rattle.wl_object_map.specs.Objects.{ObjectsAreSound};
ghost use Rattle.wl_objects.specs.Messages.{live_row, same_iface};
ghost use Rattle.wl_objects.specs.declared.error.SendError.TheVariants.{BadBind};
ghost use Rattle.wl_client.specs.Binding.{BindSpells};
ghost use Rattle.wl_client.specs.Replacing.{IsReplaced};
ghost use Rattle.wl_client.specs.Reports.{Report, after_next, next_answer};
ghost use Rattle.wl_client.specs.State.{State};
ghost use Rattle.wl_client.specs.Streams.{client_reading};
ghost use Rattle.wl_client.specs.Unannounced.{HasVersion, IsOfNamed, UnannouncedSpells};
ghost use Rattle.wl_client.specs.Unannounced.{unannounced_answer};

/// What waits is read in only one way, also if more follows.
pub fn one_reading()
    ensures { HasOneReading client_reading }
{}

/// If pieces are in step, it does not matter how the stream is split.
pub fn any_cut_reads()
    ensures { AnyCutReads client_reading event_side }
{}

/// What is read is the front of what waits: as many whole messages as there are reports.
pub fn whole_messages_are_read()
    ensures { ReadsWhole client_reading }
{}

/// What an accepted bind writes is a spelling by the tables' signature.
pub fn binds_are_spelled()
    ensures { (state : State) (registry : Object) (name version : ℕ) (iface : List ℕ)
        → BindSpells state registry name iface version }
{}

/// `bind_unannounced` refuses an interface and version (S7) if and only if the tables have no
/// interface of this name with this version.
pub fn unannounced_binds_are_known()
    ensures { (state : State) (target : Object) (entry : Entry) (name version : ℕ) (iface : List ℕ)
        → Valid state.core.tables → state.core.failed ≡ false
        → live_row state.core.view target ≡ Some entry → same_iface entry.iface registry ≡ true
        → (unannounced_answer state target name iface version ≡ Err BadBind)
        ↔ (¬ HasVersion state.core.tables iface version) }
{}

/// What an accepted `bind_unannounced` writes is a spelling by the tables' signature. Its object
/// has the interface that was named, at the version of the tables.
pub fn unannounced_binds_are_spelled()
    ensures spelled { (state : State) (registry : Object) (name version : ℕ) (iface : List ℕ)
        → UnannouncedSpells state registry name iface version }
    ensures named { (state : State) (registry : Object) (name version : ℕ) (iface : List ℕ)
        (new : Option Object) → unannounced_answer state registry name iface version ≡ Ok new
        → IsOfNamed state name iface version }
{}

/// An object that `Client::replaced` returns was live, and no request could end it at its version.
/// The object that `Client::made` returns has its id and a later birth, and from then on the id has
/// no row of the old object: no later report names it.
pub fn replaced_objects_are_over()
    ensures { (state : State) (report : Report) (old : Object) → Valid state.core.tables
        → ObjectsAreSound state.core.view → next_answer state ≡ Ok (Some report)
        → (after_next state).replaced ≡ Some old → IsReplaced state (after_next state) old }
{}
