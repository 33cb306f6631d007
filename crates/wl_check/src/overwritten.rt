//! What messages overwrite in what is known.
ghost use Rattle.std.specs.Prelude.{◌≡◌, OnOk, OnErr};
ghost use Rattle.wl_check.specs.Held.{put_back, undone_by, Held};

use std::alloc::{AllocError, Allocator, Global};
use wl_objects::Entry;

/// What was overwritten. Restoring it, the last first, restores the earlier state.
#[derive(Clone, Copy)]
pub(crate) enum Overwritten {
    /// The object at an id, and the number of slots of its range.
    Object {
        id: u32,
        entry: Option<Entry>,
        slots: usize,
    },
    /// The greatest version advertised for a name and an interface.
    Global {
        key: (u32, u16),
        version: Option<u32>,
    },
}

/// Whether overwritten values are recorded, and those recorded so far.
#[derive(Drop)]
pub(crate) enum UndoList<A: Allocator = Global> {
    /// Nothing will be restored.
    Off,
    On(Vec<Overwritten, A>),
}

impl<A: Allocator> UndoList<A> {
    /// Records what is about to be overwritten.
    #[inline(always)]
    pub(crate) fn write_down(&mut self, before: Overwritten) -> Result<(), AllocError>
        ensures ok { OnOk result ((old new : Held) → put_back before new ≡ old
            → undone_by self.new new ≡ undone_by self.old old) }
        ensures err { OnErr result ((held : Held)
            → undone_by self.new held ≡ undone_by self.old held) }
    {
        match self {
            UndoList::Off => {}
            UndoList::On(list) => list.push(before)?,
        }
        Ok(())
    }
}
