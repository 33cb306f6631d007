//! An end that reads messages, and what it keeps about the last one read.
ghost use Rattle.std.specs.Prelude.{◌≡◌};

use crate::shared::Core;
use wl_objects::{ParsedArgs, Table};

/// An end, and the parsed arguments of the message that was read last. Reports borrow them from
/// here.
///
/// The fields are for the two ends built on it.
#[derive(Drop)]
pub struct Endpoint<'t, T: Table> {
    pub core: Core<'t, T>,
    pub args: ParsedArgs,
}

impl<'t, T: Table> Endpoint<'t, T> {
    /// This end, before any message is read.
    pub fn new(core: Core<'t, T>) -> Self
        ensures { result.core ≡ core.entry }
    {
        Endpoint {
            core,
            args: ParsedArgs::new(),
        }
    }
}
