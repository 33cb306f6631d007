//! How both ends of a Wayland connection read and write the arguments of a message, using the
//! objects of one end. (Chapter "Wayland Protocol and Model of Operation", sections "Wire Format"
//! and "Creating Objects".)
//!
//! The table of objects is in `wl_object_map`, whose public items are re-exported here.
#![tactic(auto)]

mod args;
mod argument;
mod calling;
mod error;
pub mod laws;
mod lookup;
mod messages;
mod new_object;
mod parsed;
mod reading;
mod reporting;
pub mod samples;
mod values;
mod writing;

pub use args::Args;
pub use argument::{Arg, Got, GotRef, Named};
pub use calling::{CheckedCall, check_call, check_words, live_row};
pub use error::{Fault, NextError, SendError};
pub use lookup::{Lookup, NewId, ObjectsLookup, waits_for_request};
pub use messages::{
    DISPLAY, REGISTRY, SideTables, is_bind, is_delete_id, is_error, is_hidden, maker_by,
};
pub use new_object::{NewObject, made_by_message};
pub use parsed::{ParsedArg, ParsedArgs};
pub use reading::{Received, receive};
pub use reporting::{OwnedArgs, named};
pub use values::Values;
pub use wl_object_map::{
    Entry, FIRST_SERVER_ID, Maker, MapTable, Object, Objects, SlotTable, State, Table, TableError,
};
pub use wl_sigs::MAX_ARGS;
pub use writing::{BindMessage, CallMessage, WordsMessage, take_tokens};
