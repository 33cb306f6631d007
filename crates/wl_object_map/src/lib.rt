//! The objects of one end of a Wayland connection, by id.
//!
//! The client makes ids from 1 on, the server from 0xff000000 on; freed ids are used again. A birth
//! is the number of an object in its range. Each end counts births on its own and never uses one
//! again. (Chapter "Wayland Protocol and Model of Operation", section "Creating Objects".)
#![tactic(auto)]

pub mod laws;
mod map_table;
mod object;
mod objects;
mod slot_table;
mod table;

pub use map_table::MapTable;
pub use object::{Entry, Maker, Object, State, TableError};
pub use objects::Objects;
pub use slot_table::SlotTable;
pub use table::{DISPLAY_ID, FIRST_SERVER_ID, MAX_IDS, MAX_SERVER_ID, Table};
